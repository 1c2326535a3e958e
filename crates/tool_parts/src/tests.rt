//! That the calls succeed where there is memory.

use super::*;
use lisp_data::Symbol;
use std::alloc::Global;
use std::test::Fail;
use terms::{Term, Terms};
use worlds::World;

#[test]
fn makes_formulas(rt: HostRuntime) -> Result<(), Fail> {
    let alloc = rt.alloc();
    let world = World::initial(alloc)?;
    let name = Symbol::new(alloc, "BINARY-APPEND")?;
    match world.find_definition(&name) {
        Some(definition) => {
            let call = at_variables(alloc, &name, &definition.formals)?;
            let mut terms = Terms::new(alloc);
            terms.push(call.share()?)?;
            let twice = followed(terms.copy(alloc)?, &terms)?;
            assert_eq!(rt; twice.len(), 2);
            assert_eq!(rt; alone(alloc, call).hyps.len(), 0);
        }
        None => assert!(rt; false),
    }
    Ok(())
}
