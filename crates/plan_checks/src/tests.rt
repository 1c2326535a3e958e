//! That the calls succeed where there is memory.

use super::*;
use lisp_data::{Symbol, Value};
use std::alloc::Global;
use std::test::Fail;
use terms::{Sequent, Term, Terms};
use worlds::World;

fn sequent(alloc: Global) -> Result<Sequent, Fail> {
    let goal = Term::quote(alloc, Value::Int(1))?;
    Ok(Sequent {
        universals: Terms::new(alloc),
        hyps: Terms::new(alloc),
        goal,
    })
}

#[test]
fn counts_conditions(rt: HostRuntime) -> Result<(), Fail> {
    let alloc = rt.alloc();
    let sequents = [sequent(alloc)?, sequent(alloc)?];
    let conditions = numbered(alloc, ":RESTRICTION-OF-CALL-", &sequents)?;
    match conditions.as_slice() {
        [first, second] => {
            assert_eq!(rt; first.name.text(), ":RESTRICTION-OF-CALL-1");
            assert_eq!(rt; second.name.text(), ":RESTRICTION-OF-CALL-2");
        }
        _ => assert!(rt; false),
    }
    let further = numbered(alloc, ":OLDP-OF-CALL-", &sequents)?;
    assert_eq!(rt; further.len(), 2);
    Ok(())
}

#[test]
fn finds_what_depends_on_no_function_variable(rt: HostRuntime) -> Result<(), Fail> {
    let alloc = rt.alloc();
    let world = World::initial(alloc)?;
    let name = Symbol::new(alloc, "BINARY-APPEND")?;
    match first_order_definition(alloc, &world, &name) {
        Ok(definition) => assert!(rt; first_order_term(alloc, &world, &definition.body).is_ok()),
        Err(_) => assert!(rt; false),
    }
    Ok(())
}
