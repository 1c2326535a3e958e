//! The world with entries.

use super::*;
use lisp_data::{Symbol, Value};
use std::alloc::Global;
use std::test::Fail;
use terms::{Sequent, Term, Terms};
use worlds::World;

#[test]
fn installs_a_variable(rt: HostRuntime) -> Result<(), Fail> {
    let alloc = rt.alloc();
    let world = World::initial(alloc)?;
    let name = Symbol::new(alloc, "?F")?;
    if !world.is_free(&name) {
        return Err(Fail::from("taken"));
    }
    let mut plan = Plan::new(alloc);
    plan.entries.push(Entry::Variable(name.share()?, 1))?;
    let next = install(alloc, world, plan.entries.as_slice())?;
    assert_eq!(rt; next.arity(&name), Some(1));
    Ok(())
}

fn truth(alloc: Global) -> Result<Sequent, Fail> {
    let goal = Term::quote(alloc, Value::Int(1))?;
    Ok(Sequent {
        universals: Terms::new(alloc),
        hyps: Terms::new(alloc),
        goal,
    })
}

#[test]
fn leaves_a_theorem_out_of_the_functions(rt: HostRuntime) -> Result<(), Fail> {
    let alloc = rt.alloc();
    let world = World::initial(alloc)?;
    let variable = Symbol::new(alloc, "?F")?;
    if !world.is_free(&variable) {
        return Err(Fail::from("taken"));
    }
    let theorem = Symbol::new(alloc, "ONE")?;
    let mut plan = Plan::new(alloc);
    plan.entries
        .push(Entry::Theorem(theorem.share()?, truth(alloc)?))?;
    plan.entries.push(Entry::Variable(variable.share()?, 1))?;
    let next = install_functions(alloc, &world, plan.entries.as_slice())?;
    assert_eq!(rt; next.arity(&variable), Some(1));
    assert!(rt; next.find_theorem(&theorem).is_none());
    Ok(())
}
