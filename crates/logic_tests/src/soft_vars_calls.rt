//! What no clause says: that calls succeed where there is memory.

use lisp_data::{Code, Symbol};
use soft_vars::{NameMap, SoftError, instance_map, instantiate_term, variables_in, variables_of};
use std::alloc::Global;
use std::test::Fail;
use terms::{FunPair, FunPairs, Term, Terms};
use worlds::World;

fn symbol(alloc: Global, name: &str) -> Result<Symbol, Fail> {
    let symbol = Symbol::new(alloc, name)?;
    Ok(symbol)
}

/// A call on a term.
fn call(alloc: Global, name: &str, arg: Term) -> Result<Term, Fail> {
    let mut args = Terms::new(alloc);
    args.push(arg)?;
    let call = Term::call(alloc, symbol(alloc, name)?, args)?;
    Ok(call)
}

fn call_on_x(alloc: Global, name: &str) -> Result<Term, Fail> {
    call(alloc, name, Term::var(alloc, symbol(alloc, "X")?)?)
}

fn pairs(alloc: Global, function: &str) -> Result<FunPairs, Fail> {
    let mut pairs = FunPairs::new(alloc);
    pairs.push(FunPair {
        variable: symbol(alloc, "?F")?,
        function: symbol(alloc, function)?,
    })?;
    Ok(pairs)
}

#[test]
fn finds_variables(rt: HostRuntime) -> Result<(), Fail> {
    let alloc = rt.alloc();
    let variable = symbol(alloc, "?F")?;
    let Ok(world) = World::initial(alloc)?.with_variable(alloc, variable.share()?, 1) else {
        return Ok(());
    };
    let mut terms = Terms::new(alloc);
    terms.push(call_on_x(alloc, "LEN")?)?;
    terms.push(call_on_x(alloc, "?F")?)?;
    terms.push(call_on_x(alloc, "?F")?)?;
    let found = variables_in(alloc, &world, &terms)?;
    assert!(rt; found.len() == 1 && found.as_slice()[0].same(&variable));
    assert_eq!(rt; variables_of(alloc, &world, &variable)?.len(), 1);
    let length = symbol(alloc, "LEN")?;
    assert_eq!(rt; variables_of(alloc, &world, &length)?.len(), 0);
    Ok(())
}

#[test]
fn renames_functions(rt: HostRuntime) -> Result<(), Fail> {
    let alloc = rt.alloc();
    let mut map = NameMap::new(alloc);
    map.push(symbol(alloc, "?F")?, symbol(alloc, "CAR")?)?;
    let map = map.copy(alloc)?;
    let term = instantiate_term(alloc, &call_on_x(alloc, "?F")?, &map)?;
    assert!(rt; term.same(&call_on_x(alloc, "CAR")?));
    Ok(())
}

#[test]
fn makes_maps(rt: HostRuntime) -> Result<(), Fail> {
    let alloc = rt.alloc();
    let world = World::initial(alloc)?;
    let Ok(world) = world.with_variable(alloc, symbol(alloc, "?F")?, 1) else {
        return Ok(());
    };
    let mut terms = Terms::new(alloc);
    terms.push(call_on_x(alloc, "?F")?)?;
    match instance_map(alloc, &world, &terms, &pairs(alloc, "CAR")?) {
        Ok(map) => assert_eq!(rt; map.len(), 1),
        Err(_) => assert!(rt; false),
    }
    match instance_map(alloc, &world, &terms, &pairs(alloc, "CONS")?) {
        Err(SoftError::Refused { code, detail: _ }) => assert_eq!(rt; code, Code::WrongArity),
        _ => assert!(rt; false),
    }
    Ok(())
}
