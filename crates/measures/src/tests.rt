//! What no clause says: that each call succeeds where there is memory.

ghost use Rattle.std.specs.Prelude.{◌≡◌, IfOk};
ghost use Rattle.terms.specs.Terms.{Over};

use super::*;
use lisp_data::{Symbol, Symbols};
use std::alloc::Global;
use std::test::Fail;
use terms::{Definition, Term, Terms};

fn variable(alloc: Global, name: &str) -> Result<Term, Fail>
    ensures { IfOk result (Over (λ x. Unit {0}) (λ g k. k ≡ 1)) }
{
    let variable = Term::var(alloc, Symbol::new(alloc, name)?)?;
    Ok(variable)
}

/// A call on one argument.
fn call(alloc: Global, name: &str, arg: Term) -> Result<Term, Fail>
    requires { Over (λ x. Unit {0}) (λ g k. k ≡ 1) arg }
    ensures { IfOk result (Over (λ x. Unit {0}) (λ g k. k ≡ 1)) }
{
    let mut args = Terms::new(alloc);
    args.push(arg)?;
    let call = Term::call(alloc, Symbol::new(alloc, name)?, args)?;
    Ok(call)
}

#[test]
fn measures_a_function(rt: HostRuntime) -> Result<(), Fail> {
    let alloc = rt.alloc();
    let name = Symbol::new(alloc, "F")?;
    let mut formals = Symbols::new(alloc);
    formals.push(Symbol::new(alloc, "X")?)?;
    let rest = call(alloc, "CDR", variable(alloc, "X")?)?;
    let body = call(alloc, "CONSP", call(alloc, "F", rest)?)?;
    assert_eq!(rt; recursive_calls(alloc, &name, &body)?.len(), 1);
    let measure = default_measure(alloc, &name, &formals, &body)?;
    assert!(rt; measure.same(&call(alloc, "ACL2-COUNT", variable(alloc, "X")?)?));
    let definition = Definition {
        name,
        formals,
        body,
        measure: Some(measure),
    };
    assert_eq!(rt; obligations(alloc, &definition)?.len(), 2);
    assert!(rt; has_obligation(&definition, 1) && !has_obligation(&definition, 2));
    Ok(())
}
