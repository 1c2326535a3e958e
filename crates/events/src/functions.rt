//! The functions that events name.

ghost use Rattle.std.specs.Prelude.{◌≡◌};
ghost use Rattle.events.specs.Functions as spec;
ghost use Rattle.events.specs.view.Halts.{Reads};

use crate::halt::Halt;
use lisp_data::{Code, Symbol};
use soft_vars::variables_of;
use std::alloc::Global;
use worlds::World;

/// Whether a theorem, a specification or an isomorphism has the name.
fn is_other(world: &World, name: &Symbol) -> bool
    ensures { result ≡ spec.is_other world.now name.now }
{
    world.find_theorem(name).is_some()
        || world.find_spec(name).is_some()
        || world.find_iso(name).is_some()
}

/// How many arguments the function of this name takes.
fn arity_of(world: &World, name: &Symbol) -> Result<usize, Halt>
    ensures { Reads (λ k. k) (spec.arity_of world.now name.now) result }
{
    match world.arity(name) {
        Some(arity) => Ok(arity),
        None => {
            if is_other(world, name) {
                Err(Halt::named(Code::NotAFunction, name))
            } else {
                Err(Halt::named(Code::UnknownName, name))
            }
        }
    }
}

/// Refuses a function that doesn't take one argument.
fn check_arity(name: &Symbol, arity: usize) -> Result<(), Halt>
    ensures { Reads (λ x. x) (spec.takes_one name.now arity) result }
{
    if arity == 1 {
        Ok(())
    } else {
        Err(Halt::named(Code::WrongArity, name))
    }
}

/// Refuses the first of some function variables.
fn check_no_variables(variables: &[Symbol]) -> Result<(), Halt>
    ensures { Reads (λ x. x) (spec.no_variables variables.now) result }
{
    match variables {
        [] => Ok(()),
        [first, ..] => Err(Halt::named(Code::HasFunctionVariables, first)),
    }
}

/// Checks that a function of this name takes one argument and depends on no function variable.
pub(crate) fn check_unary(alloc: Global, world: &World, name: &Symbol) -> Result<(), Halt>
    ensures { Reads (λ x. x) (spec.unary world.now name.now) result }
{
    let arity = arity_of(world, name)?;
    check_arity(name, arity)?;
    let variables = variables_of(alloc, world, name)?;
    check_no_variables(variables.as_slice())
}
