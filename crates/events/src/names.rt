//! The new names of events.

ghost use Rattle.std.specs.Prelude.{◌≡◌};
ghost use Rattle.terms.specs.Worlds.{is_in};
ghost use Rattle.events.specs.Definitions.{new_name};
ghost use Rattle.events.specs.view.Halts.{Reads};
ghost use Rattle.events.specs.Verdicts.{name_after, new_names};

use crate::halt::Halt;
use lisp_data::{Code, Symbol, Symbols};
use std::alloc::Global;
use term_forms::is_function_name;
use worlds::World;

/// Checks the name of a new function or theorem.
fn check_name(alloc: Global, world: &World, name: &Symbol) -> Result<(), Halt>
    ensures { Reads (λ x. x) (new_name world.now name.now) result }
{
    if !is_function_name(name) {
        return Err(Halt::bad_part(alloc, "name"));
    }
    if !world.is_free(name) {
        return Err(Halt::named(Code::NameTaken, name));
    }
    Ok(())
}

pub(crate) fn is_among(names: &[Symbol], name: &Symbol) -> bool
    ensures { result ≡ is_in names.now name.now }
{
    for other in names {
        if other.same(name) {
            return true;
        }
    }
    false
}

/// Checks a new name, after those that the event gave before it.
#[tactic(auto, unfolding(crate::specs::Verdicts::name_after))]
fn check_after(alloc: Global, world: &World, given: &[Symbol], name: &Symbol) -> Result<(), Halt>
    ensures { Reads (λ x. x) (name_after world.now given.now name.now) result }
{
    if is_among(given, name) {
        return Err(Halt::named(Code::NameTaken, name));
    }
    check_name(alloc, world, name)
}

/// Checks the new names of an event in order.
pub(crate) fn check_names(
    alloc: Global,
    world: &World,
    mut given: Symbols,
    names: &[Symbol],
) -> Result<(), Halt>
    ensures { Reads (λ x. x) (new_names world.now given names.now) result }
{
    match names {
        [] => Ok(()),
        [name, rest @ ..] => {
            check_after(alloc, world, given.as_slice(), name)?;
            given.push(name.share()?)?;
            check_names(alloc, world, given, rest)
        }
    }
}
