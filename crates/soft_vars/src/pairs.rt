//! Which functions can stand for which function variables.

ghost use Rattle.std.specs.Prelude.{◌≡◌};
ghost use Rattle.terms.specs.Pairs as spec;
ghost use Rattle.soft_vars.specs.Answers.{Says};

use crate::errors::SoftError;
use crate::map::NameMap;
use crate::walk::variable_arity;
use lisp_data::Symbol;
use terms::{FunPair, FunPairs};
use worlds::World;

/// Whether the name stands for something in the world.
#[tactic(auto, using(crate::proofs::Known::known))]
fn is_known(world: &World, name: &Symbol) -> bool
    ensures { result ≡ spec.is_known world.now name.now }
{
    world.named(name).is_some()
}

/// Checks that both names are known, and that the function takes as many arguments as the function variable.
fn check_pair(world: &World, pair: &FunPair) -> Result<(), SoftError>
    ensures { Says (λ _. tt) (spec.fitting_pair world.now pair.now) result }
{
    if !is_known(world, &pair.variable) {
        return Err(SoftError::unknown_name(&pair.variable));
    }
    if !is_known(world, &pair.function) {
        return Err(SoftError::unknown_name(&pair.function));
    }
    let Some(wanted) = variable_arity(world, &pair.variable) else {
        return Err(SoftError::wrong_kind(&pair.variable));
    };
    let Some(arity) = world.arity(&pair.function) else {
        return Err(SoftError::wrong_kind(&pair.function));
    };
    if wanted != arity {
        return Err(SoftError::wrong_arity(&pair.function));
    }
    Ok(())
}

fn with_pair(world: &World, mut map: NameMap, pair: &FunPair) -> Result<NameMap, SoftError>
    ensures { Says (λ m. m) (spec.with_pair world.now map pair.now) result }
{
    check_pair(world, pair)?;
    if map.find(&pair.variable).is_some() {
        return Err(SoftError::repeated(&pair.variable));
    }
    map.push(pair.variable.share()?, pair.function.share()?)?;
    Ok(map)
}

/// The map with further pairs, or the first thing that is wrong with the first wrong one.
pub(crate) fn with_pairs(
    world: &World,
    begun: NameMap,
    pairs: &FunPairs,
) -> Result<NameMap, SoftError>
    ensures { Says (λ m. m) (spec.with_pairs world.now begun pairs.now) result }
{
    let mut map = begun;
    for pair in pairs.as_slice() {
        map = with_pair(world, map, pair)?;
    }
    Ok(map)
}
