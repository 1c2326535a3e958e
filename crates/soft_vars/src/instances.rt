//! The map that pairs give, by the instances that are recorded, and the instances of functions.

ghost use Rattle.std.specs.Prelude.{◌≡◌, [], ◌∷◌, ◌++◌, IfOk, OnOk, IsSome, IfSome};
ghost use Rattle.std.specs.Option.{option_map};
ghost use Rattle.terms.specs.Definitions.{find};
ghost use Rattle.terms.specs.Terms.{tms};
ghost use Rattle.terms.specs.Maps as maps;
ghost use Rattle.terms.specs.Instances as spec;
ghost use Rattle.soft_vars.specs.Answers.{Says};
ghost use Rattle.soft_vars.specs.Dependents as dependents;

use crate::errors::SoftError;
use crate::map::{NameMap, instantiate_term};
use crate::pairs::with_pairs;
use crate::walk::{dependence, has, variables_of};
use indexmap::IndexSet;
use lisp_data::{Memory, Symbol, Symbols};
use std::alloc::Global;
use terms::{Definition, FunPair, FunPairs, Node, Term, Terms};
use worlds::World;

#[cycle(calls)]
#[tactic(auto, using(crate::proofs::Calls::calls))]
fn add_calls_in(terms: &[Term], found: &mut IndexSet<Symbol>) -> Result<(), Memory>
    ensures { OnOk result (found.new.keys ≡ spec.with_calls_in (tms terms.now) found.old.keys) }
{
    for term in terms {
        add_calls(term, found)?;
    }
    Ok(())
}

/// Adds the names that the term calls, each once.
#[cycle(calls)]
#[tactic(auto, using(crate::proofs::Calls::calls))]
fn add_calls(term: &Term, found: &mut IndexSet<Symbol>) -> Result<(), Memory>
    ensures { OnOk result (found.new.keys ≡ spec.with_calls term.now found.old.keys) }
{
    match term.node() {
        Node::Var(_) => Ok(()),
        Node::Quote(_) => Ok(()),
        Node::Call(name, args) => {
            found.insert(name.share()?)?;
            add_calls_in(args.as_slice(), found)
        }
    }
}

/// Adds the pair where its variable is among these.
#[tactic(auto, using(crate::proofs::Owned::owned))]
fn add_pair(
    alloc: Global,
    variables: &Symbols,
    pair: &FunPair,
    pairs: &mut FunPairs,
) -> Result<(), Memory>
    ensures { OnOk result (pairs.new ≡ pairs.old ++ spec.restricted (pair.now ∷ []) variables.now) }
{
    if has(variables, &pair.variable) {
        pairs.push(pair.copy(alloc)?)?;
    }
    Ok(())
}

/// The pairs of these variables.
#[tactic(auto, using(crate::proofs::Owned::owned))]
fn restricted(alloc: Global, pairs: &FunPairs, variables: &Symbols) -> Result<FunPairs, Memory>
    ensures { IfOk result (λ ps. ps ≡ spec.restricted pairs.now variables.now) }
{
    let mut own = FunPairs::new(alloc);
    for pair in pairs.as_slice() {
        add_pair(alloc, variables, pair, &mut own)?;
    }
    Ok(own)
}

/// The pairs of the variables on which the function depends.
fn own_pairs(
    alloc: Global,
    world: &World,
    pairs: &FunPairs,
    name: &Symbol,
) -> Result<FunPairs, Memory>
    ensures { IfOk result (λ ps. ps ≡ spec.own_pairs world.now pairs.now name.now) }
{
    let variables = dependence(alloc, world, name)?;
    restricted(alloc, pairs, &variables)
}

/// The pairs of the variables on which a function or a specification depends.
pub fn dependent_pairs(
    alloc: Global,
    world: &World,
    pairs: &FunPairs,
    name: &Symbol,
) -> Result<FunPairs, Memory>
    ensures { IfOk result (λ ps. ps ≡ spec.restricted pairs.now (dependents.variables_of world.now name.now)) }
{
    let variables = variables_of(alloc, world, name)?;
    restricted(alloc, pairs, &variables)
}

/// The map with what it needs for a function that it doesn't have.
#[tactic(auto, using(crate::proofs::Owned::owned))]
fn with_instance(
    alloc: Global,
    world: &World,
    pairs: &FunPairs,
    mut map: NameMap,
    name: &Symbol,
) -> Result<NameMap, SoftError>
    ensures { Says (λ m. m) (spec.with_instance world.now pairs.now map name.now) result }
{
    if map.find(name).is_some() {
        return Ok(map);
    }
    let own = own_pairs(alloc, world, pairs, name)?;
    if own.len() == 0 {
        return Ok(map);
    }
    let Some(instance) = world.find_instance(name, &own) else {
        return Err(SoftError::no_instance(name));
    };
    map.push(name.share()?, instance.share()?)?;
    Ok(map)
}

/// The map that begins so, with the pairs and with what it needs for the functions that are called.
fn map_from(
    alloc: Global,
    world: &World,
    begun: NameMap,
    pairs: &FunPairs,
    called: &IndexSet<Symbol>,
) -> Result<NameMap, SoftError>
    ensures { Says (λ m. m) (spec.map_from world.now begun pairs.now called.now.keys) result }
{
    let mut map = with_pairs(world, begun, pairs)?;
    for name in called.as_slice() {
        map = with_instance(alloc, world, pairs, map, name)?;
    }
    Ok(map)
}

/// The map that pairs of a function variable and a function give for some terms: each variable becomes its function,
/// and each function that depends on one of them its recorded instance (docs/MODEL.md, "Function variables and
/// instances").
pub fn instance_map(
    alloc: Global,
    world: &World,
    terms: &Terms,
    pairs: &FunPairs,
) -> Result<NameMap, SoftError>
    ensures { Says (λ m. m) (spec.instance_map world.now terms.now pairs.now) result }
{
    let mut called = IndexSet::new(alloc);
    add_calls_in(terms.as_slice(), &mut called)?;
    map_from(alloc, world, NameMap::new(alloc), pairs, &called)
}

fn add_calls_of_parts(definition: &Definition, found: &mut IndexSet<Symbol>) -> Result<(), Memory>
    ensures { OnOk result (found.new.keys ≡ spec.with_calls_in (tms (spec.parts definition.now)) found.old.keys) }
{
    add_calls(&definition.body, found)?;
    match &definition.measure {
        None => Ok(()),
        Some(measure) => add_calls(measure, found),
    }
}

fn instantiate_measure(
    alloc: Global,
    measure: &Option<Term>,
    map: &NameMap,
) -> Result<Option<Term>, Memory>
    ensures { IfOk result (λ m. m ≡ option_map (maps.rename map.now) measure.now) }
{
    match measure {
        None => Ok(None),
        Some(measure) => Ok(Some(instantiate_term(alloc, measure, map)?)),
    }
}

fn renamed(
    alloc: Global,
    definition: &Definition,
    map: &NameMap,
    name: &Symbol,
) -> Result<Definition, Memory>
    ensures { IfOk result (λ d. d ≡ maps.renamed map.now name.now definition.now) }
{
    Ok(Definition {
        name: name.share()?,
        formals: definition.formals.copy(alloc)?,
        body: instantiate_term(alloc, &definition.body, map)?,
        measure: instantiate_measure(alloc, &definition.measure, map)?,
    })
}

/// The instance of a function with a definition, under a new name: its body and its measure under the map that the
/// pairs give for both, in which the function itself becomes the new one (docs/MODEL.md, "Function variables and
/// instances").
pub fn instantiate_function(
    alloc: Global,
    world: &World,
    of: &Symbol,
    pairs: &FunPairs,
    name: &Symbol,
) -> Result<Definition, SoftError>
    requires { IsSome (find world.now.functions.defs of.now) }
    ensures { IfSome (find world.now.functions.defs of.now) (λ d. Says (λ i. i) (spec.function_instance world.now d pairs.now name.now) result) }
{
    let Some(definition) = world.find_definition(of) else {
        unreachable!()
    };
    let mut called = IndexSet::new(alloc);
    add_calls_of_parts(definition, &mut called)?;
    let mut begun = NameMap::new(alloc);
    begun.push(definition.name.share()?, name.share()?)?;
    let map = map_from(alloc, world, begun, pairs, &called)?;
    Ok(renamed(alloc, definition, &map, name)?)
}
