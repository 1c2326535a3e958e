//! The world with what a plan makes.

ghost use Rattle.std.specs.Prelude.{◌≡◌, true, IfOk, IsErrOf, Ok};
ghost use Rattle.terms.specs.Instances.{IsRecorded};
ghost use Rattle.terms.specs.Links.{IsFirstOrder, IsLinked};
ghost use Rattle.terms.specs.Sound.{AllHold, add_iso, add_link, add_theorem, instance_of, add_instance, iso_conditions};
ghost use Rattle.worlds.specs.Names.{is_free};
ghost use Rattle.plans.specs.Entries.{Admits, AdmitsAll, AdmitsFunction, AdmitsFunctions, IsNewTheorem, add_entry, add_entries, add_function, add_functions};

use crate::plan::Entry;
use lisp_data::{Memory, Symbol};
use std::alloc::Global;
use terms::{FunPairs, Iso, Link, Sequent};
use worlds::{World, WorldError};

/// A larger world, whose new name is free.
fn grown(world: Result<World, WorldError>) -> Result<World, Memory>
    requires { IsErrOf world WorldError.NameTaken → ⊥ }
    ensures { IfOk result (λ next. world ≡ Ok next) }
{
    match world {
        Ok(world) => Ok(world),
        Err(error) => match error {
            WorldError::NameTaken => unreachable!(),
            WorldError::Memory => Err(Memory),
        },
    }
}

fn with_new_theorem(
    alloc: Global,
    world: &World,
    name: &Symbol,
    sequent: &Sequent,
) -> Result<World, Memory>
    requires free { is_free world.now name.now ≡ true }
    requires new { IsNewTheorem world.now sequent.now }
    ensures { IfOk result (λ next. next ≡ add_theorem name.now sequent.now world.now) }
{
    let name = name.share()?;
    let sequent = sequent.copy(alloc)?;
    grown(world.with_theorem(alloc, name, sequent))
}

fn with_new_iso(alloc: Global, world: &World, iso: &Iso) -> Result<World, Memory>
    requires free { is_free world.now iso.now.name ≡ true }
    requires hold { AllHold world.now.functions (iso_conditions iso.now) }
    requires first_order { IsFirstOrder world.now iso.now }
    ensures { IfOk result (λ next. next ≡ add_iso iso.now world.now) }
{
    let iso = iso.copy(alloc)?;
    grown(world.with_iso(alloc, iso))
}

fn with_new_instance(
    alloc: Global,
    world: &World,
    of: &Symbol,
    pairs: &FunPairs,
    instance: &Symbol,
) -> Result<World, Memory>
    requires { IsRecorded world.now (instance_of of.now pairs.now instance.now) }
    ensures { IfOk result (λ next. next ≡ add_instance of.now pairs.now instance.now world.now) }
{
    let of = of.share()?;
    let pairs = pairs.copy(alloc)?;
    let instance = instance.share()?;
    world.with_instance(alloc, of, pairs, instance)
}

fn with_new_link(
    alloc: Global,
    world: &World,
    theorem: &Symbol,
    link: &Link,
) -> Result<World, Memory>
    requires { IsLinked world.now theorem.now link.now }
    ensures { IfOk result (λ next. next ≡ add_link theorem.now link.now world.now) }
{
    let theorem = theorem.share()?;
    let link = link.copy(alloc)?;
    world.with_link(alloc, theorem, link)
}

/// The world with one more entry.
fn with_entry(alloc: Global, world: &World, entry: &Entry) -> Result<World, Memory>
    requires { Admits world.now entry.now }
    ensures { IfOk result (λ next. next ≡ add_entry entry.now world.now) }
{
    match entry {
        Entry::Function(definition) => {
            grown(world.with_function(alloc, definition.copy(alloc)?))
        }
        Entry::Variable(name, arity) => grown(world.with_variable(alloc, name.share()?, *arity)),
        Entry::Theorem(name, sequent) => with_new_theorem(alloc, world, name, sequent),
        Entry::Spec(specification) => grown(world.with_spec(alloc, specification.copy(alloc)?)),
        Entry::Isomorphism(iso) => with_new_iso(alloc, world, iso),
        Entry::Instance(of, pairs, instance) => {
            with_new_instance(alloc, world, of, pairs, instance)
        }
        Entry::Chained(theorem, link) => with_new_link(alloc, world, theorem, link),
    }
}

/// The world with entries, added one after the other.
pub fn install(alloc: Global, world: World, entries: &[Entry]) -> Result<World, Memory>
    requires { AdmitsAll world entries.now }
    ensures { IfOk result (λ next. next ≡ add_entries entries.now world) }
{
    match entries {
        [] => Ok(world),
        [first, rest @ ..] => {
            let next = with_entry(alloc, &world, first)?;
            install(alloc, next, rest)
        }
    }
}

/// The world with the entry, if it is a function, a function variable or a specification.
fn with_function(alloc: Global, world: &World, entry: &Entry) -> Result<World, Memory>
    requires { AdmitsFunction world.now entry.now }
    ensures { IfOk result (λ next. next ≡ add_function entry.now world.now) }
{
    match entry {
        Entry::Function(definition) => {
            grown(world.with_function(alloc, definition.copy(alloc)?))
        }
        Entry::Variable(name, arity) => grown(world.with_variable(alloc, name.share()?, *arity)),
        Entry::Theorem(_, _) => world.share(),
        Entry::Spec(specification) => grown(world.with_spec(alloc, specification.copy(alloc)?)),
        Entry::Isomorphism(_) => world.share(),
        Entry::Instance(_, _, _) => world.share(),
        Entry::Chained(_, _) => world.share(),
    }
}

/// The world with the functions, function variables and specifications among the entries, added one after the other. An event proves there what
/// it claims of them (docs/ARCHITECTURE.md, "How an event flows").
pub fn install_functions(alloc: Global, world: &World, entries: &[Entry]) -> Result<World, Memory>
    requires { AdmitsFunctions world.now entries.now }
    ensures { IfOk result (λ next. next ≡ add_functions entries.now world.now) }
{
    match entries {
        [] => world.share(),
        [first, rest @ ..] => {
            let next = with_function(alloc, world, first)?;
            install_functions(alloc, &next, rest)
        }
    }
}
