//! `defun-inst`.

ghost use Rattle.std.specs.Prelude.{◌≡◌, Some, IfOk};
ghost use Rattle.terms.specs.Definitions.{find};
ghost use Rattle.terms.specs.Instances.{restricted};
ghost use Rattle.terms.specs.Pairs.{is_known};
ghost use Rattle.soft_vars.specs.Dependents.{variables_of};
ghost use Rattle.event_forms.specs.ShapeView.{instance_seen, IsProperInstance};
ghost use Rattle.events.specs.DefunInst as spec;
ghost use Rattle.events.specs.view.Halts.{IsRefusal, Reads};
ghost use Rattle.events.specs.view.Origins.{origin_seen, IsFound};

use crate::clauses::Clauses;
use crate::halt::Halt;
use crate::instances::{function_instance, instance_map, read_pairs};
use crate::kind::Kind;
use crate::redundancy::Repeats;
use event_forms::InstanceParts;
use kernel::Proved;
use lisp_data::{Code, Symbol, Symbols};
use lists::{Memory, Text};
use plans::{Claims, Entries, Entry, Plan};
use sequents::only;
use soft_vars::{NameMap, dependent_pairs, instantiate_term};
use std::alloc::Global;
use terms::{Definition, FunPairs, Specification, Terms};
use worlds::World;

/// `(defun-inst f (g (?v . h) ..) ..)`.
#[derive(Clone, Copy)]
pub struct DefunInst<'a> {
    pub instance: InstanceParts<'a>,
}

/// What an instance is made of.
#[derive(Clone, Copy)]
enum Origin<'a> {
    Function(&'a Definition),
    Specification(&'a Specification),
}

/// Whether the name stands for something in the world.
#[tactic(auto, using(soft_vars::proofs::Known::known))]
fn is_known(world: &World, name: &Symbol) -> bool
    ensures { result ≡ is_known world.now name.now }
{
    world.named(name).is_some()
}

/// Refuses a name that is neither a function's with a definition nor a specification's.
fn no_origin(world: &World, name: &Symbol) -> Halt
    ensures { IsRefusal (spec.no_origin world.now name.now) result }
{
    if is_known(world, name) {
        Halt::named(Code::NotAFunction, name)
    } else {
        Halt::named(Code::UnknownName, name)
    }
}

/// What the name of an instance's origin stands for.
#[tactic(auto, using(crate::proofs::InstanceLemmas::origins))]
fn find_origin<'a>(world: &'a World, name: &Symbol) -> Result<Origin<'a>, Halt>
    ensures origin { Reads origin_seen (spec.origin world.now name.now) result }
    ensures found { IfOk result (IsFound world.now) }
{
    if let Some(definition) = world.find_definition(name) {
        return Ok(Origin::Function(definition));
    }
    match world.find_spec(name) {
        Some(specification) => Ok(Origin::Specification(specification)),
        None => Err(no_origin(world, name)),
    }
}

/// Refuses pairs where there are none, or one doesn't fit.
fn check_pairs(alloc: Global, world: &World, pairs: &FunPairs) -> Result<(), Halt>
    ensures { Reads (λ _. pairs.now) (spec.fitting_pairs world.now pairs.now) result }
{
    match pairs.as_slice() {
        [] => Err(Halt::bad_part(alloc, "pairs")),
        [_, ..] => {
            instance_map(alloc, world, &Terms::new(alloc), pairs)?;
            Ok(())
        }
    }
}

/// Of some pairs those that count: of the variables on which the origin depends, one at least.
fn some_own(alloc: Global, world: &World, of: &Symbol, pairs: &FunPairs) -> Result<FunPairs, Halt>
    ensures { Reads (λ own. own) (spec.some_own (restricted pairs.now (variables_of world.now of.now))) result }
{
    let own = dependent_pairs(alloc, world, pairs, of)?;
    match own.as_slice() {
        [] => Err(Halt::word(alloc, Code::ShapeMismatch, "function-variable")),
        [_, ..] => Ok(own),
    }
}

/// The pairs that count.
fn own_pairs(alloc: Global, world: &World, parts: &InstanceParts<'_>) -> Result<FunPairs, Halt>
    requires { IsProperInstance parts.now }
    ensures { Reads (λ own. own) (spec.own_pairs world.now (instance_seen parts.now)) result }
{
    let pairs = read_pairs(alloc, parts.pairs)?;
    check_pairs(alloc, world, &pairs)?;
    some_own(alloc, world, parts.of, &pairs)
}

/// The entries of a function's instance: it, and its record.
fn entries_with(
    alloc: Global,
    of: &Symbol,
    own: &FunPairs,
    instance: Definition,
) -> Result<Entries, Memory>
    ensures { IfOk result (λ es. es ≡ spec.function_entries of.now own.now instance) }
{
    let record = Entry::Instance(of.share()?, own.copy(alloc)?, instance.name.share()?);
    let mut entries = Entries::new(alloc);
    entries.push(Entry::Function(instance))?;
    entries.push(record)?;
    Ok(entries)
}

/// The instance of a function.
fn of_function(
    alloc: Global,
    world: &World,
    name: &Symbol,
    own: &FunPairs,
    definition: &Definition,
) -> Result<Entries, Halt>
    requires { find world.now.functions.defs definition.now.name ≡ Some definition.now }
    ensures { Reads (λ es. es) (spec.entries_of world.now name.now own.now (spec.OfFunction definition.now)) result }
{
    let instance = function_instance(alloc, world, definition, own, name)?;
    let entries = entries_with(alloc, &definition.name, own, instance)?;
    Ok(entries)
}

/// A specification under a map of names.
fn renamed(
    alloc: Global,
    name: &Symbol,
    origin: &Specification,
    map: &NameMap,
) -> Result<Entries, Memory>
    ensures { IfOk result (λ es. es ≡ spec.specification_entries name.now origin.now map.now) }
{
    let instance = Specification {
        name: name.share()?,
        variables: origin.variables.copy(alloc)?,
        matrix: instantiate_term(alloc, &origin.matrix, map)?,
    };
    let mut entries = Entries::new(alloc);
    entries.push(Entry::Spec(instance))?;
    Ok(entries)
}

/// The instance of a specification.
fn of_specification(
    alloc: Global,
    world: &World,
    name: &Symbol,
    own: &FunPairs,
    origin: &Specification,
) -> Result<Entries, Halt>
    ensures { Reads (λ es. es) (spec.entries_of world.now name.now own.now (spec.OfSpecification origin.now)) result }
{
    let terms = only(alloc, &origin.matrix)?;
    let map = instance_map(alloc, world, &terms, own)?;
    let entries = renamed(alloc, name, origin, &map)?;
    Ok(entries)
}

/// The instance of a new name, under the pairs that count.
fn entries_of(
    alloc: Global,
    world: &World,
    name: &Symbol,
    own: &FunPairs,
    origin: Origin<'_>,
) -> Result<Entries, Halt>
    requires { IsFound world.now origin }
    ensures { Reads (λ es. es) (spec.entries_of world.now name.now own.now (origin_seen origin.entry)) result }
{
    match origin {
        Origin::Function(definition) => of_function(alloc, world, name, own, definition),
        Origin::Specification(specification) => {
            of_specification(alloc, world, name, own, specification)
        }
    }
}

/// An instance by its parts.
fn instance_of(alloc: Global, world: &World, parts: &InstanceParts<'_>) -> Result<Entries, Halt>
    requires { IsProperInstance parts.now }
    ensures { Reads (λ es. es) (spec.instance_of world.now (instance_seen parts.now)) result }
{
    let origin = find_origin(world, parts.of)?;
    let own = own_pairs(alloc, world, parts)?;
    entries_of(alloc, world, parts.name, &own, origin)
}

impl Kind for DefunInst<'_> {
    ghost frame = { λ e. spec.defun_inst (instance_seen e.instance) };

    ghost proper = { λ e. IsProperInstance e.instance };

    fn is_lawful(&self) {
        instance_laws::instances_owe();
        instance_laws::instances_hold();
        instance_laws::worlds_grow_by_instances();
    }

    fn write_title(&self, out: &mut Text) -> Result<(), Memory> {
        out.extend(b"defun-inst ")?;
        out.extend(self.instance.name.text().as_bytes())
    }

    fn names(&self, alloc: Global) -> Result<Symbols, Memory> {
        let mut names = Symbols::new(alloc);
        names.push(self.instance.name.share()?)?;
        Ok(names)
    }

    fn repeats(&self) -> Repeats<'_> {
        Repeats::AsForm
    }

    fn clauses(&self) -> Clauses<'_> {
        Clauses::NoClauses
    }

    fn plan(&self, alloc: Global, world: &World) -> Result<Plan, Halt> {
        let mut plan = Plan::new(alloc);
        plan.entries = instance_of(alloc, world, &self.instance)?;
        Ok(plan)
    }

    fn finish(
        &self,
        alloc: Global,
        _world: &World,
        _plan: &Plan,
        _proved: &[Proved],
    ) -> Result<Claims, Memory> {
        Ok(Claims::new(alloc))
    }

    fn shows(&self) -> bool {
        true
    }
}
