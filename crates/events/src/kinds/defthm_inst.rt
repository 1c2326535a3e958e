//! `defthm-inst`.

ghost use Rattle.event_forms.specs.ShapeView.{instance_seen, IsProperInstance};
ghost use Rattle.events.specs.DefthmInst as spec;
ghost use Rattle.events.specs.view.Halts.{Reads};

use crate::clauses::Clauses;
use crate::halt::Halt;
use crate::instances::{instance_map, read_pairs};
use crate::kind::Kind;
use crate::redundancy::Repeats;
use event_forms::InstanceParts;
use kernel::Proved;
use lisp_data::{Code, Symbol, Symbols};
use lists::{Memory, Text};
use plans::{Claims, Entry, Plan};
use sequents::{renamed, terms_of};
use std::alloc::Global;
use terms::{FunPairs, Sequent};
use worlds::World;

/// `(defthm-inst n (t (?v . h) ..) ..)`.
#[derive(Clone, Copy)]
pub struct DefthmInst<'a> {
    pub instance: InstanceParts<'a>,
}

/// What the theorem of this name states.
fn stated<'a>(world: &'a World, name: &Symbol) -> Result<&'a Sequent, Halt>
    ensures { Reads (λ s. s.now) (spec.stated world.now name.now) result }
{
    match world.find_theorem(name) {
        Some(sequent) => Ok(sequent),
        None => Err(Halt::named(Code::UnknownName, name)),
    }
}

/// The sequent under the map that the pairs give for it.
fn instance_by(
    alloc: Global,
    world: &World,
    pairs: &FunPairs,
    sequent: &Sequent,
) -> Result<Sequent, Halt>
    ensures { Reads (λ s. s) (spec.instance_by world.now pairs.now sequent.now) result }
{
    let terms = terms_of(alloc, sequent)?;
    let map = instance_map(alloc, world, &terms, pairs)?;
    let instance = renamed(alloc, sequent, &map)?;
    Ok(instance)
}

/// The instance by its parts.
fn theorem_instance(
    alloc: Global,
    world: &World,
    parts: &InstanceParts<'_>,
) -> Result<Sequent, Halt>
    requires { IsProperInstance parts.now }
    ensures { Reads (λ s. s) (spec.theorem_instance world.now (instance_seen parts.now)) result }
{
    let sequent = stated(world, parts.of)?;
    let pairs = read_pairs(alloc, parts.pairs)?;
    instance_by(alloc, world, &pairs, sequent)
}

impl Kind for DefthmInst<'_> {
    ghost frame = { λ e. spec.defthm_inst (instance_seen e.instance) };

    ghost proper = { λ e. IsProperInstance e.instance };

    fn is_lawful(&self) {
        instance_laws::instances_hold();
    }

    fn write_title(&self, out: &mut Text) -> Result<(), Memory> {
        out.extend(b"defthm-inst ")?;
        out.extend(self.instance.name.text().as_bytes())
    }

    fn names(&self, alloc: Global) -> Result<Symbols, Memory> {
        let mut names = Symbols::new(alloc);
        names.push(self.instance.name.share()?)?;
        Ok(names)
    }

    fn repeats(&self) -> Repeats<'_> {
        Repeats::AsForm
    }

    fn clauses(&self) -> Clauses<'_> {
        Clauses::NoClauses
    }

    fn plan(&self, alloc: Global, world: &World) -> Result<Plan, Halt> {
        let sequent = theorem_instance(alloc, world, &self.instance)?;
        let mut plan = Plan::new(alloc);
        plan.entries
            .push(Entry::Theorem(self.instance.name.share()?, sequent))?;
        Ok(plan)
    }

    fn finish(
        &self,
        alloc: Global,
        _world: &World,
        _plan: &Plan,
        _proved: &[Proved],
    ) -> Result<Claims, Memory> {
        Ok(Claims::new(alloc))
    }

    fn shows(&self) -> bool {
        true
    }
}
