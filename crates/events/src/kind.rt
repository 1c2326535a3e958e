//! What the handling of events asks of a kind of event.

ghost use Rattle.std.specs.Prelude.{◌≡◌, ◌++◌, [], Ok, IfOk, OnOk};
ghost use Rattle.plans.specs.Proving.{ProvesAll, AreClaimed, sequents};
ghost use Rattle.events.specs.Frames.{Frame};
ghost use Rattle.events.specs.Laws.{IsLawful};
ghost use Rattle.events.specs.Verdicts.{new_names};
ghost use Rattle.events.specs.view.Halts.{Says, clauses_seen, AreProper, repeats_seen, HasProperStatement};

use crate::clauses::Clauses;
use crate::halt::Halt;
use crate::redundancy::Repeats;
use kernel::Proved;
use lisp_data::Symbols;
use lists::{Memory, Text};
use plans::{Claims, Plan};
use std::alloc::Global;
use worlds::World;

/// A kind of event, as its frame says (docs/ARCHITECTURE.md, "To add an event").
pub trait Kind {
    /// The frame of an event of this kind.
    ghost frame: { Self → Frame };

    /// The forms in it are proper.
    ghost proper: { Self → Type 0 };

    /// A law of each event of this kind: its plans do what they claim.
    fn is_lawful(&self)
        ensures { IsLawful (frame self.now) };

    /// Writes its word and its name. Where there is no memory a part of it may be there.
    fn write_title(&self, out: &mut Text) -> Result<(), Memory>
        ensures { OnOk result (out.new ≡ out.old ++ (frame self.now).title) };

    /// Whether what it makes is shown behind its line, where the command asks for that.
    fn shows(&self) -> bool
        ensures { result ≡ (frame self.now).shows };

    /// Its new names, in order.
    fn names(&self, alloc: Global) -> Result<Symbols, Memory>
        ensures { IfOk result (λ names. names ≡ (frame self.now).names) };

    /// When it repeats an earlier event.
    fn repeats(&self) -> Repeats<'_>
        requires { proper self.now }
        ensures repeats { repeats_seen result ≡ (frame self.now).repeats }
        ensures proper { HasProperStatement result };

    /// How its conditions are proved.
    fn clauses(&self) -> Clauses<'_>
        requires { proper self.now }
        ensures clauses { clauses_seen result ≡ (frame self.now).clauses }
        ensures proper { AreProper result };

    /// What it makes and what has to be proved for it, where its names are new.
    fn plan(&self, alloc: Global, world: &World) -> Result<Plan, Halt>
        requires proper { proper self.now }
        requires names { new_names world.now [] (frame self.now).names ≡ Ok tt }
        ensures { Says (λ plan. plan) ((frame self.now).plan world.now) result };

    /// Proves what its plan claims, from proofs of the plan's conditions. It is never refused: only memory may be wanting.
    fn finish(
        &self,
        alloc: Global,
        world: &World,
        plan: &Plan,
        proved: &[Proved],
    ) -> Result<Claims, Memory>
        requires proper { proper self.now }
        requires names { new_names world.now [] (frame self.now).names ≡ Ok tt }
        requires plan { (frame self.now).plan world.now ≡ Ok plan.now }
        requires proved { ProvesAll world.now (sequents plan.now.conditions) proved.now }
        ensures { IfOk result (AreClaimed world.now plan.now) };
}
