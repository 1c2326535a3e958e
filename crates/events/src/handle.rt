//! The checks of an event in their order, whatever its kind, and what it makes.

ghost use Rattle.std.specs.Prelude.{◌≡◌, [], ◌∷◌, ◌++◌, ◌&&◌, codes, IfOk, None, Ok};
ghost use Rattle.lisp_data.specs.FormView.{form_of, IsProper};
ghost use Rattle.terms.specs.Sound.{add_event};
ghost use Rattle.events.specs.Laws.{IsSuited};
ghost use Rattle.events.specs.Lines.{event_text};
ghost use Rattle.events.specs.Shown.{plan_lines};
ghost use Rattle.events.specs.Verdicts.{new_names, proved, checked};
ghost use Rattle.events.specs.view.Halts.{Judges, ProvesPlan, Handles, clauses_seen, AreProper};

use crate::clauses::{Clauses, Ways, check_clauses, read_ways};
use crate::halt::Halt;
use crate::kind::Kind;
use crate::lines::{event_line, one_line};
use crate::names::check_names;
use crate::proving::{prove_all, with_further};
use crate::redundancy::is_redundant;
use crate::shown::push_shown;
use crate::steps::{Lines, StepAnswer};
use lisp_data::{Form, Memory, Symbols};
use plans::{Claims, Plan, ProvedList, install};
use reduction_proofs::{hints_fit, reductions_prove};
use std::alloc::Global;
use worlds::World;

/// The proofs of an event's conditions, and of what its plan claims.
pub struct EventProofs {
    /// In the world before the event: one for each condition, in order, and then those of the plan's claims there.
    pub before: ProvedList,
    /// In the world with the functions that the event makes: of the plan's claims there.
    pub after: ProvedList,
}

impl Drop for EventProofs {
    fn drop(self) {
        let EventProofs {
            before: _,
            after: _,
        } = self;
    }
}

/// What an accepted event makes by its plan: a world, in which it isn't kept yet, and its proofs.
pub(crate) struct Made {
    pub plan: Plan,
    pub world: World,
    pub proofs: EventProofs,
}

impl Drop for Made {
    fn drop(self) {
        let Made {
            plan: _,
            world: _,
            proofs: _,
        } = self;
    }
}

impl Made {
    /// Keeps the event in the world.
    fn keep(self, alloc: Global, form: &Form) -> Result<(World, EventProofs), Memory>
        requires { IsProper form.now }
        ensures world { IfOk result (λ kept. kept.0 ≡ add_event (form_of form.now) self.world) }
        ensures proofs { IfOk result (λ kept. kept.1 ≡ self.proofs) }
    {
        let Made {
            plan: _,
            world,
            proofs,
        } = self;
        let world = world.with_event(alloc, form.copy(alloc)?)?;
        Ok((world, proofs))
    }
}

/// The proofs of a plan: of its conditions, with those of what it claims.
fn with_claims(proved: ProvedList, claims: Claims) -> Result<EventProofs, Memory>
    ensures before { IfOk result (λ proofs. proofs.before ≡ proved ++ claims.before) }
    ensures after { IfOk result (λ proofs. proofs.after ≡ claims.after) }
{
    let (before, after) = claims.into_parts();
    let before = with_further(proved, before.as_slice())?;
    Ok(EventProofs { before, after })
}

/// Proves the conditions of a plan.
fn prove_conditions(
    alloc: Global,
    world: &World,
    plan: &Plan,
    clauses: &Clauses<'_>,
) -> Result<ProvedList, Halt>
    requires suited { IsSuited world.now plan.now }
    requires proper { AreProper clauses.now }
    ensures { ProvesPlan world.now (clauses_seen clauses.now) plan.now result }
{
    world.soundness();
    hints_fit();
    reductions_prove();
    let conditions = plan.conditions.as_slice();
    check_clauses(alloc, conditions, clauses)?;
    let ways = read_ways(alloc, world, clauses, conditions, Ways::new(alloc))?;
    let proved = prove_all(
        alloc,
        world,
        conditions,
        ways.as_slice(),
        ProvedList::new(alloc),
    )?;
    Ok(proved)
}

/// Proves the conditions of an event's plan, has the event prove from them what the plan claims, and makes what it plans.
fn carry_out<K: Kind>(alloc: Global, world: &World, event: &K, plan: Plan) -> Result<Made, Halt>
    requires suited { IsSuited world.now plan }
    requires proper { K.proper event.now }
    requires names { new_names world.now [] (K.frame event.now).names ≡ Ok tt }
    requires plan { (K.frame event.now).plan world.now ≡ Ok plan }
    ensures { Judges world.now (proved world.now (K.frame event.now).clauses plan) result }
{
    let proved = prove_conditions(alloc, world, &plan, &event.clauses())?;
    let claims = event.finish(alloc, world, &plan, proved.as_slice())?;
    let proofs = with_claims(proved, claims)?;
    let world = install(alloc, world.share()?, plan.entries.as_slice())?;
    Ok(Made {
        plan,
        world,
        proofs,
    })
}

/// Judges an event that wasn't accepted before: its new names, its own checks, and its conditions.
fn judge<K: Kind>(alloc: Global, world: &World, event: &K) -> Result<Made, Halt>
    requires { K.proper event.now }
    ensures { Judges world.now (checked world.now (K.frame event.now)) result }
{
    world.soundness();
    event.is_lawful();
    let names = event.names(alloc)?;
    check_names(alloc, world, Symbols::new(alloc), names.as_slice())?;
    let plan = event.plan(alloc, world)?;
    carry_out(alloc, world, event, plan)
}

/// The lines of an accepted event: its own, and those that show what its plan makes, where they are asked for.
fn accepted_lines<K: Kind>(
    alloc: Global,
    event: &K,
    show: bool,
    plan: &Plan,
) -> Result<Lines, Memory>
    ensures { IfOk result (λ lines. lines ≡ event_text (codes "ok ") (K.frame event.now) ∷ plan_lines (show && (K.frame event.now).shows) (Ok plan.now)) }
{
    let line = event_line(alloc, "ok ", event)?;
    let mut lines = one_line(alloc, line)?;
    push_shown(alloc, show && event.shows(), plan, &mut lines)?;
    Ok(lines)
}

/// Handles an event that prints nothing, from its redundancy on; a refusal has no line yet. An accepted event is kept in the world that it makes.
pub(crate) fn handle<K: Kind>(
    alloc: Global,
    world: &World,
    form: &Form,
    event: &K,
    show: bool,
) -> Result<StepAnswer, Halt>
    requires form { IsProper form.now }
    requires parts { K.proper event.now }
    requires silent { (K.frame event.now).prints ≡ None }
    ensures { Handles world.now (form_of form.now) (K.frame event.now) show result }
{
    if is_redundant(alloc, world, form, &event.repeats())? {
        let line = event_line(alloc, "redundant ", event)?;
        return Ok(StepAnswer::Redundant(one_line(alloc, line)?));
    }
    let made = judge(alloc, world, event)?;
    let lines = accepted_lines(alloc, event, show, &made.plan)?;
    let (next, proofs) = made.keep(alloc, form)?;
    Ok(StepAnswer::Accepted(next, lines, proofs))
}
