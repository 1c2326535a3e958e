//! The proofs of what a restriction's plan claims, from proofs of its conditions.

ghost use Rattle.std.specs.Prelude.{◌≡◌, ℕ, true, [], map, length, slice_get, All, IfOk, Some, Ok};
ghost use Rattle.lisp_data.specs.ValueView.{val_of};
ghost use Rattle.measures.specs.Calls.{call_of};
ghost use Rattle.terms.specs.Later.{IsLater};
ghost use Rattle.terms.specs.Links.{alone as Alone};
ghost use Rattle.terms.specs.Measures.{recursive_calls};
ghost use Rattle.terms.specs.declared.sequent.Sequent.{Sequent as SequentInSpecs};
ghost use Rattle.plans.specs.Proving.{AreClaimed, ProvesAll, proves as Proves, sequents};
ghost use Rattle.proof_builders.specs.Schemes.{with_scheme};
ghost use Rattle.reduction_proofs.specs.Proving.{ProvesCondition};
ghost use Rattle.reduction_proofs.specs.Trees.{Owed};
ghost use Rattle.restrict_tool.specs.Laws.{HasBoth};
ghost use Rattle.restrict_tool.specs.Parts.{Agrees};
ghost use Rattle.restrict_tool.specs.Proofs.{hypotheses as Hypotheses, agreement as Agreement, agreements as Agreements, same_bodies as SameBodies};
ghost use Rattle.restrict_tool.specs.Restrictions as spec;
ghost use Rattle.restrict_tool.specs.view.Requests.{request_seen};
ghost use Rattle.tool_parts.specs.Counted.{IsCounted};

use crate::formulas::{new_body, same_where};
use crate::laws::{bodies_are_alike, calls_agree, restriction_owes, unfolding_proves};
use crate::parts::{Parts, parts_of};
use crate::planning::Request;
use crate::trees::{agreement, by_hypothesis, hypotheses, same_bodies, theorem_at_calls, unfolded};
use hint_prover::{checked, owed};
use kernel::Proved;
use lisp_data::Memory;
use measures::RecursiveCall;
use plans::{Claims, Plan, ProvedList, install_functions, proved_conditions_hold};
use proof_builders::{body_congruence, induct_on_calls};
use std::alloc::Global;
use terms::{Definition, Sequent, Term, Terms};
use tool_parts::{alone, calls_of};
use worlds::World;

/// Proofs of what the new function owes: each is the same of what the old one owes.
#[tactic(auto, using(tool_parts::proofs::Proving::proving))]
fn owing(
    alloc: Global,
    world: &World,
    definition: &Definition,
    sequents: &[Sequent],
) -> Result<ProvedList, Memory>
    requires { (k : ℕ) (s : SequentInSpecs) → slice_get sequents.now k ≡ Some s → ProvesCondition world.now s (Owed definition.now.name k) }
    ensures { IfOk result (λ proofs. ProvesAll world.now sequents.now proofs) }
{
    let mut proofs = ProvedList::new(alloc);
    for (i, sequent) in sequents.iter().enumerate() {
        let Ok(number) = u32::try_from(i) else {
            return Err(Memory);
        };
        let proof = owed(alloc, &definition.name, number)?;
        proofs.push(checked(alloc, world, sequent, &proof)?)?;
    }
    Ok(proofs)
}

/// That the functions agree at a recursive call, from a proof that its arguments meet the restriction.
#[tactic(auto, using(crate::proofs::Agreeing::agreeing))]
fn agreement_at(
    alloc: Global,
    parts: &Parts<'_>,
    next: &World,
    hypotheses: &Terms,
    call: &RecursiveCall,
    met: &Proved,
) -> Result<Proved, Memory>
    requires counted { IsCounted parts.now.definition.now }
    requires hypotheses { hypotheses.now ≡ Hypotheses parts.now.definition.now parts.now.function.now parts.now.restriction.now }
    requires lengths { length parts.now.definition.now.formals ≡ length call.now.args }
    requires agrees { Agrees next.now parts.now.definition.now parts.now.function.now parts.now.restriction.now (call_of call.now) }
    requires later { IsLater met.now.world next.now }
    requires met { Proves met.now.sequent (spec.stays_restricted parts.now.definition.now parts.now.restriction.now (call_of call.now)) ≡ true }
    ensures world { IfOk result (λ it. it.world ≡ next.now) }
    ensures proves { IfOk result (λ it. Proves it.sequent (Agreement parts.now.definition.now parts.now.function.now parts.now.restriction.now (call_of call.now)) ≡ true) }
{
    let met = met.later(next)?;
    let _sequent = met.sequent();
    let condition = agreement(alloc, parts, hypotheses, call)?;
    let tree = by_hypothesis(alloc, parts, call, met.proof().share()?)?;
    checked(alloc, next, &condition, &tree)
}

/// That the functions agree at each recursive call, from the proofs of the conditions.
#[tactic(auto, using(tool_parts::proofs::Proving::proving))]
fn agreements(
    alloc: Global,
    parts: &Parts<'_>,
    next: &World,
    calls: &[RecursiveCall],
    proved: &[Proved],
) -> Result<ProvedList, Memory>
    requires counted { IsCounted parts.now.definition.now }
    requires both { HasBoth next.now parts.now.definition.now parts.now.function.now parts.now.restriction.now (val_of parts.now.undefined.now) }
    requires calls { map call_of calls.now ≡ recursive_calls parts.now.definition.now.name [] parts.now.definition.now.body }
    requires lengths { All (λ c. length parts.now.definition.now.formals ≡ length c.args) calls.now }
    requires later { IsLater parts.now.world.now next.now }
    requires proved { ProvesAll parts.now.world.now (map (spec.stays_restricted parts.now.definition.now parts.now.restriction.now) (map call_of calls.now)) proved.now }
    ensures { IfOk result (λ proofs. ProvesAll next.now (Agreements parts.now.definition.now parts.now.function.now parts.now.restriction.now) proofs) }
{
    next.soundness();
    calls_agree();
    let hypotheses = hypotheses(alloc, parts)?;
    let mut proofs = ProvedList::new(alloc);
    for (i, call) in calls.iter().enumerate() {
        let met = &proved[i];
        proofs.push(agreement_at(alloc, parts, next, &hypotheses, call, met)?)?;
    }
    Ok(proofs)
}

/// That the bodies are the same, from that the functions agree at the recursive calls.
fn bodies(
    alloc: Global,
    parts: &Parts<'_>,
    next: &World,
    agreements: &[Proved],
) -> Result<Proved, Memory>
    requires counted { IsCounted parts.now.definition.now }
    requires both { HasBoth next.now parts.now.definition.now parts.now.function.now parts.now.restriction.now (val_of parts.now.undefined.now) }
    requires agreements { ProvesAll next.now (Agreements parts.now.definition.now parts.now.function.now parts.now.restriction.now) agreements.now }
    ensures world { IfOk result (λ it. it.world ≡ next.now) }
    ensures proves { IfOk result (λ it. Proves it.sequent (SameBodies parts.now.definition.now parts.now.function.now parts.now.restriction.now) ≡ true) }
{
    next.soundness();
    bodies_are_alike();
    let definition = parts.definition;
    let new = new_body(alloc, definition, parts.function)?;
    let condition = same_bodies(alloc, parts, &new)?;
    body_congruence(
        alloc,
        next,
        &definition.name,
        &condition,
        &definition.body,
        &new,
        agreements,
    )
}

/// The theorem, where it is true at the recursive calls, from that the bodies are the same.
#[tactic(auto, using(crate::proofs::Agreeing::agreeing))]
fn step(
    alloc: Global,
    parts: &Parts<'_>,
    next: &World,
    theorem: &Term,
    bodies: &Proved,
) -> Result<Proved, Memory>
    requires counted { IsCounted parts.now.definition.now }
    requires both { HasBoth next.now parts.now.definition.now parts.now.function.now parts.now.restriction.now (val_of parts.now.undefined.now) }
    requires theorem { theorem.now ≡ spec.same_where parts.now.definition.now parts.now.function.now parts.now.restriction.now }
    requires world { bodies.now.world ≡ next.now }
    requires bodies { Proves bodies.now.sequent (SameBodies parts.now.definition.now parts.now.function.now parts.now.restriction.now) ≡ true }
    ensures world { IfOk result (λ it. it.world ≡ next.now) }
    ensures proves { IfOk result (λ it. Proves it.sequent (with_scheme parts.now.definition.now (Alone theorem.now)) ≡ true) }
{
    next.soundness();
    unfolding_proves();
    let _sequent = bodies.sequent();
    let condition = Sequent {
        universals: Terms::new(alloc),
        hyps: theorem_at_calls(alloc, parts)?,
        goal: theorem.share()?,
    };
    let tree = unfolded(alloc, parts, bodies.proof().share()?)?;
    checked(alloc, next, &condition, &tree)
}

/// The theorem, by induction on the calls of the old function.
fn theorem(
    alloc: Global,
    parts: &Parts<'_>,
    next: &World,
    proved: &[Proved],
) -> Result<Proved, Memory>
    requires counted { IsCounted parts.now.definition.now }
    requires both { HasBoth next.now parts.now.definition.now parts.now.function.now parts.now.restriction.now (val_of parts.now.undefined.now) }
    requires later { IsLater parts.now.world.now next.now }
    requires proved { ProvesAll parts.now.world.now (map (spec.stays_restricted parts.now.definition.now parts.now.restriction.now) (recursive_calls parts.now.definition.now.name [] parts.now.definition.now.body)) proved.now }
    ensures world { IfOk result (λ it. it.world ≡ next.now) }
    ensures proves { IfOk result (λ it. Proves it.sequent (Alone (spec.same_where parts.now.definition.now parts.now.function.now parts.now.restriction.now)) ≡ true) }
{
    let definition = parts.definition;
    let calls = calls_of(alloc, definition)?;
    let agreements = agreements(alloc, parts, next, calls.as_slice(), proved)?;
    let bodies = bodies(alloc, parts, next, agreements.as_slice())?;
    let goal = same_where(alloc, definition, parts.function, parts.restriction)?;
    let step = step(alloc, parts, next, &goal, &bodies)?;
    induct_on_calls(alloc, next, definition, &alone(alloc, goal), &step)
}

/// Proves what the plan claims: what the new function owes, in the world before it, and the theorem, in the world with
/// it (docs/TRANSFORMATIONS.md, "restrict"). It is never refused.
pub fn finish(
    alloc: Global,
    world: &World,
    request: &Request<'_>,
    plan: &Plan,
    proved: &[Proved],
) -> Result<Claims, Memory>
    requires new { spec.AreNew world.now (request_seen request.now) }
    requires plan { spec.plan_of world.now (request_seen request.now) ≡ Ok plan.now }
    requires proved { ProvesAll world.now (sequents plan.now.conditions) proved.now }
    ensures { IfOk result (λ claims. AreClaimed world.now plan.now claims) }
{
    world.soundness();
    restriction_owes();
    proved_conditions_hold();
    let parts = parts_of(world, request, plan);
    let next = install_functions(alloc, world, plan.entries.as_slice())?;
    let before = owing(alloc, world, parts.definition, plan.before.as_slice())?;
    let mut after = ProvedList::new(alloc);
    after.push(theorem(alloc, &parts, &next, proved)?)?;
    Ok(Claims { before, after })
}
