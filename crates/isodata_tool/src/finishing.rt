//! The proofs of what the plan of a function on another representation claims, from proofs of its conditions.

ghost use Rattle.std.specs.Prelude.{◌≡◌, ℕ, true, [], map, length, slice_get, All, IfOk, IsOk, Some, Ok};
ghost use Rattle.measures.specs.Calls.{call_of};
ghost use Rattle.terms.specs.Later.{IsLater};
ghost use Rattle.terms.specs.Links.{alone as Alone};
ghost use Rattle.terms.specs.Measures.{recursive_calls};
ghost use Rattle.terms.specs.Substitution.{HasDistinctKeys};
ghost use Rattle.terms.specs.declared.sequent.Sequent.{Sequent as SequentInSpecs};
ghost use Rattle.plans.specs.Proving.{AreClaimed, ProvesAll, proves as Proves, sequents};
ghost use Rattle.proof_builders.specs.Schemes.{with_scheme};
ghost use Rattle.tool_parts.specs.Counted.{IsCounted};
ghost use Rattle.isodata_tool.specs.Carried as formulas;
ghost use Rattle.isodata_tool.specs.Isomorphic as spec;
ghost use Rattle.isodata_tool.specs.Laws.{Agrees, HasBoth, IsOwed};
ghost use Rattle.isodata_tool.specs.Parts.{AreParts, FallsBefore, theorems as TheoremsOf};
ghost use Rattle.isodata_tool.specs.Proofs.{backs, hypotheses as Hypotheses, agreement as Agreement, agreements as Agreements, same_bodies as SameBodies};
ghost use Rattle.isodata_tool.specs.view.Requests.{request_seen};

use crate::formulas::{called_body, new_to_old, old_to_new};
use crate::laws::{
    bodies_are_alike, calls_agree, isomorphic_owes, turning_proves, unfolding_proves,
};
use crate::maps::{Maps, mapped_formals};
use crate::parts::Parts;
use crate::planning::Request;
use crate::trees::{
    agreement, by_hypothesis, falls_there, hypotheses, natural_there, same_bodies,
    theorem_at_calls, turned_round, unfolded,
};
use hint_prover::checked;
use kernel::Proved;
use lisp_data::Memory;
use measures::RecursiveCall;
use plan_checks::PlanError;
use plans::{Claims, Plan, ProvedList, install_functions};
use proof_builders::{body_congruence, induct_on_calls};
use std::alloc::Global;
use terms::{Definition, Sequent, Term, Terms};
use tool_parts::{all_hold, alone, calls_of};
use worlds::World;

/// That the new measure falls at a recursive call, from the proof that the call stays in the old representation.
fn falls_at(
    alloc: Global,
    parts: &Parts<'_>,
    calls: &[RecursiveCall],
    proved: &[Proved],
    number: usize,
    sequent: &Sequent,
) -> Result<Proved, Memory>
    requires counted { IsCounted parts.now.definition.now }
    requires keys { HasDistinctKeys (backs parts.now.maps.now) }
    requires calls { map call_of calls.now ≡ recursive_calls parts.now.definition.now.name [] parts.now.definition.now.body }
    requires lengths { All (λ c. length parts.now.definition.now.formals ≡ length c.args) calls.now }
    requires proved { ProvesAll parts.now.world.now (map (formulas.stays_old parts.now.definition.now parts.now.maps.now) (map call_of calls.now)) proved.now }
    requires falls { FallsBefore parts.now.world.now parts.now.definition.now parts.now.maps.now number sequent.now }
    ensures world { IfOk result (λ it. it.world ≡ parts.now.world.now) }
    ensures proves { IfOk result (λ it. Proves it.sequent sequent.now ≡ true) }
{
    let Some(measure) = &parts.definition.measure else {
        unreachable!()
    };
    let Ok(place) = u32::try_from(number) else {
        return Err(Memory);
    };
    let call = &calls[number - 1];
    let stays = &proved[number - 1];
    let _sequent = stays.sequent();
    let tree = falls_there(alloc, parts, measure, place, call, stays.proof().share()?)?;
    checked(alloc, parts.world, sequent, &tree)
}

/// What the new function owes, by its number: that the measure is natural, and then that it falls at each recursive call.
fn owed_at(
    alloc: Global,
    parts: &Parts<'_>,
    calls: &[RecursiveCall],
    proved: &[Proved],
    number: usize,
    sequent: &Sequent,
) -> Result<Proved, Memory>
    requires counted { IsCounted parts.now.definition.now }
    requires keys { HasDistinctKeys (backs parts.now.maps.now) }
    requires calls { map call_of calls.now ≡ recursive_calls parts.now.definition.now.name [] parts.now.definition.now.body }
    requires lengths { All (λ c. length parts.now.definition.now.formals ≡ length c.args) calls.now }
    requires proved { ProvesAll parts.now.world.now (map (formulas.stays_old parts.now.definition.now parts.now.maps.now) (map call_of calls.now)) proved.now }
    requires owed { IsOwed parts.now.world.now parts.now.definition.now parts.now.maps.now number sequent.now }
    ensures world { IfOk result (λ it. it.world ≡ parts.now.world.now) }
    ensures proves { IfOk result (λ it. Proves it.sequent sequent.now ≡ true) }
{
    if number == 0 {
        let tree = natural_there(alloc, parts)?;
        return checked(alloc, parts.world, sequent, &tree);
    }
    falls_at(alloc, parts, calls, proved, number, sequent)
}

/// Proofs of what the new function owes.
#[tactic(auto, using(tool_parts::proofs::Proving::proving))]
fn owing(
    alloc: Global,
    parts: &Parts<'_>,
    calls: &[RecursiveCall],
    proved: &[Proved],
    sequents: &[Sequent],
) -> Result<ProvedList, Memory>
    requires counted { IsCounted parts.now.definition.now }
    requires keys { HasDistinctKeys (backs parts.now.maps.now) }
    requires calls { map call_of calls.now ≡ recursive_calls parts.now.definition.now.name [] parts.now.definition.now.body }
    requires lengths { All (λ c. length parts.now.definition.now.formals ≡ length c.args) calls.now }
    requires proved { ProvesAll parts.now.world.now (map (formulas.stays_old parts.now.definition.now parts.now.maps.now) (map call_of calls.now)) proved.now }
    requires owed { (k : ℕ) (s : SequentInSpecs) → slice_get sequents.now k ≡ Some s → IsOwed parts.now.world.now parts.now.definition.now parts.now.maps.now k s }
    ensures { IfOk result (λ proofs. ProvesAll parts.now.world.now sequents.now proofs) }
{
    let mut proofs = ProvedList::new(alloc);
    for (i, sequent) in sequents.iter().enumerate() {
        proofs.push(owed_at(alloc, parts, calls, proved, i, sequent)?)?;
    }
    Ok(proofs)
}

/// That the functions agree at a recursive call, from a proof that its arguments are in the old representation.
fn agreement_at(
    alloc: Global,
    parts: &Parts<'_>,
    next: &World,
    hypotheses: &Terms,
    call: &RecursiveCall,
    stays: &Proved,
) -> Result<Proved, Memory>
    requires counted { IsCounted parts.now.definition.now }
    requires hypotheses { hypotheses.now ≡ Hypotheses parts.now.definition.now parts.now.function.now parts.now.maps.now }
    requires lengths { length parts.now.definition.now.formals ≡ length call.now.args }
    requires agrees { Agrees next.now parts.now.definition.now parts.now.function.now parts.now.maps.now (call_of call.now) }
    requires later { IsLater stays.now.world next.now }
    requires stays { Proves stays.now.sequent (formulas.stays_old parts.now.definition.now parts.now.maps.now (call_of call.now)) ≡ true }
    ensures world { IfOk result (λ it. it.world ≡ next.now) }
    ensures proves { IfOk result (λ it. Proves it.sequent (Agreement parts.now.definition.now parts.now.function.now parts.now.maps.now (call_of call.now)) ≡ true) }
{
    let stays = stays.later(next)?;
    let _sequent = stays.sequent();
    let condition = agreement(alloc, parts, hypotheses, call)?;
    let tree = by_hypothesis(alloc, parts, call, stays.proof().share()?)?;
    checked(alloc, next, &condition, &tree)
}

/// That the functions agree at each recursive call, from the proofs of the conditions.
#[tactic(auto, using(tool_parts::proofs::Proving::proving))]
fn agreements(
    alloc: Global,
    parts: &Parts<'_>,
    next: &World,
    calls: &[RecursiveCall],
    proved: &[Proved],
) -> Result<ProvedList, Memory>
    requires counted { IsCounted parts.now.definition.now }
    requires both { HasBoth next.now parts.now.definition.now parts.now.function.now parts.now.maps.now }
    requires calls { map call_of calls.now ≡ recursive_calls parts.now.definition.now.name [] parts.now.definition.now.body }
    requires lengths { All (λ c. length parts.now.definition.now.formals ≡ length c.args) calls.now }
    requires later { IsLater parts.now.world.now next.now }
    requires proved { ProvesAll parts.now.world.now (map (formulas.stays_old parts.now.definition.now parts.now.maps.now) (map call_of calls.now)) proved.now }
    ensures { IfOk result (λ proofs. ProvesAll next.now (Agreements parts.now.definition.now parts.now.function.now parts.now.maps.now) proofs) }
{
    next.soundness();
    calls_agree();
    let hypotheses = hypotheses(alloc, parts)?;
    let mut proofs = ProvedList::new(alloc);
    for (i, call) in calls.iter().enumerate() {
        let stays = &proved[i];
        proofs.push(agreement_at(alloc, parts, next, &hypotheses, call, stays)?)?;
    }
    Ok(proofs)
}

/// That the bodies are the same, from that the functions agree at the recursive calls.
fn bodies(
    alloc: Global,
    parts: &Parts<'_>,
    next: &World,
    agreements: &[Proved],
) -> Result<Proved, Memory>
    requires counted { IsCounted parts.now.definition.now }
    requires both { HasBoth next.now parts.now.definition.now parts.now.function.now parts.now.maps.now }
    requires agreements { ProvesAll next.now (Agreements parts.now.definition.now parts.now.function.now parts.now.maps.now) agreements.now }
    ensures world { IfOk result (λ it. it.world ≡ next.now) }
    ensures proves { IfOk result (λ it. Proves it.sequent (SameBodies parts.now.definition.now parts.now.function.now parts.now.maps.now) ≡ true) }
{
    next.soundness();
    bodies_are_alike();
    let definition = parts.definition;
    let called = called_body(alloc, definition, parts.function, parts.maps)?;
    let condition = same_bodies(alloc, parts, &called)?;
    body_congruence(
        alloc,
        next,
        &definition.name,
        &condition,
        &definition.body,
        &called,
        agreements,
    )
}

/// The theorem from the old function to the new one, where it is true at the recursive calls, from that the bodies are
/// the same.
fn step(
    alloc: Global,
    parts: &Parts<'_>,
    next: &World,
    theorem: &Term,
    bodies: &Proved,
) -> Result<Proved, Memory>
    requires counted { IsCounted parts.now.definition.now }
    requires both { HasBoth next.now parts.now.definition.now parts.now.function.now parts.now.maps.now }
    requires theorem { theorem.now ≡ formulas.old_to_new parts.now.definition.now parts.now.function.now parts.now.maps.now }
    requires world { bodies.now.world ≡ next.now }
    requires bodies { Proves bodies.now.sequent (SameBodies parts.now.definition.now parts.now.function.now parts.now.maps.now) ≡ true }
    ensures world { IfOk result (λ it. it.world ≡ next.now) }
    ensures proves { IfOk result (λ it. Proves it.sequent (with_scheme parts.now.definition.now (Alone theorem.now)) ≡ true) }
{
    next.soundness();
    unfolding_proves();
    let _sequent = bodies.sequent();
    let condition = Sequent {
        universals: Terms::new(alloc),
        hyps: theorem_at_calls(alloc, parts)?,
        goal: theorem.share()?,
    };
    let tree = unfolded(alloc, parts, bodies.proof().share()?)?;
    checked(alloc, next, &condition, &tree)
}

/// The theorem from the old function to the new one, by induction on the calls of the old function.
fn to_new(
    alloc: Global,
    parts: &Parts<'_>,
    next: &World,
    calls: &[RecursiveCall],
    proved: &[Proved],
) -> Result<Proved, Memory>
    requires counted { IsCounted parts.now.definition.now }
    requires both { HasBoth next.now parts.now.definition.now parts.now.function.now parts.now.maps.now }
    requires calls { map call_of calls.now ≡ recursive_calls parts.now.definition.now.name [] parts.now.definition.now.body }
    requires lengths { All (λ c. length parts.now.definition.now.formals ≡ length c.args) calls.now }
    requires later { IsLater parts.now.world.now next.now }
    requires proved { ProvesAll parts.now.world.now (map (formulas.stays_old parts.now.definition.now parts.now.maps.now) (map call_of calls.now)) proved.now }
    ensures world { IfOk result (λ it. it.world ≡ next.now) }
    ensures proves { IfOk result (λ it. Proves it.sequent (Alone (formulas.old_to_new parts.now.definition.now parts.now.function.now parts.now.maps.now)) ≡ true) }
{
    let definition = parts.definition;
    let agreements = agreements(alloc, parts, next, calls, proved)?;
    let bodies = bodies(alloc, parts, next, agreements.as_slice())?;
    let goal = old_to_new(alloc, parts.world, definition, parts.function, parts.maps)?;
    let step = step(alloc, parts, next, &goal, &bodies)?;
    induct_on_calls(alloc, next, definition, &alone(alloc, goal), &step)
}

/// The theorem from the new function to the old one, from the other theorem.
fn to_old(alloc: Global, parts: &Parts<'_>, next: &World, to_new: &Proved) -> Result<Proved, Memory>
    requires keys { HasDistinctKeys (backs parts.now.maps.now) }
    requires both { HasBoth next.now parts.now.definition.now parts.now.function.now parts.now.maps.now }
    requires world { to_new.now.world ≡ next.now }
    requires proves { Proves to_new.now.sequent (Alone (formulas.old_to_new parts.now.definition.now parts.now.function.now parts.now.maps.now)) ≡ true }
    ensures world { IfOk result (λ it. it.world ≡ next.now) }
    ensures proves { IfOk result (λ it. Proves it.sequent (Alone (formulas.new_to_old parts.now.definition.now parts.now.function.now parts.now.maps.now)) ≡ true) }
{
    next.soundness();
    turning_proves();
    let _sequent = to_new.sequent();
    let goal = new_to_old(
        alloc,
        parts.world,
        parts.definition,
        parts.function,
        parts.maps,
    )?;
    let tree = turned_round(alloc, parts, to_new.proof().share()?)?;
    checked(alloc, next, &alone(alloc, goal), &tree)
}

/// The proofs of both theorems, in the world with the new function.
fn theorems(
    alloc: Global,
    parts: &Parts<'_>,
    next: &World,
    calls: &[RecursiveCall],
    proved: &[Proved],
) -> Result<ProvedList, Memory>
    requires counted { IsCounted parts.now.definition.now }
    requires keys { HasDistinctKeys (backs parts.now.maps.now) }
    requires both { HasBoth next.now parts.now.definition.now parts.now.function.now parts.now.maps.now }
    requires calls { map call_of calls.now ≡ recursive_calls parts.now.definition.now.name [] parts.now.definition.now.body }
    requires lengths { All (λ c. length parts.now.definition.now.formals ≡ length c.args) calls.now }
    requires later { IsLater parts.now.world.now next.now }
    requires proved { ProvesAll parts.now.world.now (map (formulas.stays_old parts.now.definition.now parts.now.maps.now) (map call_of calls.now)) proved.now }
    ensures { IfOk result (λ proofs. ProvesAll next.now (TheoremsOf parts.now.definition.now parts.now.function.now parts.now.maps.now) proofs) }
{
    let to_new = to_new(alloc, parts, next, calls, proved)?;
    let to_old = to_old(alloc, parts, next, &to_new)?;
    let mut proofs = ProvedList::new(alloc);
    proofs.push(to_old)?;
    proofs.push(to_new)?;
    Ok(proofs)
}

/// The mapped formals of a request for which there is a plan.
fn maps_of(
    alloc: Global,
    world: &World,
    request: &Request<'_>,
    definition: &Definition,
) -> Result<Maps, Memory>
    requires { IsOk (spec.mapped_formals world.now definition.now.formals [] request.now.maps.now) }
    ensures { IfOk result (λ ms. spec.mapped_formals world.now definition.now.formals [] request.now.maps.now ≡ Ok ms) }
{
    match mapped_formals(alloc, world, &definition.formals, request.maps) {
        Ok(maps) => Ok(maps),
        Err(error) => match error {
            PlanError::Refused { code: _, detail: _ } => unreachable!(),
            PlanError::Memory => Err(Memory),
        },
    }
}

/// The proofs of what is claimed for the parts of a plan.
fn claims(
    alloc: Global,
    parts: &Parts<'_>,
    request: &Request<'_>,
    plan: &Plan,
    proved: &[Proved],
) -> Result<Claims, Memory>
    requires new { spec.AreNew parts.now.world.now (request_seen request.now) }
    requires parts { AreParts parts.now.world.now (request_seen request.now) parts.now.definition.now parts.now.maps.now plan.now }
    requires function { parts.now.function.now ≡ request.now.function.now }
    requires proved { ProvesAll parts.now.world.now (sequents plan.now.conditions) proved.now }
    ensures { IfOk result (λ claims. AreClaimed parts.now.world.now plan.now claims) }
{
    let world = parts.world;
    world.soundness();
    isomorphic_owes();
    let calls = calls_of(alloc, parts.definition)?;
    let calls = calls.as_slice();
    let before = owing(alloc, parts, calls, proved, plan.before.as_slice())?;
    all_hold(world, plan.before.as_slice(), before.as_slice());
    let next = install_functions(alloc, world, plan.entries.as_slice())?;
    let after = theorems(alloc, parts, &next, calls, proved)?;
    Ok(Claims { before, after })
}

/// Proves what the plan claims: what the new function owes, in the world before it, and the theorems, in the world with
/// it (docs/TRANSFORMATIONS.md, "isodata"). It is never refused.
pub fn finish(
    alloc: Global,
    world: &World,
    request: &Request<'_>,
    plan: &Plan,
    proved: &[Proved],
) -> Result<Claims, Memory>
    requires new { spec.AreNew world.now (request_seen request.now) }
    requires plan { spec.plan_of world.now (request_seen request.now) ≡ Ok plan.now }
    requires proved { ProvesAll world.now (sequents plan.now.conditions) proved.now }
    ensures { IfOk result (λ claims. AreClaimed world.now plan.now claims) }
{
    world.soundness();
    let Some(definition) = world.find_definition(request.old) else {
        unreachable!()
    };
    let maps = maps_of(alloc, world, request, definition)?;
    let parts = Parts {
        world,
        definition,
        function: request.function,
        maps: maps.as_slice(),
    };
    claims(alloc, &parts, request, plan, proved)
}
