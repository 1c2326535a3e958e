//! The way back: a proof for each step of a reduction, from the proofs of the subgoals that it left.

ghost use Rattle.std.specs.Prelude.{◌≡◌, [], codes, reverse, IfOk, OnOk};
ghost use Rattle.terms.specs.Terms.{Var};
ghost use Rattle.kernel.specs.Sequents.{negation};
ghost use Rattle.reduction_proofs.specs.Reasons.{equated};
ghost use Rattle.reduction_proofs.specs.Derived.{from_nil};
ghost use Rattle.reduction_proofs.specs.Trees.{Hyp, Cases};
ghost use Rattle.reduction.specs.Finding.{of_two};
ghost use Rattle.reduction.specs.Hyps.{without};
ghost use Rattle.reduction_proofs.specs.WayBack as spec;

use crate::derived::{back, by_quote, equate, forth, from_nil, twice_not};
use crate::reasons::{equated, rewritten};
use crate::trees::{cases, contradict, cut, hyp, implies_in, refl};
use lisp_data::{Memory, Symbol};
use proof_objects::Proof;
use reduction::{At, Closing, Made, Move, Subgoal, negation, occurs, of_two, quoted_nil, without};
use std::alloc::Global;
use terms::{Term, Terms};
use worlds::World;

/// `(equal a a)`
fn by_same(alloc: Global, goal: &Term) -> Result<Proof, Memory>
    ensures { IfOk result (λ it. it ≡ spec.by_same goal.now (of_two (codes "EQUAL") goal.now)) }
{
    match of_two(goal, "EQUAL") {
        None => hyp(alloc, goal),
        Some((side, _)) => refl(alloc, side),
    }
}

/// Why a subgoal holds.
fn closed_by(alloc: Global, closing: &Closing, goal: &Term) -> Result<Proof, Memory>
    ensures { IfOk result (λ it. it ≡ spec.closed_by closing.now goal.now) }
{
    match closing {
        Closing::ByQuote => by_quote(alloc, goal),
        Closing::ByHyp => hyp(alloc, goal),
        Closing::BySame => by_same(alloc, goal),
        Closing::ByNil => {
            let none = hyp(alloc, &quoted_nil(alloc)?)?;
            from_nil(alloc, none, goal)
        }
        Closing::ByBoth(term) => {
            let denial = negation(alloc, term.share()?)?;
            contradict(alloc, hyp(alloc, term)?, hyp(alloc, &denial)?, goal)
        }
    }
}

/// What a hypothesis becomes by what is found in it.
fn altered(alloc: Global, world: &World, hypothesis: &Term, at: &At) -> Result<Proof, Memory>
    ensures { IfOk result (λ it. it ≡ spec.altered world.now hypothesis.now at.now) }
{
    let eq = rewritten(alloc, world, hypothesis, at)?;
    let given = hyp(alloc, hypothesis)?;
    forth(alloc, eq, given)
}

/// Of `p`, which has hypotheses with another term for a variable: each in which it stands is proved from its own form.
#[tactic(auto, using(crate::proofs::Equations::hypotheses))]
fn put_hyps(
    alloc: Global,
    name: &Symbol,
    eq: &Proof,
    hyps: &Terms,
    p: Proof,
) -> Result<Proof, Memory>
    ensures { IfOk result (λ it. it ≡ spec.put_hyps name.now eq.now hyps.now p) }
{
    let hyps = hyps.as_slice();
    let mut all = p;
    for i in 0..hyps.len() {
        if !occurs(name, &hyps[i]) {
            continue;
        }
        let same = equate(alloc, name, eq, &hyps[i])?;
        let given = hyp(alloc, &hyps[i])?;
        let put = forth(alloc, same, given)?;
        all = cut(alloc, put, all)?;
    }
    Ok(all)
}

fn put_back(
    alloc: Global,
    name: &Symbol,
    eq: &Proof,
    hyps: &Terms,
    goal: &Term,
    p: Proof,
) -> Result<Proof, Memory>
    ensures { IfOk result (λ it. it ≡ spec.put_back name.now eq.now hyps.now goal.now p) }
{
    let same = equate(alloc, name, eq, goal)?;
    let p = back(alloc, same, goal, p)?;
    put_hyps(alloc, name, eq, hyps, p)
}

/// Of a proof under an equation on a variable, one without the variable's other term.
fn put_from(
    alloc: Global,
    subgoal: &Subgoal,
    hypothesis: &Term,
    name: &Symbol,
    term: &Term,
    p: Proof,
) -> Result<Proof, Memory>
    ensures { IfOk result (λ it. it ≡ spec.put_back name.now (equated hypothesis.now (Var name.now) term.now) (without subgoal.now.hyps hypothesis.now) subgoal.now.goal p) }
{
    let variable = Term::var(alloc, name.share()?)?;
    let eq = equated(alloc, hypothesis, &variable, term)?;
    let others = without(alloc, &subgoal.hyps, hypothesis)?;
    put_back(alloc, name, &eq, &others, &subgoal.goal, p)
}

/// Of `'nil` under a term, the term's negation.
fn denied(alloc: Global, term: &Term, p: Proof) -> Result<Proof, Memory>
    ensures { IfOk result (λ it. it ≡ Cases term.now (from_nil p (negation term.now)) (Hyp (negation term.now))) }
{
    let denial = negation(alloc, term.share()?)?;
    let absurd = from_nil(alloc, p, &denial)?;
    let given = hyp(alloc, &denial)?;
    cases(alloc, term, absurd, given)
}

/// In place of the proofs of the subgoals that a step left, the proof before it. The first proof is on top.
#[tactic(auto, using(crate::proofs::Stacks::stacks))]
fn before(alloc: Global, world: &World, made: &Made, stack: &mut Vec<Proof>) -> Result<(), Memory>
    ensures { OnOk result (reverse stack.new.items ≡ spec.before world.now made.now.step made.now.subgoal (reverse stack.old.items)) }
{
    let Made { step, subgoal } = made;
    if let Move::Ends(closing) = step {
        stack.push(closed_by(alloc, closing, &subgoal.goal)?)?;
        return Ok(());
    }
    let Some(p) = stack.pop() else {
        return Ok(());
    };
    match step {
        Move::Ends(_) | Move::Drops(_) => stack.push(p)?,
        Move::Strips(_, to) => stack.push(cut(alloc, twice_not(alloc, to)?, p)?)?,
        Move::Alters(hyp, _, at) => stack.push(cut(alloc, altered(alloc, world, hyp, at)?, p)?)?,
        Move::Turns(_, at) => {
            let eq = rewritten(alloc, world, &subgoal.goal, at)?;
            stack.push(back(alloc, eq, &subgoal.goal, p)?)?;
        }
        Move::Assumes(hyp, _) => stack.push(implies_in(alloc, hyp, p)?)?,
        Move::Denies(hyp) => stack.push(denied(alloc, hyp, p)?)?,
        Move::Puts(hyp, name, term) => {
            stack.push(put_from(alloc, subgoal, hyp, name, term, p)?)?;
        }
        Move::Splits(test) => {
            if let Some(q) = stack.pop() {
                stack.push(cases(alloc, test, p, q)?)?;
            }
        }
    }
    Ok(())
}

/// Back over the steps, from the last to the first. The first proof is on top.
#[tactic(auto, using(crate::proofs::Stacks::stacks))]
pub(crate) fn proofs(alloc: Global, world: &World, made: &[Made]) -> Result<Vec<Proof>, Memory>
    ensures { IfOk result (λ stack. reverse stack.items ≡ spec.proofs world.now made.now []) }
{
    let mut stack = Vec::new(alloc);
    let mut i = made.len();
    'steps: while i > 0 {
        i -= 1;
        before(alloc, world, &made[i], &mut stack)?;
    }
    Ok(stack)
}
