//! The kinds of steps, at a whole subgoal.

ghost use Rattle.std.specs.Prelude.{◌≡◌, IfOk};
ghost use Rattle.terms.specs.Terms.{tms};
ghost use Rattle.reduction.specs.Finding.{first};
ghost use Rattle.reduction.specs.Hyps.{has, quoted_nil};
ghost use Rattle.reduction.specs.Moves as spec;
ghost use Rattle.reduction.specs.Finds.{finds};

use crate::found::{At, Found};
use crate::hyps::{Others, has, has_call};
use crate::kinds::{Kind, Setting};
use crate::moves::{Closing, Move, Subgoal};
use crate::seek::seek;
use crate::shapes::{is_quoted_nil, is_true_quote, of_one, of_two};
use lisp_data::{Memory, Symbol};
use std::alloc::Global;
use terms::{Node, Term, put_at};

/// What a kind makes of a subgoal, where it applies.
pub(crate) type Step = Result<Option<Move>, Memory>;

/// Whether `'nil` is in the list.
fn has_quoted_nil(hyps: &[Term]) -> bool
    ensures { result ≡ has hyps.now quoted_nil }
{
    for hyp in hyps {
        if is_quoted_nil(hyp) {
            return true;
        }
    }
    false
}

fn is_same_twice(goal: &Term) -> bool
    ensures { result ≡ spec.is_same_twice goal.now }
{
    match of_two(goal, "EQUAL") {
        None => false,
        Some((left, right)) => left.same(right),
    }
}

/// A hypothesis whose negation is one too.
#[tactic(auto, using(crate::proofs::Firsts::firsts))]
fn both_in(hyps: &[Term]) -> Result<Option<Closing>, Memory>
    ensures { IfOk result (λ o. o ≡ first (spec.both_in hyps.now) hyps.now) }
{
    for hyp in hyps {
        if has_call(hyps, "NOT", hyp) {
            return Ok(Some(Closing::ByBoth(hyp.share()?)));
        }
    }
    Ok(None)
}

fn closing(subgoal: &Subgoal) -> Result<Option<Closing>, Memory>
    ensures { IfOk result (λ o. o ≡ spec.closing subgoal.now) }
{
    let hyps = subgoal.hyps.as_slice();
    let goal = &subgoal.goal;
    if is_true_quote(goal) {
        Ok(Some(Closing::ByQuote))
    } else if has(hyps, goal) {
        Ok(Some(Closing::ByHyp))
    } else if is_same_twice(goal) {
        Ok(Some(Closing::BySame))
    } else if has_quoted_nil(hyps) {
        Ok(Some(Closing::ByNil))
    } else {
        both_in(hyps)
    }
}

/// The subgoal holds by its hypotheses or its goal alone.
pub(crate) fn close(subgoal: &Subgoal) -> Step
    ensures { IfOk result (λ o. o ≡ spec.close subgoal.now) }
{
    match closing(subgoal)? {
        None => Ok(None),
        Some(closing) => Ok(Some(Move::Ends(closing))),
    }
}

fn tidied(hyp: &Term) -> Step
    ensures { IfOk result (λ o. o ≡ spec.tidied hyp.now) }
{
    if is_true_quote(hyp) {
        return Ok(Some(Move::Drops(hyp.share()?)));
    }
    match of_one(hyp, "NOT") {
        None => Ok(None),
        Some(negated) => match of_one(negated, "NOT") {
            None => Ok(None),
            Some(a) => Ok(Some(Move::Strips(hyp.share()?, a.share()?))),
        },
    }
}

/// A hypothesis that says nothing, or that is a negation of a negation.
#[tactic(auto, using(crate::proofs::Firsts::firsts))]
pub(crate) fn tidy(subgoal: &Subgoal) -> Step
    ensures { IfOk result (λ o. o ≡ spec.tidy subgoal.now) }
{
    for hyp in subgoal.hyps.as_slice() {
        if let Some(step) = tidied(hyp)? {
            return Ok(Some(step));
        }
    }
    Ok(None)
}

/// A goal that is an implication or a negation.
pub(crate) fn enter(subgoal: &Subgoal) -> Step
    ensures { IfOk result (λ o. o ≡ spec.enter subgoal.now) }
{
    match of_two(&subgoal.goal, "IMPLIES") {
        Some((a, b)) => Ok(Some(Move::Assumes(a.share()?, b.share()?))),
        None => match of_one(&subgoal.goal, "NOT") {
            None => Ok(None),
            Some(a) => Ok(Some(Move::Denies(a.share()?))),
        },
    }
}

#[tactic(auto, unfolding(crate::specs::Moves::at_hyp))]
fn at_hyp(alloc: Global, setting: &Setting<'_>, kind: Kind, hyps: &[Term], hyp: &Term) -> Step
    ensures { IfOk result (λ o. o ≡ spec.at_hyp (finds setting.now.world.now setting.now.how.now kind) hyps.now hyp.now) }
{
    let others = Others::except(hyps, hyp);
    match seek(alloc, setting, kind, &others, true, hyp)? {
        None => Ok(None),
        Some(at) => match put_at(alloc, hyp, &at.path, &at.found.term)? {
            None => Ok(None),
            Some(changed) => Ok(Some(Move::Alters(hyp.share()?, changed, at))),
        },
    }
}

#[tactic(auto, unfolding(crate::specs::Moves::at_goal))]
fn at_goal(alloc: Global, setting: &Setting<'_>, kind: Kind, hyps: &[Term], goal: &Term) -> Step
    ensures { IfOk result (λ o. o ≡ spec.at_goal (finds setting.now.world.now setting.now.how.now kind) hyps.now goal.now) }
{
    let others = Others::all(hyps);
    match seek(alloc, setting, kind, &others, false, goal)? {
        None => Ok(None),
        Some(at) => match put_at(alloc, goal, &at.path, &at.found.term)? {
            None => Ok(None),
            Some(changed) => Ok(Some(Move::Turns(changed, at))),
        },
    }
}

/// A part of a hypothesis, by the others, becomes another.
#[tactic(auto, using(crate::proofs::Firsts::firsts))]
fn at_hyps(alloc: Global, setting: &Setting<'_>, kind: Kind, hyps: &[Term]) -> Step
    ensures { IfOk result (λ o. o ≡ first (spec.at_hyp (finds setting.now.world.now setting.now.how.now kind) hyps.now) hyps.now) }
{
    for hyp in hyps {
        if let Some(step) = at_hyp(alloc, setting, kind, hyps, hyp)? {
            return Ok(Some(step));
        }
    }
    Ok(None)
}

/// A part of a hypothesis, by the others, or of the goal becomes another.
pub(crate) fn rewrite(alloc: Global, setting: &Setting<'_>, kind: Kind, subgoal: &Subgoal) -> Step
    ensures { IfOk result (λ o. o ≡ spec.rewrite (finds setting.now.world.now setting.now.how.now kind) subgoal.now) }
{
    let hyps = subgoal.hyps.as_slice();
    match at_hyps(alloc, setting, kind, hyps)? {
        Some(step) => Ok(Some(step)),
        None => {
            let step = at_goal(alloc, setting, kind, hyps, &subgoal.goal)?;
            Ok(step)
        }
    }
}

/// Whether the variable is in the term.
#[cycle(occurs)]
#[tactic(auto, using(crate::proofs::Args::args))]
pub fn occurs(name: &Symbol, term: &Term) -> bool
    ensures { result ≡ spec.occurs name.now term.now }
{
    match term.node() {
        Node::Var(other) => name.same(other),
        Node::Quote(_) => false,
        Node::Call(_, args) => occurs_in(name, args.as_slice()),
    }
}

#[cycle(occurs)]
#[tactic(auto, using(crate::proofs::Args::args))]
fn occurs_in(name: &Symbol, terms: &[Term]) -> bool
    ensures { result ≡ spec.occurs_in name.now (tms terms.now) }
{
    for term in terms {
        if occurs(name, term) {
            return true;
        }
    }
    false
}

/// The first side becomes the second, where it is a variable that isn't in it.
fn puts(hyp: &Term, a: &Term, b: &Term) -> Step
    ensures { IfOk result (λ o. o ≡ spec.puts hyp.now a.now b.now) }
{
    match a.node() {
        Node::Var(name) => {
            if occurs(name, b) {
                return Ok(None);
            }
            Ok(Some(Move::Puts(hyp.share()?, name.share()?, b.share()?)))
        }
        Node::Quote(_) => Ok(None),
        Node::Call(_, _) => Ok(None),
    }
}

fn on_equation(hyp: &Term) -> Step
    ensures { IfOk result (λ o. o ≡ spec.on_equation hyp.now) }
{
    match of_two(hyp, "EQUAL") {
        None => Ok(None),
        Some((a, b)) => match puts(hyp, a, b)? {
            Some(step) => Ok(Some(step)),
            None => puts(hyp, b, a),
        },
    }
}

/// A hypothesis that is an equation on a variable.
#[tactic(auto, using(crate::proofs::Firsts::firsts))]
pub(crate) fn on_variable(subgoal: &Subgoal) -> Step
    ensures { IfOk result (λ o. o ≡ spec.on_variable subgoal.now) }
{
    for hyp in subgoal.hyps.as_slice() {
        if let Some(step) = on_equation(hyp)? {
            return Ok(Some(step));
        }
    }
    Ok(None)
}

/// The test that was found.
fn tested(at: At) -> Term
    ensures { result ≡ at.found.term }
{
    let At {
        path: _,
        part: _,
        found,
    } = at;
    let Found { term, reason: _ } = found;
    term
}

#[tactic(auto, unfolding(crate::specs::Moves::first_test))]
fn first_test(alloc: Global, setting: &Setting<'_>, term: &Term) -> Step
    ensures { IfOk result (λ o. o ≡ spec.first_test (finds setting.now.world.now setting.now.how.now Kind.Test) term.now) }
{
    let others = Others::all(&[]);
    match seek(alloc, setting, Kind::Test, &others, false, term)? {
        None => Ok(None),
        Some(at) => Ok(Some(Move::Splits(tested(at)))),
    }
}

#[tactic(auto, using(crate::proofs::Firsts::firsts))]
fn first_test_of(alloc: Global, setting: &Setting<'_>, hyps: &[Term]) -> Step
    ensures { IfOk result (λ o. o ≡ first (spec.first_test (finds setting.now.world.now setting.now.how.now Kind.Test)) hyps.now) }
{
    for hyp in hyps {
        if let Some(step) = first_test(alloc, setting, hyp)? {
            return Ok(Some(step));
        }
    }
    Ok(None)
}

/// The first test of an `if` that has no `if` in it.
pub(crate) fn split(alloc: Global, setting: &Setting<'_>, subgoal: &Subgoal) -> Step
    ensures { IfOk result (λ o. o ≡ spec.split (finds setting.now.world.now setting.now.how.now Kind.Test) subgoal.now) }
{
    match first_test_of(alloc, setting, subgoal.hyps.as_slice())? {
        Some(step) => Ok(Some(step)),
        None => {
            let step = first_test(alloc, setting, &subgoal.goal)?;
            Ok(step)
        }
    }
}
