//! What becomes of one term, by the hypotheses that count.

ghost use Rattle.std.specs.Prelude.{◌≡◌, IfOk};
ghost use Rattle.std.specs.Option.{option_copied};
ghost use Rattle.terms.specs.Terms.{tms};
ghost use Rattle.reduction.specs.Finders as spec;
ghost use Rattle.reduction.specs.Found.{becomes};
ghost use Rattle.reduction.specs.Hyps.{left};

use crate::found::{Found, Reason};
use crate::hyps::Others;
use crate::shapes::{is_call, mentions, of_three, of_two, quoted_nil};
use lisp_data::Memory;
use std::alloc::Global;
use terms::{Node, Term};

/// What a kind finds at a term.
pub(crate) type Finding = Result<Option<Found>, Memory>;

fn because(term: &Term, reason: Reason) -> Finding
    ensures { IfOk result (λ o. o ≡ Some (becomes term.now reason)) }
{
    let term = term.share()?;
    Ok(Some(Found { term, reason }))
}

/// An `if` whose test is decided, or a call that a hypothesis denies.
pub(crate) fn decide(alloc: Global, others: &Others<'_>, term: &Term) -> Finding
    ensures { IfOk result (λ o. o ≡ spec.decide (left others.now) term.now) }
{
    if let Some((test, yes, no)) = of_three(term, "IF") {
        if others.proves(test) {
            return because(yes, Reason::ByTrue);
        }
        if others.refutes(test) {
            return because(no, Reason::ByFalse);
        }
    }
    if is_call(term) && others.has_call("NOT", term) {
        let term = quoted_nil(alloc)?;
        return Ok(Some(Found {
            term,
            reason: Reason::Refuted,
        }));
    }
    Ok(None)
}

/// Whether the first term is the second, or stands in it.
#[cycle(is_part)]
#[tactic(auto, using(crate::proofs::Args::args))]
fn is_part(part: &Term, whole: &Term) -> bool
    ensures { result ≡ spec.is_part part.now whole.now }
{
    if part.same(whole) {
        return true;
    }
    match whole.node() {
        Node::Var(_) => false,
        Node::Quote(_) => false,
        Node::Call(_, args) => is_part_of(part, args.as_slice()),
    }
}

#[cycle(is_part)]
#[tactic(auto, using(crate::proofs::Args::args))]
fn is_part_of(part: &Term, terms: &[Term]) -> bool
    ensures { result ≡ spec.is_part_of part.now (tms terms.now) }
{
    for term in terms {
        if is_part(part, term) {
            return true;
        }
    }
    false
}

/// The other side, where the hypothesis is an equation with the term as a side.
fn by_equation(term: &Term, hyp: &Term) -> Finding
    ensures { IfOk result (λ o. o ≡ spec.by_equation term.now hyp.now) }
{
    match of_two(hyp, "EQUAL") {
        None => Ok(None),
        Some((left, right)) => {
            if left.same(term) && is_call(left) && !is_part(left, right) {
                because(right, Reason::Equated(hyp.share()?))
            } else if right.same(term) && !is_call(left) && is_call(right) {
                because(left, Reason::Equated(hyp.share()?))
            } else {
                Ok(None)
            }
        }
    }
}

/// The same, where the hypothesis isn't left out. That is seen last, since it compares whole hypotheses.
#[tactic(auto, using(crate::proofs::LeftOut::left_out))]
fn by_other(others: &Others<'_>, term: &Term, hyp: &Term) -> Finding
    ensures { IfOk result (λ o. o ≡ spec.by_other (option_copied others.now.except) term.now hyp.now) }
{
    match by_equation(term, hyp)? {
        None => Ok(None),
        Some(found) => {
            if others.leaves_out(hyp) {
                Ok(None)
            } else {
                Ok(Some(found))
            }
        }
    }
}

/// The other side of the first hypothesis that is an equation with the term as a side.
#[tactic(auto, using(crate::proofs::Firsts::others))]
pub(crate) fn on_call(others: &Others<'_>, term: &Term) -> Finding
    ensures { IfOk result (λ o. o ≡ spec.on_call (left others.now) term.now) }
{
    for hyp in others.hyps {
        if let Some(found) = by_other(others, term, hyp)? {
            return Ok(Some(found));
        }
    }
    Ok(None)
}

/// The test of an `if`, where it has no `if` in it.
pub(crate) fn test_of(term: &Term) -> Finding
    ensures { IfOk result (λ o. o ≡ spec.test_of term.now) }
{
    match of_three(term, "IF") {
        None => Ok(None),
        Some((test, _, _)) => {
            if mentions(test, "IF") {
                Ok(None)
            } else {
                because(test, Reason::Tested)
            }
        }
    }
}
