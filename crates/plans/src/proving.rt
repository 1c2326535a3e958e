//! Which sequents prove a condition.

ghost use Rattle.std.specs.Prelude.{◌≡◌};
ghost use Rattle.plans.specs.Proving as spec;

use terms::{Sequent, Term};

fn is_among(term: &Term, terms: &[Term]) -> bool
    ensures { result ≡ spec.is_among term.now terms.now }
{
    match terms {
        [] => false,
        [first, rest @ ..] => term.same(first) || is_among(term, rest),
    }
}

fn are_among(terms: &[Term], others: &[Term]) -> bool
    ensures { result ≡ spec.are_among terms.now others.now }
{
    match terms {
        [] => true,
        [first, rest @ ..] => is_among(first, others) && are_among(rest, others),
    }
}

/// Whether a sequent proves a condition: the goals are the same, and its universals and hypotheses are among the condition's.
pub fn proves(sequent: &Sequent, condition: &Sequent) -> bool
    ensures { result ≡ spec.proves sequent.now condition.now }
{
    are_among(
        sequent.universals.as_slice(),
        condition.universals.as_slice(),
    ) && are_among(sequent.hyps.as_slice(), condition.hyps.as_slice())
        && sequent.goal.same(&condition.goal)
}
