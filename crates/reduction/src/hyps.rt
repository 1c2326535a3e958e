//! Hypotheses, and what they decide.

ghost use Rattle.std.specs.Prelude.{◌≡◌, IfOk};
ghost use Rattle.std.specs.Option.{option_copied};
ghost use Rattle.terms.specs.Measures.{call1};
ghost use Rattle.reduction.specs.Finding.{is_call_on};
ghost use Rattle.reduction.specs.Hyps as spec;
ghost use Rattle.reduction.specs.Hyps.{left};

use crate::shapes::{is_quoted_nil, is_true_quote, of_one};
use terms::Term;

/// Hypotheses, of which one may not count.
#[derive(Clone, Copy)]
pub(crate) struct Others<'a> {
    pub(crate) hyps: &'a [Term],
    pub(crate) except: Option<&'a Term>,
}

/// Whether the term is in the list.
pub fn has(hyps: &[Term], term: &Term) -> bool
    ensures { result ≡ spec.has hyps.now term.now }
{
    hyps.iter().any(|h| term.same(h))
}

/// Whether the hypothesis is the call of a function on the term.
fn is_call_on(name: &str, hyp: &Term, term: &Term) -> bool
    ensures { result ≡ is_call_on name.now hyp.now term.now }
{
    match of_one(hyp, name) {
        None => false,
        Some(argument) => term.same(argument),
    }
}

/// Whether the call of a function on the term is in the list. It isn't made for this.
#[tactic(auto, using(crate::proofs::Unary::calls))]
pub(crate) fn has_call(hyps: &[Term], name: &str, term: &Term) -> bool
    ensures { result ≡ spec.has hyps.now (call1 name.now term.now) }
{
    for hyp in hyps {
        if is_call_on(name, hyp, term) {
            return true;
        }
    }
    false
}

impl<'a> Others<'a> {
    pub(crate) fn all(hyps: &'a [Term]) -> Others<'a>
        ensures { left result ≡ hyps.now }
    {
        Others { hyps, except: None }
    }

    pub(crate) fn except(hyps: &'a [Term], hyp: &'a Term) -> Others<'a>
        ensures { left result ≡ spec.without hyps.now hyp.now }
    {
        Others {
            hyps,
            except: Some(hyp),
        }
    }

    #[tactic(auto, using(crate::proofs::Unary::others))]
    pub(crate) fn has(&self, term: &Term) -> bool
        ensures { result ≡ spec.has (left self.now) term.now }
    {
        if let Some(hyp) = self.except {
            if hyp.same(term) {
                return false;
            }
        }
        has(self.hyps, term)
    }

    /// Whether the call of a function on the term is a hypothesis.
    #[tactic(auto, using(crate::proofs::Unary::others))]
    pub(crate) fn has_call(&self, name: &str, term: &Term) -> bool
        ensures { result ≡ spec.has (left self.now) (call1 name.now term.now) }
    {
        if let Some(hyp) = self.except {
            if is_call_on(name, hyp, term) {
                return false;
            }
        }
        has_call(self.hyps, name, term)
    }

    /// Whether the hypothesis is the one that doesn't count.
    pub(crate) fn leaves_out(&self, hyp: &Term) -> bool
        ensures { result ≡ spec.is_left_out (option_copied self.now.except) hyp.now }
    {
        match self.except {
            None => false,
            Some(other) => other.same(hyp),
        }
    }

    /// Whether the term is a hypothesis or a quoted value other than NIL.
    pub(crate) fn proves(&self, term: &Term) -> bool
        ensures { result ≡ spec.proves (left self.now) term.now }
    {
        is_true_quote(term) || self.has(term)
    }

    /// Whether the term is `'nil`, or a hypothesis denies it.
    pub(crate) fn refutes(&self, term: &Term) -> bool
        ensures { result ≡ spec.refutes (left self.now) term.now }
    {
        is_quoted_nil(term) || self.has_call("NOT", term)
    }
}
