//! Equations of the same polynomial.

ghost use Rattle.std.specs.Prelude.{◌≡◌, IfOk, true};
ghost use Rattle.ring_laws.specs.Expressions.{is_arithmetic as arithmetic};
ghost use Rattle.reduction.specs.Finders as spec;
ghost use Rattle.reduction.specs.Hyps.{left};

use crate::finders::Finding;
use crate::found::{Found, Reason};
use crate::hyps::Others;
use crate::shapes::{of_two, quoted_t};
use lisp_data::{Memory, Seq, Symbol, Value};
use ring_laws::{RingError, is_arithmetic, same_polynomial};
use std::alloc::Global;
use terms::Term;

/// Whether the term is arithmetic, or an integer by a hypothesis.
fn is_side(others: &Others<'_>, term: &Term) -> bool
    ensures { result ≡ spec.is_side (left others.now) term.now }
{
    is_arithmetic(term) || others.has_call("INTEGERP", term)
}

/// The term as an arithmetic one: an integer is the sum of 0 and it.
#[tactic(auto, unfolding(lisp_data::specs::SymbolText::is_symbol_text, lisp_data::specs::Atoms::leaf, lisp_data::specs::Atoms::in_atom, lisp_data::specs::Atoms::is_delimiter, lisp_data::specs::Atoms::is_sign))]
pub fn side(alloc: Global, term: &Term) -> Result<Term, Memory>
    ensures value { IfOk result (λ t. t ≡ spec.side term.now) }
    ensures arithmetic { IfOk result (λ t. arithmetic t ≡ true) }
{
    if is_arithmetic(term) {
        return term.share();
    }
    let mut args = Seq::new(alloc);
    args.push(Term::quote(alloc, Value::Int(0))?)?;
    args.push(term.share()?)?;
    let sum = Symbol::named(alloc, "BINARY-+")?;
    Term::call(alloc, sum, args)
}

/// Whether two arithmetic terms are the same polynomial, within the limits of a comparison.
fn are_same(alloc: Global, left: &Term, right: &Term) -> Result<bool, Memory>
    requires left { arithmetic left.now ≡ true }
    requires right { arithmetic right.now ≡ true }
    ensures { IfOk result (λ is. is ≡ spec.are_same left.now right.now) }
{
    match same_polynomial(alloc, left, right) {
        Ok(same) => Ok(same),
        Err(RingError::TooWide | RingError::TooLarge) => Ok(false),
        Err(RingError::Memory) => Err(Memory),
    }
}

/// An equation whose sides are the same polynomial.
pub(crate) fn by_polynomials(alloc: Global, others: &Others<'_>, term: &Term) -> Finding
    ensures { IfOk result (λ o. o ≡ spec.by_polynomials (left others.now) term.now) }
{
    let Some((left, right)) = of_two(term, "EQUAL") else {
        return Ok(None);
    };
    if !is_side(others, left) || !is_side(others, right) {
        return Ok(None);
    }
    if !are_same(alloc, &side(alloc, left)?, &side(alloc, right)?)? {
        return Ok(None);
    }
    let term = quoted_t(alloc)?;
    Ok(Some(Found {
        term,
        reason: Reason::SamePolynomial,
    }))
}
