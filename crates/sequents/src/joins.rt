//! Lists of terms without repeats.

ghost use Rattle.std.specs.Prelude.{◌≡◌, ◌∷◌, [], IfOk};
ghost use Rattle.std.specs.List.{list_any};
ghost use Rattle.terms.specs.Terms.{same_tm};
ghost use Rattle.terms.specs.Joins as joins;

use lists::Memory;
use std::alloc::Global;
use terms::{Term, Terms};

fn has(terms: &[Term], term: &Term) -> bool
    ensures { result ≡ list_any (same_tm term.now) terms.now }
{
    terms.iter().any(|other| term.same(other))
}

/// The terms and a further one, where it is new.
pub fn with_term(mut terms: Terms, term: &Term) -> Result<Terms, Memory>
    ensures { IfOk result (λ ts. ts ≡ joins.with_term terms term.now) }
{
    if has(terms.as_slice(), term) {
        return Ok(terms);
    }
    terms.push(term.share()?)?;
    Ok(terms)
}

/// Each term once, at its first place.
#[tactic(auto, using(crate::proofs::TermLists::lists))]
pub fn without_repeats(alloc: Global, terms: &Terms) -> Result<Terms, Memory>
    ensures { IfOk result (λ ts. ts ≡ joins.without_repeats terms.now) }
{
    let mut all = Terms::new(alloc);
    for term in terms.as_slice() {
        all = with_term(all, term)?;
    }
    Ok(all)
}

/// One term alone.
pub fn only(alloc: Global, term: &Term) -> Result<Terms, Memory>
    ensures { IfOk result (λ ts. ts ≡ term.now ∷ []) }
{
    let mut terms = Terms::new(alloc);
    terms.push(term.share()?)?;
    Ok(terms)
}
