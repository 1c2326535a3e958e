//! The derived rules: proofs put together of those of one or two goals.

ghost use Rattle.std.specs.Prelude.{◌≡◌, IfOk};
ghost use Rattle.proof_builders.specs.Derived as spec;

use hint_prover::{
    back, by_axiom, conditional, cut, cut_conjunction, first_part, hyp, if_true, replace,
    second_part,
};
use lisp_data::Memory;
use proof_objects::Proof;
use reduction::quoted_nil;
use std::alloc::Global;
use terms::{Path, Subst, Term};

/// Of `(equal a b)` and `(equal b c)`, `(equal a c)`.
pub fn chained(alloc: Global, p: Proof, q: Proof) -> Result<Proof, Memory>
    ensures { IfOk result (λ it. it ≡ spec.chained p q) }
{
    let path = Path::from_slice(alloc, &[2])?;
    replace(alloc, q, p, path)
}

/// Of a and b, `(if a b 'nil)`.
pub fn both(alloc: Global, a: &Term, b: &Term, p: Proof, q: Proof) -> Result<Proof, Memory>
    ensures { IfOk result (λ it. it ≡ spec.both a.now b.now p q) }
{
    let none = quoted_nil(alloc)?;
    let is_b = if_true(alloc, p, b, &none)?;
    let whole = conditional(alloc, a.share()?, b.share()?, none)?;
    back(alloc, is_b, &whole, q)
}

/// Of `(if a b 'nil)`, a.
pub fn first_of_both(alloc: Global, a: &Term, b: &Term, p: Proof) -> Result<Proof, Memory>
    ensures { IfOk result (λ it. it ≡ spec.first_of_both a.now b.now p) }
{
    let first = first_part(alloc, a, b)?;
    cut(alloc, p, first)
}

/// Of `(if a b 'nil)`, b.
pub fn second_of_both(alloc: Global, a: &Term, b: &Term, p: Proof) -> Result<Proof, Memory>
    ensures { IfOk result (λ it. it ≡ spec.second_of_both a.now b.now p) }
{
    let first = first_part(alloc, a, b)?;
    let second = second_part(alloc, a, b)?;
    let rest = cut(alloc, first, second)?;
    cut(alloc, p, rest)
}

/// The conjunction of terms that are hypotheses.
#[tactic(auto, using(crate::proofs::Gathering::conjunctions))]
pub fn gathered(alloc: Global, terms: &[Term]) -> Result<Proof, Memory>
    ensures { IfOk result (λ it. it ≡ spec.gathered terms.now) }
{
    let mut i = terms.len();
    if i == 0 {
        return by_axiom(alloc, 1, Subst::new(alloc));
    }
    i -= 1;
    let none = quoted_nil(alloc)?;
    let mut rest = terms[i].share()?;
    let mut all = hyp(alloc, &terms[i])?;
    'terms: while i > 0 {
        i -= 1;
        let itself = hyp(alloc, &terms[i])?;
        all = both(alloc, &terms[i], &rest, itself, all)?;
        rest = conditional(alloc, terms[i].share()?, rest, none.share()?)?;
    }
    Ok(all)
}

/// Of the conjunction of terms, and of a proof that has them as hypotheses, the same without them.
pub fn scattered(alloc: Global, terms: &[Term], p: Proof, q: Proof) -> Result<Proof, Memory>
    ensures { IfOk result (λ it. it ≡ spec.scattered terms.now p q) }
{
    let rest = cut_conjunction(alloc, terms, q)?;
    cut(alloc, p, rest)
}
