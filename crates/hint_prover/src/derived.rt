//! Proofs made of several rules.

ghost use Rattle.std.specs.Prelude.{◌≡◌, IfOk};
ghost use Rattle.terms.specs.Terms.{tms};
ghost use Rattle.reduction_proofs.specs.Derived as spec;

use crate::formulas::{conditional, equation, for_x, for_x_and_y, zero, zero_less};
use crate::trees::{
    by_axiom, cases, contradict, eval, hyp, if_false, if_true, implies_out, refl, replace,
};
use lisp_data::{Memory, Symbol};
use proof_objects::Proof;
use reduction::{negation, occurs, quoted_nil};
use std::alloc::Global;
use terms::{Node, Path, Term};

/// Of `(equal a b)`, `(equal b a)`.
pub fn turned(alloc: Global, eq: Proof, a: &Term) -> Result<Proof, Memory>
    ensures { IfOk result (λ it. it ≡ spec.turned eq a.now) }
{
    let same = refl(alloc, a)?;
    let path = Path::from_slice(alloc, &[1])?;
    replace(alloc, eq, same, path)
}

/// Of `(equal a b)` and a, b.
pub(crate) fn forth(alloc: Global, eq: Proof, p: Proof) -> Result<Proof, Memory>
    ensures { IfOk result (λ it. it ≡ spec.forth eq p) }
{
    replace(alloc, eq, p, Path::new(alloc))
}

/// Of `(equal a b)` and b, a.
pub fn back(alloc: Global, eq: Proof, a: &Term, p: Proof) -> Result<Proof, Memory>
    ensures { IfOk result (λ it. it ≡ spec.back eq a.now p) }
{
    let eq = turned(alloc, eq, a)?;
    replace(alloc, eq, p, Path::new(alloc))
}

/// `(not (< '0 '0))`
fn none_less(alloc: Global) -> Result<Proof, Memory>
    ensures { IfOk result (λ it. it ≡ spec.none_less) }
{
    let s = for_x(alloc, zero(alloc)?)?;
    by_axiom(alloc, 24, s)
}

/// Of `'nil`, anything.
pub(crate) fn from_nil(alloc: Global, p: Proof, goal: &Term) -> Result<Proof, Memory>
    ensures { IfOk result (λ it. it ≡ spec.from_nil p goal.now) }
{
    let less = zero_less(alloc)?;
    let value = eval(alloc, &less)?;
    let p = back(alloc, value, &less, p)?;
    let q = none_less(alloc)?;
    contradict(alloc, p, q, goal)
}

/// `(not 'nil)`
pub(crate) fn not_nil(alloc: Global) -> Result<Proof, Memory>
    ensures { IfOk result (λ it. it ≡ spec.not_nil) }
{
    let less = zero_less(alloc)?;
    let value = eval(alloc, &less)?;
    let none = none_less(alloc)?;
    let path = Path::from_slice(alloc, &[1])?;
    replace(alloc, value, none, path)
}

/// Of `(not a)`, `(equal a 'nil)`.
pub(crate) fn is_nil_by(alloc: Global, a: &Term, p: Proof) -> Result<Proof, Memory>
    ensures { IfOk result (λ it. it ≡ spec.is_nil_by a.now p) }
{
    let s = for_x(alloc, a.share()?)?;
    let rule = by_axiom(alloc, 2, s)?;
    implies_out(alloc, rule, p)
}

/// Of a call of a predicate, that it equals `'t`, by the predicate's axiom.
pub(crate) fn is_t_by(alloc: Global, number: u32, a: &Term, p: Proof) -> Result<Proof, Memory>
    ensures { IfOk result (λ it. it ≡ spec.is_t_by number a.now p) }
{
    let s = for_x(alloc, a.share()?)?;
    let rule = by_axiom(alloc, number, s)?;
    implies_out(alloc, rule, p)
}

/// The same of a predicate of two arguments.
pub(crate) fn is_t_by_both(
    alloc: Global,
    number: u32,
    a: &Term,
    b: &Term,
    p: Proof,
) -> Result<Proof, Memory>
    ensures { IfOk result (λ it. it ≡ spec.is_t_by_both number a.now b.now p) }
{
    let s = for_x_and_y(alloc, a.share()?, b.share()?)?;
    let rule = by_axiom(alloc, number, s)?;
    implies_out(alloc, rule, p)
}

/// A quoted value other than NIL.
pub(crate) fn by_quote(alloc: Global, quote: &Term) -> Result<Proof, Memory>
    ensures { IfOk result (λ it. it ≡ spec.by_quote quote.now) }
{
    let denial = negation(alloc, quote.share()?)?;
    let denied = is_nil_by(alloc, quote, hyp(alloc, &denial)?)?;
    let is_nil = equation(alloc, quote.share()?, quoted_nil(alloc)?)?;
    let nothing = forth(alloc, eval(alloc, &is_nil)?, denied)?;
    let absurd = from_nil(alloc, nothing, quote)?;
    let itself = hyp(alloc, quote)?;
    cases(alloc, quote, itself, absurd)
}

/// Of the hypothesis `(not (not a))`, a.
pub(crate) fn twice_not(alloc: Global, a: &Term) -> Result<Proof, Memory>
    ensures { IfOk result (λ it. it ≡ spec.twice_not a.now) }
{
    let once = negation(alloc, a.share()?)?;
    let twice = negation(alloc, once.share()?)?;
    let absurd = contradict(alloc, hyp(alloc, &once)?, hyp(alloc, &twice)?, a)?;
    let itself = hyp(alloc, a)?;
    cases(alloc, a, itself, absurd)
}

/// Of the hypothesis `(if a b 'nil)`, a.
pub fn first_part(alloc: Global, a: &Term, b: &Term) -> Result<Proof, Memory>
    ensures { IfOk result (λ it. it ≡ spec.first_part a.now b.now) }
{
    let none = quoted_nil(alloc)?;
    let both = conditional(alloc, a.share()?, b.share()?, none.share()?)?;
    let denied = hyp(alloc, &negation(alloc, a.share()?)?)?;
    let is_nil = if_false(alloc, denied, b, &none)?;
    let nothing = forth(alloc, is_nil, hyp(alloc, &both)?)?;
    let absurd = from_nil(alloc, nothing, a)?;
    let itself = hyp(alloc, a)?;
    cases(alloc, a, itself, absurd)
}

/// Of the hypotheses `(if a b 'nil)` and a, b.
pub fn second_part(alloc: Global, a: &Term, b: &Term) -> Result<Proof, Memory>
    ensures { IfOk result (λ it. it ≡ spec.second_part a.now b.now) }
{
    let none = quoted_nil(alloc)?;
    let both = conditional(alloc, a.share()?, b.share()?, none.share()?)?;
    let is_b = if_true(alloc, hyp(alloc, a)?, b, &none)?;
    let p = hyp(alloc, &both)?;
    forth(alloc, is_b, p)
}

#[cycle(equate)]
#[tactic(auto, using(crate::proofs::Equations::equations))]
fn equate_all(
    alloc: Global,
    name: &Symbol,
    eq: &Proof,
    terms: &[Term],
    p: Proof,
) -> Result<Proof, Memory>
    ensures { IfOk result (λ it. it ≡ spec.equate_all name.now eq.now (tms terms.now) 1 p) }
{
    let mut all = p;
    for i in 0..terms.len() {
        if !occurs(name, &terms[i]) {
            continue;
        }
        let Ok(number) = u32::try_from(i + 1) else {
            return Err(Memory);
        };
        let part = equate(alloc, name, eq, &terms[i])?;
        let path = Path::from_slice(alloc, &[2, number])?;
        all = replace(alloc, part, all, path)?;
    }
    Ok(all)
}

/// Of `(equal x a)`, that a term equals the one with a for the variable x.
#[cycle(equate)]
#[tactic(auto, using(crate::proofs::Equations::equations))]
pub(crate) fn equate(alloc: Global, name: &Symbol, eq: &Proof, term: &Term) -> Result<Proof, Memory>
    ensures { IfOk result (λ it. it ≡ spec.equate name.now eq.now term.now) }
{
    match term.node() {
        Node::Var(other) => {
            if name.same(other) {
                eq.share()
            } else {
                refl(alloc, term)
            }
        }
        Node::Quote(_) => refl(alloc, term),
        Node::Call(_, args) => {
            let same = refl(alloc, term)?;
            equate_all(alloc, name, eq, args.as_slice(), same)
        }
    }
}
