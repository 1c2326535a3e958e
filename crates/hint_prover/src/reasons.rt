//! Proofs of what is found: for each reason, that the part equals what it becomes.

ghost use Rattle.std.specs.Prelude.{◌≡◌, codes, IfOk};
ghost use Rattle.reduction.specs.Finding.{of_two, of_three};
ghost use Rattle.hints.specs.Facts.{citing, says};
ghost use Rattle.hints.specs.Formulas.{remains};
ghost use Rattle.kernel.specs.Conclusion as conclusion;
ghost use Rattle.reduction_proofs.specs.Reasons as spec;

use crate::derived::{back, by_quote, is_nil_by, is_t_by, is_t_by_both, not_nil, turned};
use crate::formulas::{equation, for_x, integer};
use crate::trees::{
    alone, by_axiom, by_body, eval, hyp, if_false, if_true, implies_out, refl, replace, ring, under,
};
use hints::says;
use lisp_data::Memory;
use proof_objects::{Proof, Step};
use reduction::{
    At, Found, Reason, Source, is_quoted_nil, is_true_quote, negation, of_one, of_three, of_two,
    quoted_nil, side,
};
use ring_laws::is_arithmetic;
use std::alloc::Global;
use terms::{FactName, Path, Subst, Term, substitute};
use worlds::World;

/// A quoted value other than NIL, or a hypothesis.
fn decided(alloc: Global, p: &Term) -> Result<Proof, Memory>
    ensures { IfOk result (λ it. it ≡ spec.decided p.now) }
{
    if is_true_quote(p) {
        by_quote(alloc, p)
    } else {
        hyp(alloc, p)
    }
}

/// `(not p)`, where p is `'nil` or this is a hypothesis.
fn refused(alloc: Global, p: &Term) -> Result<Proof, Memory>
    ensures { IfOk result (λ it. it ≡ spec.refused p.now) }
{
    if is_quoted_nil(p) {
        not_nil(alloc)
    } else {
        let denial = negation(alloc, p.share()?)?;
        hyp(alloc, &denial)
    }
}

/// That an `if` equals its first branch.
fn by_true(alloc: Global, term: &Term) -> Result<Proof, Memory>
    ensures { IfOk result (λ it. it ≡ spec.by_true term.now (of_three (codes "IF") term.now)) }
{
    match of_three(term, "IF") {
        None => refl(alloc, term),
        Some((test, yes, no)) => {
            let test = decided(alloc, test)?;
            if_true(alloc, test, yes, no)
        }
    }
}

/// That an `if` equals its second branch.
fn by_false(alloc: Global, term: &Term) -> Result<Proof, Memory>
    ensures { IfOk result (λ it. it ≡ spec.by_false term.now (of_three (codes "IF") term.now)) }
{
    match of_three(term, "IF") {
        None => refl(alloc, term),
        Some((test, yes, no)) => {
            let test = refused(alloc, test)?;
            if_false(alloc, test, yes, no)
        }
    }
}

/// `(equal t u)` of the hypothesis, which is it or `(equal u t)`.
pub(crate) fn equated(alloc: Global, hypothesis: &Term, t: &Term, u: &Term) -> Result<Proof, Memory>
    ensures { IfOk result (λ it. it ≡ spec.equated hypothesis.now t.now u.now) }
{
    let wanted = equation(alloc, t.share()?, u.share()?)?;
    let given = hyp(alloc, hypothesis)?;
    if hypothesis.same(&wanted) {
        Ok(given)
    } else {
        turned(alloc, given, u)
    }
}

/// A hypothesis of a rule: each of its parts is decided.
#[tactic(auto, using(crate::proofs::RuleParts::parts))]
fn part_proved(alloc: Global, s: &Subst, part: &Term) -> Result<Proof, Memory>
    ensures { IfOk result (λ it. it ≡ spec.part_proved s.now part.now) }
{
    if let Some((p, q, r)) = of_three(part, "IF") {
        if is_quoted_nil(r) {
            let first = part_proved(alloc, s, p)?;
            let second = part_proved(alloc, s, q)?;
            let rest = substitute(alloc, q, s)?;
            let none = quoted_nil(alloc)?;
            let is_rest = if_true(alloc, first, &rest, &none)?;
            let both = substitute(alloc, part, s)?;
            return back(alloc, is_rest, &both, second);
        }
    }
    let instance = substitute(alloc, part, s)?;
    decided(alloc, &instance)
}

/// Of an instance of a formula, the instance of what remains of it; and what remains.
#[tactic(auto, using(crate::proofs::RuleParts::formulas))]
fn detached<'a>(
    alloc: Global,
    s: &Subst,
    formula: &'a Term,
    p: Proof,
) -> Result<(Proof, &'a Term), Memory>
    ensures proof { IfOk result (λ it. it.0 ≡ spec.detached s.now formula.now p) }
    ensures rest { IfOk result (λ it. it.1.now ≡ remains formula.now) }
{
    let mut all = p;
    let mut rest = formula;
    'rest: while let Some((a, b)) = of_two(rest, "IMPLIES") {
        let needed = part_proved(alloc, s, a)?;
        all = implies_out(alloc, all, needed)?;
        rest = b;
    }
    Ok((all, rest))
}

/// Of what remains of a formula, the equation as which it is read.
fn as_equation(alloc: Global, rest: &Term, p: Proof) -> Result<Proof, Memory>
    ensures { IfOk result (λ it. it ≡ spec.as_equation rest.now p) }
{
    if let Some(a) = of_one(rest, "NOT") {
        return is_nil_by(alloc, a, p);
    }
    if let Some(a) = of_one(rest, "CONSP") {
        return is_t_by(alloc, 4, a, p);
    }
    if let Some(a) = of_one(rest, "INTEGERP") {
        return is_t_by(alloc, 5, a, p);
    }
    if let Some(a) = of_one(rest, "SYMBOLP") {
        return is_t_by(alloc, 6, a, p);
    }
    if let Some((a, b)) = of_two(rest, "<") {
        return is_t_by_both(alloc, 7, a, b, p);
    }
    Ok(p)
}

/// The proof that cites an axiom or a theorem.
pub(crate) fn cited(alloc: Global, source: &Source) -> Result<Proof, Memory>
    ensures { IfOk result (λ it. it ≡ conclusion.alone (citing source.now)) }
{
    match source {
        Source::Axiom(number) => by_axiom(alloc, *number, Subst::new(alloc)),
        Source::Theorem(name) => {
            let name = name.share()?;
            alone(alloc, Step::Theorem(FactName::Theorem(name)))
        }
    }
}

/// By the rule of an axiom or a theorem.
fn ruled(alloc: Global, world: &World, s: &Subst, source: &Source) -> Result<Proof, Memory>
    ensures { IfOk result (λ it. it ≡ spec.ruled s.now source.now (says world.now source.now)) }
{
    let fact = cited(alloc, source)?;
    match says(alloc, world, source)? {
        None => Ok(fact),
        Some(proved) => {
            let instance = under(alloc, fact, s)?;
            let (p, rest) = detached(alloc, s, &proved.sequent().goal, instance)?;
            let rest = substitute(alloc, rest, s)?;
            as_equation(alloc, &rest, p)
        }
    }
}

/// That a side as an arithmetic term equals it.
fn sided(alloc: Global, a: &Term) -> Result<Proof, Memory>
    ensures { IfOk result (λ it. it ≡ spec.sided a.now) }
{
    if is_arithmetic(a) {
        return refl(alloc, a);
    }
    let rule = by_axiom(alloc, 23, for_x(alloc, a.share()?)?)?;
    let is_integer = hyp(alloc, &integer(alloc, a.share()?)?)?;
    implies_out(alloc, rule, is_integer)
}

/// That an equation of the same polynomial equals `'t`.
fn same_polynomial_by(alloc: Global, term: &Term) -> Result<Proof, Memory>
    ensures { IfOk result (λ it. it ≡ spec.same_polynomial_by term.now (of_two (codes "EQUAL") term.now)) }
{
    match of_two(term, "EQUAL") {
        None => refl(alloc, term),
        Some((a, b)) => {
            let same = ring(alloc, side(alloc, a)?, side(alloc, b)?)?;
            let first = Path::from_slice(alloc, &[1])?;
            let left = replace(alloc, sided(alloc, a)?, same, first)?;
            let second = Path::from_slice(alloc, &[2])?;
            let both = replace(alloc, sided(alloc, b)?, left, second)?;
            is_t_by_both(alloc, 3, a, b, both)
        }
    }
}

/// `(equal t u)`, where u was found at t.
fn by_reason(alloc: Global, world: &World, term: &Term, found: &Found) -> Result<Proof, Memory>
    ensures { IfOk result (λ it. it ≡ spec.by_reason world.now term.now found.now) }
{
    match &found.reason {
        Reason::ByTrue => by_true(alloc, term),
        Reason::ByFalse => by_false(alloc, term),
        Reason::Refuted => {
            let denial = negation(alloc, term.share()?)?;
            let denied = hyp(alloc, &denial)?;
            is_nil_by(alloc, term, denied)
        }
        Reason::Valued => eval(alloc, term),
        Reason::Opened => by_body(alloc, term),
        Reason::Equated(hypothesis) => equated(alloc, hypothesis, term, &found.term),
        Reason::Ruled(source, s) => ruled(alloc, world, s, source),
        Reason::SamePolynomial => same_polynomial_by(alloc, term),
        Reason::Tested => refl(alloc, term),
    }
}

/// That a term equals the one with what was found in it.
pub(crate) fn rewritten(alloc: Global, world: &World, term: &Term, at: &At) -> Result<Proof, Memory>
    ensures { IfOk result (λ it. it ≡ spec.rewritten world.now term.now at.now) }
{
    let eq = by_reason(alloc, world, &at.part, &at.found)?;
    let same = refl(alloc, term)?;
    let mut path = Path::from_slice(alloc, &[2])?;
    path.extend(at.path.as_slice())?;
    replace(alloc, eq, same, path)
}
