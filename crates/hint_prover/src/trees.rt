//! Proofs by their last rule.

ghost use Rattle.std.specs.Prelude.{◌≡◌, IfOk};
ghost use Rattle.proof_objects.specs.ProofTrees.{By, trees};
ghost use Rattle.kernel.specs.Conclusion as conclusion;
ghost use Rattle.reduction_proofs.specs.Trees as spec;

use lisp_data::{Memory, Seq, Symbol};
use proof_objects::{InductionCases, Proof, Step};
use std::alloc::Global;
use terms::{FactName, FunPairs, Path, Subst, Term};

pub(crate) fn alone(alloc: Global, step: Step) -> Result<Proof, Memory>
    ensures { IfOk result (λ it. it ≡ conclusion.alone step) }
{
    Proof::new(alloc, step, Seq::new(alloc))
}

fn after(alloc: Global, step: Step, p: Proof) -> Result<Proof, Memory>
    ensures { IfOk result (λ it. it ≡ conclusion.after step p) }
{
    let mut subproofs = Seq::new(alloc);
    subproofs.push(p)?;
    Proof::new(alloc, step, subproofs)
}

fn after_both(alloc: Global, step: Step, p: Proof, q: Proof) -> Result<Proof, Memory>
    ensures { IfOk result (λ it. it ≡ conclusion.after_both step p q) }
{
    let mut subproofs = Seq::new(alloc);
    subproofs.push(p)?;
    subproofs.push(q)?;
    Proof::new(alloc, step, subproofs)
}

/// The goal that is a hypothesis.
pub fn hyp(alloc: Global, p: &Term) -> Result<Proof, Memory>
    ensures { IfOk result (λ it. it ≡ spec.Hyp p.now) }
{
    let p = p.share()?;
    alone(alloc, Step::Hyp(p))
}

/// `(equal a a)`
pub fn refl(alloc: Global, a: &Term) -> Result<Proof, Memory>
    ensures { IfOk result (λ it. it ≡ spec.Refl a.now) }
{
    let a = a.share()?;
    alone(alloc, Step::Refl(a))
}

/// What `on` proves, where the equation that `eq` proves is used at the path.
pub fn replace(alloc: Global, eq: Proof, on: Proof, path: Path) -> Result<Proof, Memory>
    ensures { IfOk result (λ it. it ≡ spec.Replace eq on path) }
{
    after_both(alloc, Step::Replace(path), eq, on)
}

/// That a call is the function's body at its arguments.
pub fn by_body(alloc: Global, call: &Term) -> Result<Proof, Memory>
    ensures { IfOk result (λ it. it ≡ spec.Unfold call.now) }
{
    let call = call.share()?;
    alone(alloc, Step::Unfold(call))
}

pub(crate) fn eval(alloc: Global, a: &Term) -> Result<Proof, Memory>
    ensures { IfOk result (λ it. it ≡ spec.Eval a.now) }
{
    let a = a.share()?;
    alone(alloc, Step::Eval(a))
}

/// What `p` proves, with terms for its variables.
pub fn under(alloc: Global, p: Proof, s: &Subst) -> Result<Proof, Memory>
    ensures { IfOk result (λ it. it ≡ spec.Substitute p s.now) }
{
    let s = s.copy(alloc)?;
    after(alloc, Step::Substitute(s), p)
}

/// `(equal (if a b c) b)`, where `test` proves a.
pub fn if_true(alloc: Global, test: Proof, b: &Term, c: &Term) -> Result<Proof, Memory>
    ensures { IfOk result (λ it. it ≡ spec.IfTrue test b.now c.now) }
{
    let b = b.share()?;
    let c = c.share()?;
    after(alloc, Step::IfTrue(b, c), test)
}

/// `(equal (if a b c) c)`, where `test` denies a.
pub fn if_false(alloc: Global, test: Proof, b: &Term, c: &Term) -> Result<Proof, Memory>
    ensures { IfOk result (λ it. it ≡ spec.IfFalse test b.now c.now) }
{
    let b = b.share()?;
    let c = c.share()?;
    after(alloc, Step::IfFalse(b, c), test)
}

/// By `p` where the term is true and by `q` where it is false.
pub fn cases(alloc: Global, term: &Term, p: Proof, q: Proof) -> Result<Proof, Memory>
    ensures { IfOk result (λ it. it ≡ spec.Cases term.now p q) }
{
    let term = term.share()?;
    after_both(alloc, Step::Cases(term), p, q)
}

/// What `q` proves, where `p` proves one of its hypotheses.
pub fn cut(alloc: Global, p: Proof, q: Proof) -> Result<Proof, Memory>
    ensures { IfOk result (λ it. it ≡ spec.Cut p q) }
{
    after_both(alloc, Step::Cut, p, q)
}

/// Any goal, where `q` denies what `p` proves.
pub(crate) fn contradict(alloc: Global, p: Proof, q: Proof, goal: &Term) -> Result<Proof, Memory>
    ensures { IfOk result (λ it. it ≡ spec.Contradict p q goal.now) }
{
    let goal = goal.share()?;
    after_both(alloc, Step::Contradict(goal), p, q)
}

/// An axiom under a substitution.
pub fn by_axiom(alloc: Global, number: u32, s: Subst) -> Result<Proof, Memory>
    ensures { IfOk result (λ it. it ≡ spec.Axiom number s) }
{
    alone(alloc, Step::Axiom(number, s))
}

pub(crate) fn ring(alloc: Global, a: Term, b: Term) -> Result<Proof, Memory>
    ensures { IfOk result (λ it. it ≡ spec.Ring a b) }
{
    alone(alloc, Step::Ring(a, b))
}

/// Of a proof with a hypothesis, that the hypothesis implies the goal.
pub fn implies_in(alloc: Global, hyp: &Term, p: Proof) -> Result<Proof, Memory>
    ensures { IfOk result (λ it. it ≡ spec.ImpliesIn hyp.now p) }
{
    let hyp = hyp.share()?;
    after(alloc, Step::ImpliesIn(hyp), p)
}

/// Of `(implies a b)` and a, b.
pub fn implies_out(alloc: Global, p: Proof, q: Proof) -> Result<Proof, Memory>
    ensures { IfOk result (λ it. it ≡ spec.ImpliesOut p q) }
{
    after_both(alloc, Step::ImpliesOut, p, q)
}

pub(crate) fn universal(alloc: Global, u: &Term, s: &Subst) -> Result<Proof, Memory>
    ensures { IfOk result (λ it. it ≡ spec.Universal u.now s.now) }
{
    let u = u.share()?;
    let s = s.copy(alloc)?;
    alone(alloc, Step::Universal(u, s))
}

/// A theorem with functions in the place of function variables.
pub(crate) fn instance(alloc: Global, name: &Symbol, pairs: &FunPairs) -> Result<Proof, Memory>
    ensures { IfOk result (λ it. it ≡ spec.Instance name.now pairs.now) }
{
    let name = name.share()?;
    let pairs = pairs.copy(alloc)?;
    alone(alloc, Step::Instance(FactName::Theorem(name), pairs))
}

/// What the measure of a function owes.
pub fn owed(alloc: Global, name: &Symbol, number: u32) -> Result<Proof, Memory>
    ensures { IfOk result (λ it. it ≡ spec.Owed name.now number) }
{
    let name = name.share()?;
    alone(alloc, Step::Theorem(FactName::Measure(name, number)))
}

/// A condition of an isomorphism: 1 is `:forth-image`, 2 `:back-image`, 3 `:back-of-forth`, 4 `:forth-of-back`.
pub fn of_iso(alloc: Global, name: &Symbol, number: u32) -> Result<Proof, Memory>
    ensures { IfOk result (λ it. it ≡ spec.OfIso name.now number) }
{
    let name = name.share()?;
    alone(alloc, Step::Theorem(FactName::Isomorphism(name, number)))
}

/// Induction; the subproofs are those of the measure and of the base, then one for each case.
pub(crate) fn induct(
    alloc: Global,
    measure: Term,
    cases: InductionCases,
    subproofs: Seq<Proof>,
) -> Result<Proof, Memory>
    ensures { IfOk result (λ it. it ≡ By (Step.Induct measure cases) (trees subproofs)) }
{
    Proof::new(alloc, Step::Induct(measure, cases), subproofs)
}
