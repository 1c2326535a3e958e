//! What induction on a measure concludes, as docs/KERNEL.md says.

ghost use Rattle.std.specs.Prelude.{◌≡◌, IfOk, Some, length, codes};
ghost use Rattle.std.specs.List.{list_all, list_any};
ghost use Rattle.terms.specs.Measures.{call2};
ghost use Rattle.terms.specs.Substitution.{by_pairs};
ghost use Rattle.terms.specs.Terms.{tms, same_tm, same_tms, substitute, substitute_all};
ghost use Rattle.kernel.specs.Induction as spec;
ghost use Rattle.kernel.specs.InductCases.{case_of, cases_of, falls_of};
ghost use Rattle.kernel.specs.Conclusion.{AllIn, proofs_of, sequents_of};
ghost use Rattle.kernel.specs.Concludes.{all_concluded};
ghost use Rattle.proof_objects.specs.ProofTrees.{trees};
ghost use Rattle.kernel.specs.Answers.{SaysSequent};

use crate::connectives::{implies_sides, less_sides, natural_of};
use crate::errors::RuleError;
use crate::fitting::{fits, pairs_fit};
use crate::proved::Proved;
use crate::sequents::join;
use lisp_data::{Memory, Seq};
use proof_objects::{InductionCase, InductionCases};
use std::alloc::Global;
use terms::{Node, Sequent, Subst, Term, Terms};
use worlds::World;

/// A case of an induction: what is known there, what becomes of the variables in its induction hypothesis, and the
/// proved sequent that the measure falls.
pub struct InductCase {
    pub test: Term,
    pub subst: Subst,
    pub falls: Proved,
}

/// A list of cases.
pub type InductCases = Seq<InductCase>;

impl Drop for InductCase {
    fn drop(self) {
        let InductCase {
            test: _,
            subst: _,
            falls: _,
        } = self;
    }
}

impl InductCase {
    /// Whether the term is the induction hypothesis for the goal.
    #[tactic(auto, using(crate::proofs::Cases::forms))]
    fn assumes(&self, goal: &Term, term: &Term) -> bool
        ensures { result ≡ same_tm (spec.assumption goal.now (case_of self.now)) term.now }
    {
        match implies_sides(term) {
            None => false,
            Some((test, instance)) => {
                self.test.same(test) && is_instance(instance, goal, &self.subst)
            }
        }
    }

    /// Whether it is proved that the measure falls, from nothing but the test.
    fn is_smaller(&self, world: &World, measure: &Term) -> bool
        ensures { result ≡ spec.falls_in world.now.functions measure.now (case_of self.now) self.now.falls.sequent }
    {
        let proved = self.falls.sequent();
        fits(world, &self.test)
            && pairs_fit(world, &self.subst)
            && are_all(proved.hyps.as_slice(), &self.test)
            && is_less(&proved.goal, measure, &self.subst)
    }
}

/// Whether the sequent says that the measure is a natural number, from no hypothesis.
#[tactic(auto, using(crate::proofs::Cases::forms))]
fn says_natural(measure: &Term, natural: &Sequent) -> bool
    ensures { result ≡ spec.says_natural measure.now natural.now }
{
    if natural.hyps.len() != 0 {
        return false;
    }
    match natural_of(&natural.goal) {
        None => false,
        Some(term) => measure.same(term),
    }
}

#[tactic(auto, using(crate::proofs::Cases::cases))]
fn is_assumed(goal: &Term, cases: &[InductCase], hypothesis: &Term) -> bool
    ensures { result ≡ list_any (λ c. same_tm (spec.assumption goal.now c) hypothesis.now) (cases_of cases.now) }
{
    for case in cases {
        if case.assumes(goal, hypothesis) {
            return true;
        }
    }
    false
}

/// Whether each hypothesis is the induction hypothesis of a case.
fn all_assumed(base: &Sequent, cases: &[InductCase]) -> bool
    ensures { result ≡ spec.all_assumed base.now.goal (cases_of cases.now) base.now.hyps }
{
    base.hyps
        .as_slice()
        .iter()
        .all(|hypothesis| is_assumed(&base.goal, cases, hypothesis))
}

/// Whether the measure falls in each case.
#[tactic(auto, using(crate::proofs::Cases::cases))]
fn all_fall(world: &World, measure: &Term, cases: &[InductCase]) -> bool
    ensures { result ≡ spec.all_fall world.now.functions measure.now (cases_of cases.now) (sequents_of (falls_of cases.now)) }
{
    for case in cases {
        if !case.is_smaller(world, measure) {
            return false;
        }
    }
    true
}

/// The universals, and those of the cases.
#[tactic(auto, using(crate::proofs::Cases::cases))]
fn with_universals(alloc: Global, universals: Terms, cases: &[InductCase]) -> Result<Terms, Memory>
    ensures { IfOk result (λ us. us ≡ spec.with_universals universals (sequents_of (falls_of cases.now))) }
{
    let mut all = universals;
    for case in cases {
        all = join(alloc, &all, &case.falls.sequent().universals)?;
    }
    Ok(all)
}

/// Induction: `natural` says that the measure is a natural number, `base` has its goal from induction hypotheses
/// alone, and in each case the measure falls.
pub(crate) fn induced(
    alloc: Global,
    world: &World,
    measure: &Term,
    natural: &Sequent,
    base: &Sequent,
    cases: &[InductCase],
) -> Result<Sequent, RuleError>
    ensures { SaysSequent (spec.induced world.now.functions measure.now (cases_of cases.now) natural.now base.now (sequents_of (falls_of cases.now))) result }
{
    if !says_natural(measure, natural)
        || !all_assumed(base, cases)
        || !all_fall(world, measure, cases)
    {
        return Err(RuleError::Refused);
    }
    let universals = join(alloc, &natural.universals, &base.universals)?;
    let universals = with_universals(alloc, universals, cases)?;
    let goal = base.goal.share()?;
    Ok(Sequent {
        universals,
        hyps: Seq::new(alloc),
        goal,
    })
}

#[cycle(instance)]
#[tactic(auto, using(crate::proofs::Cases::instances))]
fn are_instances(terms: &[Term], patterns: &[Term], s: &Subst) -> bool
    ensures { result ≡ same_tms (substitute_all (by_pairs s.now) (tms patterns.now)) (tms terms.now) }
{
    if terms.len() != patterns.len() {
        return false;
    }
    for i in 0..terms.len() {
        if !is_instance(&terms[i], &patterns[i], s) {
            return false;
        }
    }
    true
}

/// Whether the term is the pattern under the substitution. No term is made for that, so that being out of memory
/// never stands in for a refusal.
#[cycle(instance)]
#[tactic(auto, using(crate::proofs::Cases::instances))]
fn is_instance(term: &Term, pattern: &Term, s: &Subst) -> bool
    ensures { result ≡ same_tm (substitute (by_pairs s.now) pattern.now) term.now }
{
    match pattern.node() {
        Node::Var(name) => match s.find(name) {
            None => pattern.same(term),
            Some(image) => image.same(term),
        },
        Node::Quote(_) => pattern.same(term),
        Node::Call(function, patterns) => match term.node() {
            Node::Call(name, args) => {
                function.same(name) && are_instances(args.as_slice(), patterns.as_slice(), s)
            }
            _ => false,
        },
    }
}

/// Whether the term is `(< m' m)`, where m is the measure and m' it under the substitution.
#[tactic(auto, using(crate::proofs::Cases::forms))]
fn is_less(term: &Term, measure: &Term, s: &Subst) -> bool
    ensures { result ≡ same_tm (call2 (codes "<") (substitute (by_pairs s.now) measure.now) measure.now) term.now }
{
    match less_sides(term) {
        None => false,
        Some((left, right)) => is_instance(left, measure, s) && measure.same(right),
    }
}

fn are_all(terms: &[Term], term: &Term) -> bool
    ensures { result ≡ list_all (same_tm term.now) terms.now }
{
    terms.iter().all(|other| term.same(other))
}

/// The cases of a step, each with what is proved in it.
#[tactic(auto, using(crate::proofs::Cases::cases))]
pub(crate) fn paired(
    alloc: Global,
    cases: &[InductionCase],
    falls: &[Proved],
) -> Result<InductCases, Memory>
    requires { length cases.now ≡ length falls.now }
    ensures cases { IfOk result (λ cs. cases_of cs ≡ cases.now) }
    ensures falls { IfOk result (λ cs. falls_of cs ≡ falls.now) }
{
    let mut paired = Seq::new(alloc);
    for i in 0..cases.len() {
        paired.push(InductCase {
            test: cases[i].test.share()?,
            subst: cases[i].subst.copy(alloc)?,
            falls: falls[i].share()?,
        })?;
    }
    Ok(paired)
}

/// The cases as a step has them.
#[tactic(auto, using(crate::proofs::Cases::cases))]
pub(crate) fn step_cases(alloc: Global, cases: &[InductCase]) -> Result<InductionCases, Memory>
    ensures { IfOk result (λ cs. cs ≡ cases_of cases.now) }
{
    let mut all = Seq::new(alloc);
    for case in cases {
        all.push(InductionCase {
            test: case.test.share()?,
            subst: case.subst.copy(alloc)?,
        })?;
    }
    Ok(all)
}

/// What is proved in the cases is what its proofs conclude.
#[tactic(auto, using(crate::proofs::Cases::concluded))]
pub(crate) fn cases_conclude(world: &World, cases: &[InductCase])
    requires { AllIn world.now (falls_of cases.now) }
    ensures { all_concluded world.now (trees (proofs_of (falls_of cases.now))) ≡ Some (sequents_of (falls_of cases.now)) }
{
    for case in cases {
        let _sequent = case.falls.sequent();
    }
}
