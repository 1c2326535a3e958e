//! The steps of proofs: each rule with all that it is given besides its subproofs.

ghost use Rattle.std.specs.Prelude.{◌≡◌};
ghost use Rattle.proof_objects.specs.StepRules.{rule_of, cites_measure};

use crate::rule::Rule;
use lisp_data::Seq;
use terms::{FactName, FunPairs, Path, Subst, Term, Terms};

/// A step of a proof: a rule, with all that it is given besides its subproofs. What it concludes is said in docs/KERNEL.md.
pub enum Step {
    /// A term follows from itself as a hypothesis.
    Hyp(Term),
    /// A term equals itself.
    Refl(Term),
    /// By the equation of the first subproof, one side for the other at a path of the second one's goal.
    Replace(Path),
    /// A call equals its function's body at the arguments.
    Unfold(Term),
    /// A term without variables equals its value.
    Eval(Term),
    /// Terms for the variables of what is proved.
    Substitute(Subst),
    /// An `if` whose test is proved equals its second argument; the second and the third are given.
    IfTrue(Term, Term),
    /// An `if` whose test is proved false equals its third argument; the second and the third are given.
    IfFalse(Term, Term),
    /// The same goal from a term as a hypothesis and from its negation.
    Cases(Term),
    /// The goal of the second subproof, whose hypothesis the first proves.
    Cut,
    /// The same goal with more hypotheses and more universals.
    Weaken(Terms, Terms),
    /// Any goal, where the second subproof's goal is the negation of the first one's.
    Contradict(Term),
    /// The axiom of a number, with terms for its variables.
    Axiom(u32, Subst),
    /// Two arithmetic terms are equal, as they are the same polynomial.
    Ring(Term, Term),
    /// An implication from a term, which is no hypothesis any more.
    ImpliesIn(Term),
    /// The right side of the first subproof's implication, whose left side the second proves.
    ImpliesOut,
    /// A term that is assumed to be true for all values of its variables, with terms for them.
    Universal(Term, Subst),
    /// What the second subproof says, where the first proves one of its universals.
    Discharge,
    /// A fact of the world: a theorem, what a measure owes, or a condition of an isomorphism.
    Theorem(FactName),
    /// The same for functions in the place of function variables.
    Instance(FactName, FunPairs),
    /// Induction on a measure, with the cases in order.
    Induct(Term, InductionCases),
}

/// A case of an induction: what is known there, and what becomes of the variables in its induction hypothesis.
pub struct InductionCase {
    pub test: Term,
    pub subst: Subst,
}

/// A list of cases.
pub type InductionCases = Seq<InductionCase>;

impl Drop for InductionCase {
    fn drop(self) {
        let InductionCase { test: _, subst: _ } = self;
    }
}

impl Drop for Step {
    fn drop(self) {
        match self {
            Step::Hyp(_) => {}
            Step::Refl(_) => {}
            Step::Replace(_) => {}
            Step::Unfold(_) => {}
            Step::Eval(_) => {}
            Step::Substitute(_) => {}
            Step::IfTrue(_, _) => {}
            Step::IfFalse(_, _) => {}
            Step::Cases(_) => {}
            Step::Cut => {}
            Step::Weaken(_, _) => {}
            Step::Contradict(_) => {}
            Step::Axiom(_, _) => {}
            Step::Ring(_, _) => {}
            Step::ImpliesIn(_) => {}
            Step::ImpliesOut => {}
            Step::Universal(_, _) => {}
            Step::Discharge => {}
            Step::Theorem(_) => {}
            Step::Instance(_, _) => {}
            Step::Induct(_, _) => {}
        }
    }
}

impl Step {
    /// Its rule.
    pub fn rule(&self) -> Rule
        ensures { result ≡ rule_of self.now }
    {
        match self {
            Step::Hyp(_) => Rule::Hyp,
            Step::Refl(_) => Rule::Refl,
            Step::Replace(_) => Rule::Replace,
            Step::Unfold(_) => Rule::Unfold,
            Step::Eval(_) => Rule::Eval,
            Step::Substitute(_) => Rule::Substitute,
            Step::IfTrue(_, _) => Rule::IfTrue,
            Step::IfFalse(_, _) => Rule::IfFalse,
            Step::Cases(_) => Rule::Cases,
            Step::Cut => Rule::Cut,
            Step::Weaken(_, _) => Rule::Weaken,
            Step::Contradict(_) => Rule::Contradict,
            Step::Axiom(_, _) => Rule::Axiom,
            Step::Ring(_, _) => Rule::Ring,
            Step::ImpliesIn(_) => Rule::ImpliesIn,
            Step::ImpliesOut => Rule::ImpliesOut,
            Step::Universal(_, _) => Rule::Universal,
            Step::Discharge => Rule::Discharge,
            Step::Theorem(_) => Rule::Theorem,
            Step::Instance(_, _) => Rule::Instance,
            Step::Induct(_, _) => Rule::Induct,
        }
    }

    /// Whether it cites what a measure owes, or an instance of that.
    pub(crate) fn cites_measure(&self) -> bool
        ensures { result ≡ cites_measure self.now }
    {
        match self {
            Step::Theorem(FactName::Measure(_, _)) => true,
            Step::Instance(FactName::Measure(_, _), _) => true,
            _ => false,
        }
    }
}
