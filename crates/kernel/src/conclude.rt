//! What each step concludes from its premises: an arm for each rule.

ghost use Rattle.std.specs.Prelude.{◌≢◌, [], ◌∷◌, length};
ghost use Rattle.kernel.specs.Conclude.{conclude, code_alone, code_of};
ghost use Rattle.lisp_data.specs.declared.code.Code.TheVariants.{ProofWrong as WrongProof};
ghost use Rattle.kernel.specs.Conclusion.{sequents_of};
ghost use Rattle.kernel.specs.Answers.{SaysStep};
ghost use Rattle.kernel.specs.Induction.{induced};

use crate::axioms::axiom_instance;
use crate::equations::{if_false, if_true, reflexive, replaced, unfolded};
use crate::errors::RuleError;
use crate::evaluating::computed;
use crate::facts::{fact_instance, fact_of};
use crate::induction::{induced, paired};
use crate::logic::{
    by_cases, contradicted, cut, detached, discharged, hypothesis, implied, instantiated,
    substituted, weakened,
};
use crate::proved::Proved;
use crate::ring::ringed;
use proof_objects::{InductionCases, Step};
use std::alloc::Global;
use terms::{Sequent, Term};
use worlds::World;

fn from_none(alloc: Global, world: &World, step: &Step) -> Result<Sequent, RuleError>
    ensures { SaysStep (conclude world.now step.now []) (code_alone world.now step.now) result }
{
    match step {
        Step::Hyp(p) => hypothesis(alloc, world, p),
        Step::Refl(a) => reflexive(alloc, world, a),
        Step::Unfold(call) => unfolded(alloc, world, call),
        Step::Eval(a) => computed(alloc, world, a),
        Step::Axiom(number, s) => axiom_instance(alloc, world, *number, s),
        Step::Ring(a, b) => ringed(alloc, world, a, b),
        Step::Universal(u, s) => instantiated(alloc, world, u, s),
        Step::Theorem(fact) => fact_of(alloc, world, fact),
        Step::Instance(fact, pairs) => fact_instance(alloc, world, fact, pairs),
        _ => Err(RuleError::Refused),
    }
}

fn from_one(alloc: Global, world: &World, step: &Step, p: &Sequent) -> Result<Sequent, RuleError>
    ensures { SaysStep (conclude world.now step.now (p.now ∷ [])) WrongProof result }
{
    match step {
        Step::Substitute(s) => substituted(alloc, world, p, s),
        Step::IfTrue(b, c) => if_true(alloc, world, b, c, p),
        Step::IfFalse(b, c) => if_false(alloc, world, b, c, p),
        Step::Weaken(hyps, universals) => weakened(alloc, world, p, hyps, universals),
        Step::ImpliesIn(h) => implied(alloc, world, h, p),
        _ => Err(RuleError::Refused),
    }
}

#[tactic(auto, using(crate::proofs::Cases::cases))]
fn induction(
    alloc: Global,
    world: &World,
    measure: &Term,
    cases: &InductionCases,
    natural: &Sequent,
    base: &Sequent,
    falls: &[Proved],
) -> Result<Sequent, RuleError>
    ensures { SaysStep (induced world.now.functions measure.now cases.now natural.now base.now (sequents_of falls.now)) WrongProof result }
{
    if cases.len() != falls.len() {
        return Err(RuleError::Refused);
    }
    let cases = paired(alloc, cases.as_slice(), falls)?;
    induced(alloc, world, measure, natural, base, cases.as_slice())
}

fn from_two(
    alloc: Global,
    world: &World,
    step: &Step,
    p: &Sequent,
    q: &Sequent,
) -> Result<Sequent, RuleError>
    ensures { SaysStep (conclude world.now step.now (p.now ∷ q.now ∷ [])) WrongProof result }
{
    match step {
        Step::Replace(path) => replaced(alloc, p, q, path),
        Step::Cases(c) => by_cases(alloc, world, c, p, q),
        Step::Cut => cut(alloc, p, q),
        Step::Contradict(goal) => contradicted(alloc, world, p, q, goal),
        Step::ImpliesOut => detached(alloc, p, q),
        Step::Discharge => discharged(alloc, p, q),
        Step::Induct(measure, cases) => induction(alloc, world, measure, cases, p, q, &[]),
        _ => Err(RuleError::Refused),
    }
}

#[tactic(auto, using(crate::proofs::Arms::arms))]
fn from_more(
    alloc: Global,
    world: &World,
    step: &Step,
    p: &Sequent,
    q: &Sequent,
    rest: &[Proved],
) -> Result<Sequent, RuleError>
    requires { length rest.now ≢ 0 }
    ensures { SaysStep (conclude world.now step.now (p.now ∷ q.now ∷ sequents_of rest.now)) WrongProof result }
{
    match step {
        Step::Induct(measure, cases) => induction(alloc, world, measure, cases, p, q, rest),
        _ => Err(RuleError::Refused),
    }
}

/// What a step concludes from the premises (docs/KERNEL.md).
#[tactic(auto, using(crate::proofs::Arms::arms))]
pub(crate) fn conclude(
    alloc: Global,
    world: &World,
    step: &Step,
    premises: &[Proved],
) -> Result<Sequent, RuleError>
    ensures { SaysStep (conclude world.now step.now (sequents_of premises.now)) (code_of world.now step.now (sequents_of premises.now)) result }
{
    match premises {
        [] => from_none(alloc, world, step),
        [p] => from_one(alloc, world, step, p.sequent()),
        [p, q] => from_two(alloc, world, step, p.sequent(), q.sequent()),
        [p, q, rest @ ..] => from_more(alloc, world, step, p.sequent(), q.sequent(), rest),
    }
}
