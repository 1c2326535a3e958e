//! The proof of a condition by hints.

ghost use Rattle.std.specs.Prelude.{◌≡◌, IfOk, None, true};
ghost use Rattle.terms.specs.Worlds.{FitsSequent};
ghost use Rattle.plans.specs.Proving.{proves};
ghost use Rattle.reduction.specs.declared.run.Outcome.TheVariants.{Closed};
ghost use Rattle.reduction.specs.Moves.{subgoal};
ghost use Rattle.reduction.specs.Reduction.{next};
ghost use Rattle.reduction_proofs.specs.Proving.{FitsHints, ProvesCondition};
ghost use Rattle.hint_prover.specs.Answers as spec;

use crate::errors::{ProveError, Reduction};
use crate::starting::proof_of;
use hints::{Hints, reduce_by};
use kernel::{CheckError, Proved, check};
use lisp_data::Memory;
use proof_objects::Proof;
use reduction::{Made, Outcome, Subgoal, leaves_are_stuck};
use reduction_proofs::reductions_prove;
use std::alloc::Global;
use terms::Sequent;
use worlds::World;

/// How many steps a reduction may make.
pub const MAX_STEPS: u32 = 10_000;

#[tactic(auto, unfolding(crate::specs::Answers::step_limit))]
fn step_limit() -> u32
    ensures { result ≡ spec.step_limit }
{
    MAX_STEPS
}

/// The subgoal of a condition.
fn subgoal_of(alloc: Global, condition: &Sequent) -> Result<Subgoal, Memory>
    ensures { IfOk result (λ s. s ≡ spec.subgoal_of condition.now) }
{
    let hyps = condition.hyps.copy(alloc)?;
    let goal = condition.goal.share()?;
    Ok(Subgoal { hyps, goal })
}

/// A leaf, with the universals of the condition.
fn leaf_of(alloc: Global, condition: &Sequent, leaf: Subgoal) -> Result<Sequent, Memory>
    ensures { IfOk result (λ s. s ≡ spec.leaf_of condition.now leaf) }
{
    let universals = condition.universals.copy(alloc)?;
    let Subgoal { hyps, goal } = leaf;
    Ok(Sequent {
        universals,
        hyps,
        goal,
    })
}

/// The check of a proof that proves the condition. It is never refused.
#[tactic(auto, using(crate::proofs::Conditions::conditions))]
pub fn checked(
    alloc: Global,
    world: &World,
    condition: &Sequent,
    proof: &Proof,
) -> Result<Proved, Memory>
    requires { ProvesCondition world.now condition.now proof.now }
    ensures world { IfOk result (λ it. it.world ≡ world.now) }
    ensures proves { IfOk result (λ it. proves it.sequent condition.now ≡ true) }
{
    match check(alloc, world, proof) {
        Ok(proved) => Ok(proved),
        Err(CheckError::ProofWrong { node: _, rule: _ }) => unreachable!(),
        Err(CheckError::Limit { node: _, code: _ }) => unreachable!(),
        Err(CheckError::Memory) => Err(Memory),
    }
}

/// The way back from the steps by which the reduction of a condition closes.
fn proved_by(
    alloc: Global,
    world: &World,
    condition: &Sequent,
    hints: &Hints,
    made: &[Made],
) -> Result<Proved, Memory>
    requires fits { FitsSequent world.now.functions condition.now }
    requires hints { FitsHints world.now condition.now.universals hints.now }
    requires closed { spec.reduction_of world.now condition.now hints.now ≡ Closed made.now }
    ensures world { IfOk result (λ it. it.world ≡ world.now) }
    ensures proves { IfOk result (λ it. proves it.sequent condition.now ≡ true) }
{
    world.soundness();
    reductions_prove();
    let subgoal = subgoal_of(alloc, condition)?;
    let proof = proof_of(alloc, world, hints, &subgoal, made)?;
    checked(alloc, world, condition, &proof)
}

/// Proves a condition by its hints: it is reduced, by at most `MAX_STEPS` steps, and a reduction that closes is turned
/// into a proof, which is checked.
pub fn prove(
    alloc: Global,
    world: &World,
    condition: &Sequent,
    hints: &Hints,
) -> Result<Proved, ProveError>
    requires fits { FitsSequent world.now.functions condition.now }
    requires hints { FitsHints world.now condition.now.universals hints.now }
    ensures answers { spec.Answers condition.now (spec.reduction_of world.now condition.now hints.now) result }
    ensures world { IfOk result (λ it. it.world ≡ world.now) }
    ensures proves { IfOk result (λ it. proves it.sequent condition.now ≡ true) }
    ensures stuck { spec.IfNotProved result (λ s. next world.now hints.now.how (subgoal s.hyps s.goal) ≡ None) }
{
    let subgoal = subgoal_of(alloc, condition)?;
    match reduce_by(alloc, world, hints, step_limit(), subgoal)? {
        Outcome::Closed(made) => {
            let proved = proved_by(alloc, world, condition, hints, made.as_slice())?;
            Ok(proved)
        }
        Outcome::Stuck(leaf) => {
            leaves_are_stuck();
            let leaf = leaf_of(alloc, condition, leaf)?;
            Err(ProveError::NotProved(Reduction::new(leaf)))
        }
        Outcome::TooLong => Err(ProveError::StepLimit),
    }
}
