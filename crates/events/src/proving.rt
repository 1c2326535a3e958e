//! The conditions of an event, proved one after the other.

ghost use Rattle.std.specs.Prelude.{◌≡◌, ◌++◌, IfOk};
ghost use Rattle.events.specs.declared.clauses.Way.TheVariants.{ByProof, ByHints};
ghost use Rattle.terms.specs.Worlds.{FitsSequent};
ghost use Rattle.reduction_proofs.specs.Proving.{FitsHints};
ghost use Rattle.events.specs.Laws.{ConditionsFit};
ghost use Rattle.events.specs.view.Halts.{IsWrong, IsStuck, IsStopped, FitsWay, FitWays, ProvesOne, ProvesAfter};

use crate::clauses::Way;
use crate::halt::Halt;
use crate::refusal::Refusal;
use hint_prover::{ProveError, Reduction, prove};
use hints::Hints;
use kernel::{CheckError, Proved, RuleName, check};
use lisp_data::{Code, Memory};
use plans::{Condition, ProvedList, proves};
use proof_objects::Proof;
use std::alloc::Global;
use worlds::World;

/// A condition's proof is wrong at a node.
fn wrong(condition: &Condition, node: u32, rule: RuleName) -> Halt
    ensures { IsWrong condition.now.name node rule result }
{
    match condition.name.share() {
        Ok(condition) => Halt::Refused(Refusal::ProofWrong {
            condition,
            node,
            rule,
        }),
        Err(_) => Halt::Memory,
    }
}

/// A condition isn't proved by its hints.
fn stuck(condition: &Condition, reduction: Reduction) -> Halt
    ensures { IsStuck condition.now.name reduction result }
{
    match condition.name.share() {
        Ok(condition) => Halt::Refused(Refusal::NotProved {
            condition,
            reduction,
        }),
        Err(_) => Halt::Memory,
    }
}

/// A rule of a condition's proof computes, and can't go on at a node.
fn stopped(condition: &Condition, node: u32, code: Code) -> Halt
    ensures { IsStopped condition.now.name node code result }
{
    match condition.name.share() {
        Ok(condition) => Halt::Refused(Refusal::AtNode {
            code,
            condition,
            node,
        }),
        Err(_) => Halt::Memory,
    }
}

/// Proves a condition in the world by a proof.
fn prove_by(
    alloc: Global,
    world: &World,
    condition: &Condition,
    proof: &Proof,
) -> Result<Proved, Halt>
    ensures { ProvesOne world.now condition.now (ByProof proof.now) result }
{
    match check(alloc, world, proof) {
        Ok(proved) => {
            if proves(proved.sequent(), &condition.sequent) {
                Ok(proved)
            } else {
                Err(wrong(condition, proof.steps(), RuleName::Claim))
            }
        }
        Err(error) => match error {
            CheckError::ProofWrong { node, rule } => Err(wrong(condition, node, rule)),
            CheckError::Limit { node, code } => Err(stopped(condition, node, code)),
            CheckError::Memory => Err(Halt::Memory),
        },
    }
}

/// Proves a condition in the world by hints.
#[tactic(auto, using(crate::proofs::ProvingLemmas::reductions))]
fn prove_by_hints(
    alloc: Global,
    world: &World,
    condition: &Condition,
    hints: &Hints,
) -> Result<Proved, Halt>
    requires fits { FitsSequent world.now.functions condition.now.sequent }
    requires hints { FitsHints world.now condition.now.sequent.universals hints.now }
    ensures { ProvesOne world.now condition.now (ByHints hints.now) result }
{
    match prove(alloc, world, &condition.sequent, hints) {
        Ok(proved) => Ok(proved),
        Err(error) => match error {
            ProveError::NotProved(reduction) => Err(stuck(condition, reduction)),
            ProveError::StepLimit => Err(Halt::named(Code::StepLimit, &condition.name)),
            ProveError::Memory => Err(Halt::Memory),
        },
    }
}

/// Proves a condition in the world, in its way.
fn prove_one(alloc: Global, world: &World, condition: &Condition, way: &Way) -> Result<Proved, Halt>
    requires fits { FitsSequent world.now.functions condition.now.sequent }
    requires way { FitsWay world.now condition.now.sequent.universals way.now }
    ensures { ProvesOne world.now condition.now way.now result }
{
    match way {
        Way::ByProof(proof) => prove_by(alloc, world, condition, proof),
        Way::ByHints(hints) => prove_by_hints(alloc, world, condition, hints),
    }
}

/// Proves the conditions in order, and puts their proofs behind those that there are.
#[tactic(auto, using(crate::proofs::ProvingLemmas::proving))]
pub(crate) fn prove_all(
    alloc: Global,
    world: &World,
    conditions: &[Condition],
    ways: &[Way],
    mut before: ProvedList,
) -> Result<ProvedList, Halt>
    requires fits { ConditionsFit world.now conditions.now }
    requires ways { FitWays world.now conditions.now ways.now }
    ensures { ProvesAfter world.now conditions.now ways.now before result }
{
    let mut rest = conditions;
    let mut others = ways;
    while let [condition, more @ ..] = rest {
        let [way, left @ ..] = others else {
            return Err(Halt::not_an_event());
        };
        let proved = prove_one(alloc, world, condition, way)?;
        before.push(proved)?;
        rest = more;
        others = left;
    }
    Ok(before)
}

/// Puts further proofs behind those that there are.
pub(crate) fn with_further(mut proofs: ProvedList, further: &[Proved]) -> Result<ProvedList, Memory>
    ensures { IfOk result (λ all. all ≡ proofs ++ further.now) }
{
    for proof in further {
        proofs.push(proof.share()?)?;
    }
    Ok(proofs)
}
