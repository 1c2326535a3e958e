//! The check of a whole proof, on a stack of its own, so that no proof is too deep.

ghost use Rattle.std.specs.Prelude.{◌≡◌, ◌≢◌, ◌+◌, ◌*◌, ◌<◌, ◌^◌, IfOk, OnOk, IsErrOf, None, Some};
ghost use Rattle.proof_objects.specs.ProofTrees.{steps, steps_in, trees, subproofs_of};
ghost use Rattle.kernel.specs.Concludes.{concludes, all_concluded, first_bad};
ghost use Rattle.kernel.specs.Conclusion.{IsProvedBy, sequents_of};
ghost use Rattle.kernel.specs.Conclude.{code_of};
ghost use Rattle.proof_objects.specs.ProofTrees.{step_of};
ghost use Rattle.lisp_data.specs.declared.code.Code.TheVariants.{ProofWrong as WrongProof};
ghost use Rattle.kernel.specs.Answers.{IfProofWrong, IfLimitAt, OnRefusal, IsBadAt, IsLimitAt, IfLimit};
ghost use Rattle.kernel.specs.view.Checking as spec;

use crate::conclude::conclude;
use crate::errors::{CheckError, RuleError, RuleName};
use crate::proved::{Proved, Ruled};
use lisp_data::Seq;
use proof_objects::{Proof, Rule};
use std::alloc::Global;
use worlds::World;

/// A proof whose subproofs are being checked: `next` now, and `rest` after it. Those before it conclude the premises.
#[derive(Drop)]
struct Frame<'a> {
    proof: &'a Proof,
    next: &'a Proof,
    rest: &'a [Proof],
    premises: Seq<Proved>,
}

/// What the check does next.
#[derive(Drop)]
enum Control<'a> {
    Check(&'a Proof),
    /// A proof that is checked, for the last frame.
    Give(Proved),
}

/// Where a turn leads.
#[derive(Drop)]
enum Turn<'a> {
    Next(Control<'a>),
    /// The whole proof is checked.
    Over(Proved),
}

/// What waits, the innermost proof last, and how many nodes are checked.
#[derive(Drop)]
struct Checker<'a> {
    frames: Vec<Frame<'a>>,
    nodes: u32,
}

/// What the last step of a proof concludes from what its subproofs do.
fn last_step(alloc: Global, world: &World, proof: &Proof, premises: &[Proved]) -> Ruled
    requires { all_concluded world.now (subproofs_of proof.now) ≡ Some (sequents_of premises.now) }
    ensures ok { IfOk result (λ it. IsProvedBy it world.now proof.now) }
    ensures refused { IsErrOf result RuleError.Refused → (concludes world.now proof.now ≡ None) × (code_of world.now (step_of proof.now) (sequents_of premises.now) ≡ WrongProof) }
    ensures limits { IfLimit result (λ code. (concludes world.now proof.now ≡ None) × (code_of world.now (step_of proof.now) (sequents_of premises.now) ≡ code) × (code ≢ WrongProof)) }
{
    let sequent = conclude(alloc, world, &proof.node().step, premises)?;
    let proved = Proved::concluded(alloc, world, proof.share()?, sequent)?;
    Ok(proved)
}

/// What a rule answered, with the number of its node.
fn numbered(ruled: Ruled, before: u32, rule: Rule) -> Result<(Proved, u32), CheckError>
    ensures ok { IfOk result (λ it. (ruled ≡ Ok it.0) × (it.1 ≡ before + 1)) }
    ensures few { IfOk result (λ it. it.1 < 2 ^ 32) }
    ensures wrong { IfProofWrong result (λ node name. (ruled ≡ Err RuleError.Refused) × (node ≡ before + 1) × (name ≡ RuleName.Rule rule)) }
    ensures limits { IfLimitAt result (λ node code. (ruled ≡ Err (RuleError.Limit code)) × (node ≡ before + 1)) }
{
    let Some(node) = before.checked_add(1) else {
        return Err(CheckError::Memory);
    };
    match ruled {
        Ok(proved) => Ok((proved, node)),
        Err(RuleError::Refused) => Err(CheckError::ProofWrong {
            node,
            rule: RuleName::Rule(rule),
        }),
        Err(RuleError::Limit(code)) => Err(CheckError::Limit { node, code }),
        Err(RuleError::Memory) => Err(CheckError::Memory),
    }
}

/// The last step of a proof, after so many nodes.
fn checked_step(
    alloc: Global,
    world: &World,
    proof: &Proof,
    premises: &[Proved],
    before: u32,
) -> Result<(Proved, u32), CheckError>
    requires { all_concluded world.now (subproofs_of proof.now) ≡ Some (sequents_of premises.now) }
    ensures proved { IfOk result (λ it. IsProvedBy it.0 world.now proof.now) }
    ensures few { IfOk result (λ it. it.1 < 2 ^ 32) }
    ensures says { spec.SaysOutcome (spec.at_step world.now (step_of proof.now) (sequents_of premises.now) before) result }
{
    let ruled = last_step(alloc, world, proof, premises);
    numbered(ruled, before, proof.node().step.rule())
}

impl<'a> Checker<'a> {
    /// The last step of a proof whose subproofs are all checked.
    fn finish(
        &mut self,
        alloc: Global,
        world: &World,
        proof: &'a Proof,
        premises: Seq<Proved>,
    ) -> Result<Control<'a>, CheckError>
        requires all { all_concluded world.now (subproofs_of proof.now) ≡ Some (sequents_of premises) }
        requires linked { spec.Linked world.now self.old.frames.items proof.now }
        requires few { self.old.nodes < 2 ^ 32 }
        ensures goes { spec.Goes world.now (spec.root_of self.old.frames.items proof.now) (spec.resumed world.now self.old.frames.items (spec.at_step world.now (step_of proof.now) (sequents_of premises) self.old.nodes)) (spec.effort self.old.frames.items 2) self.new result }
        ensures few { self.new.nodes < 2 ^ 32 }
    {
        match checked_step(alloc, world, proof, premises.as_slice(), self.nodes) {
            Ok((proved, nodes)) => {
                self.nodes = nodes;
                Ok(Control::Give(proved))
            }
            Err(error) => Err(error),
        }
    }

    /// Goes on with the rest of a proof's subproofs, or with its last step.
    fn proceed(
        &mut self,
        alloc: Global,
        world: &World,
        proof: &'a Proof,
        rest: &'a [Proof],
        premises: Seq<Proved>,
    ) -> Result<Control<'a>, CheckError>
        requires left { spec.rest_of world.now premises rest.now ≡ all_concluded world.now (subproofs_of proof.now) }
        requires linked { spec.Linked world.now self.old.frames.items proof.now }
        requires few { self.old.nodes < 2 ^ 32 }
        ensures goes { spec.Goes world.now (spec.root_of self.old.frames.items proof.now) (spec.resumed world.now self.old.frames.items (spec.gathered world.now (step_of proof.now) (sequents_of premises) (trees rest.now) self.old.nodes)) (spec.effort self.old.frames.items (2 * steps_in (trees rest.now) + 2)) self.new result }
        ensures few { self.new.nodes < 2 ^ 32 }
    {
        let [next, rest @ ..] = rest else {
            return self.finish(alloc, world, proof, premises);
        };
        self.frames.push(Frame {
            proof,
            next,
            rest,
            premises,
        })?;
        Ok(Control::Check(next))
    }

    /// Goes on with what waited for a proof.
    fn resume(
        &mut self,
        alloc: Global,
        world: &World,
        frame: Frame<'a>,
        proved: Proved,
    ) -> Result<Control<'a>, CheckError>
        requires fits { spec.Fits world.now frame }
        requires linked { spec.Linked world.now self.old.frames.items frame.proof.now }
        requires proved { IsProvedBy proved world.now frame.next.now }
        requires few { self.old.nodes < 2 ^ 32 }
        ensures goes { spec.Goes world.now (spec.root_of self.old.frames.items frame.entry.proof.now) (spec.resumed world.now self.old.frames.items (spec.continue world.now frame.entry proved.sequent self.old.nodes)) (spec.effort self.old.frames.items (spec.load frame.entry + 1)) self.new result }
        ensures few { self.new.nodes < 2 ^ 32 }
    {
        let Frame {
            proof,
            next: _,
            rest,
            mut premises,
        } = frame;
        premises.push(proved)?;
        self.proceed(alloc, world, proof, rest, premises)
    }

    /// One turn.
    fn turn(
        &mut self,
        alloc: Global,
        world: &World,
        control: Control<'a>,
    ) -> Result<Turn<'a>, CheckError>
        requires linked { spec.Linked world.now self.old.frames.items (spec.subject control) }
        requires given { spec.IsGiven world.now control }
        requires few { self.old.nodes < 2 ^ 32 }
        ensures goes { spec.Turns world.now (spec.root_of self.old.frames.items (spec.subject control.entry)) (spec.resumed world.now self.old.frames.items (spec.now world.now control.entry self.old.nodes)) (spec.effort self.old.frames.items (spec.weight control.entry)) self.new result }
        ensures few { self.new.nodes < 2 ^ 32 }
    {
        match control {
            Control::Check(proof) => {
                let subproofs = proof.node().subproofs.as_slice();
                match self.proceed(alloc, world, proof, subproofs, Seq::new(alloc)) {
                    Ok(next) => Ok(Turn::Next(next)),
                    Err(error) => Err(error),
                }
            }
            Control::Give(proved) => match self.frames.pop() {
                None => Ok(Turn::Over(proved)),
                Some(frame) => match self.resume(alloc, world, frame, proved) {
                    Ok(next) => Ok(Turn::Next(next)),
                    Err(error) => Err(error),
                },
            },
        }
    }
}

/// Checks a proof in a world, node by node. `Memory` comes also where a node's number doesn't fit.
pub fn check(alloc: Global, world: &World, proof: &Proof) -> Result<Proved, CheckError>
    ensures ok { IfOk result (λ it. IsProvedBy it world.now proof.now) }
    ensures no_bad { IfOk result (λ it. first_bad world.now 0 proof.now ≡ None) }
    ensures wrong { IfProofWrong result (λ node rule. IsBadAt (first_bad world.now 0 proof.now) node rule) }
    ensures limits { IfLimitAt result (λ node code. IsLimitAt (first_bad world.now 0 proof.now) node code) }
    ensures nothing { OnRefusal result (concludes world.now proof.now ≡ None) }
    ensures few { OnOk result (steps proof.now < 2 ^ 32) }
{
    let mut checker = Checker {
        frames: Vec::new(alloc),
        nodes: 0,
    };
    let mut control = Control::Check(proof);
    loop {
        match checker.turn(alloc, world, control) {
            Ok(Turn::Next(next)) => control = next,
            Ok(Turn::Over(proved)) => return Ok(proved),
            Err(error) => return Err(error),
        }
    }
}
