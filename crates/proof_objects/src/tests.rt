//! Proofs as they run.

ghost use Rattle.std.specs.Prelude.{◌≡◌, ◌+◌, IfOk};
ghost use Rattle.proof_objects.specs.ProofTrees.{steps};

use super::*;
use lisp_data::{Seq, Symbol, Value};
use std::alloc::Global;
use std::test::Fail;
use terms::{Path, Term};

#[test]
fn makes_and_shares(rt: HostRuntime) -> Result<(), Fail> {
    let alloc = rt.alloc();
    let call = Term::quote(alloc, Value::Sym(Symbol::new(alloc, "T")?))?;
    let mut subproofs = Seq::new(alloc);
    subproofs.push(Proof::new(alloc, Step::Unfold(call.share()?), Seq::new(alloc))?)?;
    subproofs.push(Proof::new(alloc, Step::Refl(call), Seq::new(alloc))?)?;
    let step = Step::Replace(Path::from_slice(alloc, &[2, 1])?);
    let proof = Proof::new(alloc, step, subproofs)?.share()?;
    assert_eq!(rt; proof.node().subproofs.len(), 2);
    assert_eq!(rt; proof.node().step.rule().number(), 3);
    Ok(())
}

/// One more step on a proof, which is its first subproof; the second is a leaf.
fn on(alloc: Global, proof: Proof) -> Result<Proof, Fail>
    ensures { IfOk result (λ it. steps it ≡ steps proof + 2) }
{
    let mut subproofs = Seq::new(alloc);
    subproofs.push(proof)?;
    subproofs.push(Proof::new(alloc, Step::Discharge, Seq::new(alloc))?)?;
    let proof = Proof::new(alloc, Step::ImpliesOut, subproofs)?;
    Ok(proof)
}

#[test]
fn takes_a_deep_proof(rt: HostRuntime) -> Result<(), Fail> {
    let alloc = rt.alloc();
    let mut proof = Proof::new(alloc, Step::Cut, Seq::new(alloc))?;
    for _ in 0..100_000u32 {
        proof = on(alloc, proof)?;
    }
    assert_eq!(rt; proof.steps(), 200_001);
    let same = proof.share()?;
    let answers = [
        same.has_rule(10),
        same.has_rule(16),
        same.has_rule(18),
        same.has_rule(9),
        same.has_rule(32),
        same.has_measure(),
    ];
    assert_eq!(rt; answers, [true, true, true, false, false, false]);
    drop(proof);
    assert_eq!(rt; same.node().subproofs.len(), 2);
    Ok(())
}

#[test]
fn counts_shared_subproofs_at_each_place(rt: HostRuntime) -> Result<(), Fail> {
    let alloc = rt.alloc();
    let mut proof = Proof::new(alloc, Step::Cut, Seq::new(alloc))?;
    for _ in 0..40 {
        let mut subproofs = Seq::new(alloc);
        subproofs.push(proof.share()?)?;
        subproofs.push(proof)?;
        proof = Proof::new(alloc, Step::ImpliesOut, subproofs)?;
    }
    assert!(rt; proof.has_rule(10));
    Ok(())
}
