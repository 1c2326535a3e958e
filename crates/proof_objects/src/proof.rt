//! Proofs, as steps with their subproofs.

ghost use Rattle.std.specs.Prelude.{◌≡◌, ◌<◌, ◌^◌, IfOk};
ghost use Rattle.proof_objects.specs.ProofTrees.{By, trees, steps, has_rule, has_measure};
ghost use Rattle.proof_objects.specs.view.ProofView.{tree_of};
ghost use Rattle.proof_objects.specs.view.Summaries.{Sums, SumsIn};

use crate::step::Step;
use crate::summary::Summary;
use lisp_data::{Memory, Seq};
use std::alloc::Global;
use std::marker::Model;
use std::rc::Rc;

/// A proof, shared. Contracts see it as plain data. What it concludes is said in docs/KERNEL.md.
#[cycle(proof)]
pub struct Proof {
    shared: Rc<Shared>,
}

/// The last step of a proof, with the subproofs in order.
#[cycle(proof)]
#[derive(Drop)]
pub struct ProofNode {
    pub step: Step,
    pub subproofs: Seq<Proof>,
}

/// A node with what is known of its whole proof, and one more owner of each of its subproofs, so that a deep proof is let
/// go in a loop.
#[cycle(proof)]
#[derive(Drop)]
struct Shared {
    node: Rc<ProofNode>,
    summary: Summary,
    owners: Vec<Proof>,
}

// As a loop, since a derived one would call itself once for each step of the way down. It does so where no memory is left.
impl Drop for Proof {
    #[cycle(proof)]
    fn drop(mut self) {
        let mut left = {
            let Proof { shared } = self;
            let Some(shared) = Rc::into_inner(shared) else {
                return;
            };
            let Shared {
                node: _,
                summary: _,
                owners,
            } = shared;
            owners
        };
        while let Some(next) = left.pop() {
            self = next;
            let Proof { shared } = self;
            let Some(shared) = Rc::into_inner(shared) else {
                continue;
            };
            let Shared {
                node: _,
                summary: _,
                mut owners,
            } = shared;
            let _moved = left.append(&mut owners);
        }
    }
}

impl Model for Proof {
    ghost use Rattle.proof_objects.specs.ProofTrees.{ProofTree, tree_code, depth};

    ghost Value = { ProofTree };

    ghost coded = { tree_code };

    ghost use Rattle.proof_objects.specs.view.ProofView.{tree_of};

    ghost view = { λ p. tree_of p.shared.value.node.value };

    ghost use Rattle.proof_objects.specs.view.Kept.{IsKept};

    ghost invariant = { λ p. IsKept p.shared.value };

    ghost size = { depth };

    ghost use Rattle.proof_objects.specs.view.ProofFalls.{shared_below};

    ghost size_decreases = { λ a h. shared_below a.shared.value h };
}

impl Proof {
    pub fn node(&self) -> &ProofNode
        ensures { tree_of result.now ≡ self.now }
    {
        &self.shared.node
    }

    /// The same proof, with one more owner.
    pub fn share(&self) -> Result<Proof, Memory>
        ensures { IfOk result (λ p. p ≡ self.now) }
    {
        let shared = self.shared.clone()?;
        Ok(Proof { shared })
    }

    /// What is known of its steps.
    fn summary(&self) -> Summary
        ensures { Sums result self.now }
    {
        self.shared.summary
    }

    /// How many steps the proof has. A shared subproof counts at each place where it stands.
    pub fn steps(&self) -> u32
        requires { steps self.now < 2 ^ 32 }
        ensures { result ≡ steps self.now }
    {
        self.summary().steps()
    }

    /// Whether a step of the proof has the rule of this number (docs/KERNEL.md).
    pub fn has_rule(&self, rule: u32) -> bool
        ensures { result ≡ has_rule rule self.now }
    {
        self.summary().has_rule(rule)
    }

    /// Whether a step of the proof cites what a measure owes, or an instance of that.
    pub fn has_measure(&self) -> bool
        ensures { result ≡ has_measure self.now }
    {
        self.summary().has_measure()
    }
}

/// One more owner of each proof.
fn owners_of(alloc: Global, proofs: &[Proof]) -> Result<Vec<Proof>, Memory>
    ensures { IfOk result (λ owners. owners.items ≡ proofs.now) }
{
    let mut owners = Vec::new(alloc);
    for proof in proofs {
        owners.push(proof.share()?)?;
    }
    Ok(owners)
}

/// What is known of the steps of all.
#[tactic(auto, using(crate::proofs::Summaries::summaries))]
fn summary_of(proofs: &[Proof]) -> Summary
    ensures { SumsIn result (trees proofs.now) }
{
    let mut all = Summary::none();
    for proof in proofs {
        all = all.and(proof.summary());
    }
    all
}

impl Proof {
    /// The proof that ends with this step.
    pub fn new(alloc: Global, step: Step, subproofs: Seq<Proof>) -> Result<Proof, Memory>
        ensures { IfOk result (λ p. p ≡ By step (trees subproofs)) }
    {
        let summary = summary_of(subproofs.as_slice()).with(&step);
        let owners = owners_of(alloc, subproofs.as_slice())?;
        let node = Rc::new(alloc, ProofNode { step, subproofs })?;
        let shared = Rc::new(
            alloc,
            Shared {
                node,
                summary,
                owners,
            },
        )?;
        Ok(Proof { shared })
    }
}
