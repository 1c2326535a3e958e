//! What a proof keeps of its steps, so that no question on the whole proof walks through it.

ghost use Rattle.std.specs.Prelude.{◌≡◌, ◌<◌, ◌^◌};
ghost use Rattle.proof_objects.specs.ProofTrees.{ProofTree, By, Trees, NoMore, steps, has_rule, has_measure};
ghost use Rattle.proof_objects.specs.view.Summaries.{Sums, SumsIn, IsBoth};

use crate::step::Step;

/// What is known of the steps of a proof, or of a list of proofs.
#[derive(Clone, Copy)]
pub(crate) struct Summary {
    /// How many, or the largest number that fits.
    count: u32,
    /// The bits of their rules' numbers.
    rules: u32,
    /// Whether one cites what a measure owes.
    owed: bool,
}

impl Summary {
    /// Of no steps.
    pub(crate) fn none() -> Summary
        ensures { SumsIn result NoMore }
    {
        Summary {
            count: 0,
            rules: 0,
            owed: false,
        }
    }

    /// Of the steps of both.
    pub(crate) fn and(self, other: Summary) -> Summary
        ensures { IsBoth self other result }
    {
        Summary {
            count: self.count.saturating_add(other.count),
            rules: self.rules | other.rules,
            owed: self.owed || other.owed,
        }
    }

    /// Of a step and those of its subproofs.
    #[tactic(auto, using(crate::proofs::Summaries::number_small))]
    pub(crate) fn with(self, step: &Step) -> Summary
        ensures { (ps : Trees) → SumsIn self ps → Sums result (By step.now ps) }
    {
        Summary {
            count: self.count.saturating_add(1),
            rules: self.rules | (1 << step.rule().number()),
            owed: self.owed || step.cites_measure(),
        }
    }

    pub(crate) fn steps(self) -> u32
        ensures { (p : ProofTree) → Sums self p → steps p < 2 ^ 32 → result ≡ steps p }
    {
        self.count
    }

    #[tactic(auto, using(crate::proofs::Summaries::bit_found))]
    pub(crate) fn has_rule(self, rule: u32) -> bool
        ensures { (p : ProofTree) → Sums self p → result ≡ has_rule rule p }
    {
        rule < 32 && (self.rules >> rule) & 1 == 1
    }

    pub(crate) fn has_measure(self) -> bool
        ensures { (p : ProofTree) → Sums self p → result ≡ has_measure p }
    {
        self.owed
    }
}
