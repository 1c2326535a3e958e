//! How a condition is left without a proof.

ghost use Rattle.std.specs.Prelude.{◌≡◌};

use lisp_data::Memory;
use std::marker::Model;
use terms::Sequent;

/// The reduction of a condition that ends stuck. Contracts see its stuck leaf.
#[derive(Drop)]
pub struct Reduction {
    stuck: Sequent,
}

impl Model for Reduction {
    ghost use Rattle.terms.specs.declared.sequent.Sequent.{Sequent};
    ghost use Rattle.terms.specs.contracts.sequent.Sequent as sequent;

    ghost Value = { Sequent };

    ghost coded = { sequent.the_row.coded };

    ghost view = { λ r. r.stuck };
}

impl Reduction {
    pub(crate) fn new(stuck: Sequent) -> Reduction
        ensures { result ≡ stuck }
    {
        Reduction { stuck }
    }

    /// The first leaf at which no kind of step applies, with the universals of the condition.
    pub fn stuck(&self) -> &Sequent
        ensures { result.now ≡ self.now }
    {
        &self.stuck
    }
}

/// Why a condition isn't proved.
#[derive(Drop)]
pub enum ProveError {
    /// Its reduction ends stuck.
    NotProved(Reduction),
    /// Its reduction needs more steps than it may make.
    StepLimit,
    Memory,
}

impl From<Memory> for ProveError {
    ghost use Rattle.std.specs.Prelude.{◌≡◌};
    ghost use Rattle.hint_prover.specs.declared.errors.ProveError.TheVariants.{Memory as OutOfMemory};

    ghost from_gives = { λ _ e. e ≡ OutOfMemory };

    fn from(_error: Memory) -> ProveError {
        ProveError::Memory
    }
}
