//! Proofs: shared trees that contracts see without pointers.
#![tactic(auto)]

mod proof;
mod rule;
mod step;
mod summary;

pub use proof::{Proof, ProofNode};
pub use rule::Rule;
pub use step::{InductionCase, InductionCases, Step};

#[cfg(test)]
mod tests;
