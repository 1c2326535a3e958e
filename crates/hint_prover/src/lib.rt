//! The prover: a condition is reduced by its hints, and a reduction that closes gives a proof. Parts of proofs, and the check of one that proves
//! its condition, are here for other ways to a proof.
#![tactic(auto)]

mod derived;
mod errors;
mod formulas;
mod prover;
mod reasons;
mod starting;
mod trees;
mod way_back;

pub use derived::{back, first_part, second_part, turned};
pub use errors::{ProveError, Reduction};
pub use formulas::{conditional, equation, implication};
pub use prover::{MAX_STEPS, checked, prove};
pub use starting::{by_calls, cut_conjunction};
pub use trees::{
    by_axiom, by_body, cases, cut, hyp, if_false, if_true, implies_in, implies_out, of_iso, owed,
    refl, replace, under,
};
