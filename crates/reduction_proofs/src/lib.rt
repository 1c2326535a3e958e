//! Laws of the way back from a reduction that closes to a proof.
#![tactic(auto)]

mod laws;

pub use laws::{hints_fit, reductions_prove, steps_prove};
