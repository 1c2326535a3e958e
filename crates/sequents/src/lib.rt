//! Lists of terms without repeats, and sequents with functions in the place of function variables.
#![tactic(auto)]

mod instances;
mod joins;

pub use instances::{renamed, terms_of};
pub use joins::{only, with_term, without_repeats};
