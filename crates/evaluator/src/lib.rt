//! Evaluation of ground terms, with limits and a count of calls, on a stack of its own.
#![tactic(auto)]

mod callees;
mod errors;
mod evaluation;
mod laws;
mod limits;
mod machine;
mod primitives;

pub use errors::EvalError;
pub use evaluation::evaluate;
pub use laws::{counted_values_are_values, counted_values_stay, never_stuck};
pub use limits::MAX_CALLS;

#[cfg(test)]
mod tests;
