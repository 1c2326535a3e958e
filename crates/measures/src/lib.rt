//! The recursive calls of a definition with the tests on the way to each, the measure by default, and what a measure
//! owes.
#![tactic(auto)]

mod calls;
mod changes;
mod counts;
mod defaults;
mod errors;
mod owed;
mod shapes;

pub use calls::{Position, RecursiveCall, RecursiveCalls, recursive_calls};
pub use counts::has_obligation;
pub use defaults::default_measure;
pub use errors::MeasureError;
pub use owed::{Sequents, obligations};
pub use shapes::{is_nested, mentions};

#[cfg(test)]
mod tests;
