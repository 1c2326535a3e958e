//! Hints: the rules of a reduction, what hint steps ask for, and the start of the reduction.
#![tactic(auto)]

mod build;
mod errors;
mod facts;
mod formulas;
mod hint;
mod reading;
mod starting;
mod steps;

pub use errors::HintError;
pub use facts::{Facts, says};
pub use formulas::rule_of;
pub use hint::{Fact, Hints, Scheme, Use, Uses};
pub use starting::{as_variables, bind, calls_of, conjunction, images, reduce_by, start};
