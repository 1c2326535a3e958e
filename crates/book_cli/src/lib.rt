//! Books: their report, and the run of the program.
#![tactic(auto)]

mod laws;
mod program;
mod progress;
mod report;
mod status;
mod stop;
mod words;

pub use events::{EventProofs, Lines, ProvedList, Refusal, StepAnswer, step};
pub use lisp_reader::{MAX_BOOK, MAX_FORMS};
pub use lists::{Bytes, Seq, Text};
pub use program::{Words, run};
pub use status::Status;
pub use words::print_usage;
