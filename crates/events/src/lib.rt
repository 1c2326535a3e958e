//! Events of every kind by one frame: what an event is, its checks in order, what it makes, its proofs and its lines.
#![tactic(auto)]

mod clauses;
mod definitions;
mod functions;
mod halt;
mod handle;
mod instances;
mod isomorphisms;
mod kind;
mod kinds;
mod laws;
mod lines;
mod names;
mod orders;
mod owed;
mod own;
mod proving;
mod redundancy;
mod refusal;
mod shown;
mod steps;
mod translated;

pub use handle::EventProofs;
pub use laws::{accepted_is_sound, printed_is_true, proof_for_each, value_triples_print};
pub use lines::refused_text;
pub use plans::ProvedList;
pub use refusal::Refusal;
pub use steps::{Lines, StepAnswer, step};
