//! The texts of proofs: they are read and printed by one table of words.
#![tactic(auto)]

mod errors;
mod forms;
mod given;
mod laws;
mod parts;
mod print;
mod read;
mod steps;
mod words;

pub use errors::ProofError;
pub use forms::{contains, is_among, is_word, items, symbol, text};
pub use laws::{proofs_are_read_again, proofs_are_read_again_in, steps_are_made, words_are_found};
pub use parts::two_symbols;
pub use print::print_proof;
pub use read::read_proof;
pub use words::{Kind, Word};
