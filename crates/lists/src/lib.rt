//! Lists that contracts see as the lists of their items, and the error of an allocation that fails.
#![tactic(auto)]

mod memory;
mod seq;
mod share;
#[cfg(test)]
mod tests;

pub use memory::Memory;
pub use seq::Seq;
pub use share::Share;

/// A list of bytes.
pub type Bytes = Seq<u8>;

/// Bytes that are read by people.
pub type Text = Seq<u8>;
