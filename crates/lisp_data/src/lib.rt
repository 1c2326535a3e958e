//! Symbols, values and forms: shared data that contracts see without pointers.
#![tactic(auto)]

mod atom;
mod code;
mod detail;
mod form;
mod laws;
mod limits;
mod symbol;
#[cfg(test)]
mod tests;
mod value;

pub use atom::{Atom, in_atom};
pub use code::Code;
pub use detail::Detail;
pub use form::{Form, Forms};
pub use laws::numbers_begin;
pub use limits::{MAX_PAIRS, MAX_PATH, MAX_SYMBOL};
pub use lists::{Bytes, Memory, Seq, Share, Text};
pub use symbol::{Symbol, SymbolError};
pub use value::{PairNode, Value, ValueError};

/// A list of symbols.
pub type Symbols = Seq<Symbol>;

/// A list of values.
pub type Values = Seq<Value>;
