//! The limits of symbols and values.

/// The longest symbol, in bytes.
pub const MAX_SYMBOL: usize = 255;

/// The longest path of a value, from the value down to an atom.
pub const MAX_PATH: u32 = 4_096;

/// The most pairs of a value.
pub const MAX_PAIRS: u32 = 1_000_000;
