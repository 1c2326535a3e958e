//! The limits of a term.

/// The most variables, quoted values and calls of a term.
pub const MAX_NODES: u64 = 100_000;

/// The most calls that lie within one another.
pub const MAX_LEVELS: u64 = 1_000;
