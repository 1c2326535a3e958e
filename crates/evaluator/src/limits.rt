//! The limit of an evaluation.

/// The most calls of definitions that an evaluation may begin.
pub const MAX_CALLS: u32 = 1_000_000;
