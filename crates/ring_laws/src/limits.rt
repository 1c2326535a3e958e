//! The limits of a comparison.

/// The most that a norm is: 2^127 - 1.
pub const MAX_NORM: u128 = 170_141_183_460_469_231_731_687_303_715_884_105_727;

/// The most monomials with a coefficient other than 0.
pub const MAX_MONOMIALS: usize = 4_096;
