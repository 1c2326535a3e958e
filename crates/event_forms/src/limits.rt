//! The limits of an event.

/// The most formals of a function, and the most arguments of a function variable.
pub const MAX_FORMALS: usize = 16;
