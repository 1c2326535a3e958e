//! The limits of a book.

/// The longest book, in bytes.
pub const MAX_BOOK: usize = 1_048_576;

/// The most forms of a book, each of which is an event.
pub const MAX_FORMS: usize = 10_000;

/// How many lists and quotes may be open at once.
pub const MAX_NESTING: usize = 200;
