//! What the proofs of a function on another representation are about.

use crate::maps::Mapped;
use lisp_data::Symbol;
use terms::Definition;
use worlds::World;

/// What the proofs of a function on another representation are about.
#[derive(Clone, Copy)]
pub(crate) struct Parts<'a> {
    /// The world before the event.
    pub world: &'a World,
    /// The old function.
    pub definition: &'a Definition,
    /// The name of the new function.
    pub function: &'a Symbol,
    pub maps: &'a [Mapped],
}
