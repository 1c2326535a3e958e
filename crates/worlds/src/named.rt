//! What a name stands for in a world.

use terms::{Definition, Iso, Sequent, Specification};

/// What a name stands for. Names share one space, so it is one thing at most (docs/MODEL.md).
#[derive(Clone, Copy)]
pub enum Named<'a> {
    /// A function that every world has, with its number of arguments.
    Primitive(u32),
    /// A function with a definition.
    Definition(&'a Definition),
    /// A function variable, with its number of arguments.
    Variable(u32),
    Theorem(&'a Sequent),
    Specification(&'a Specification),
    Iso(&'a Iso),
}
