//! Which variables a form may name.

use lisp_data::Symbols;

/// Which variables a term may have.
#[derive(Drop)]
pub enum Scope<'a> {
    Any,
    Only(&'a Symbols),
}
