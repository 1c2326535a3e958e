//! Forms and texts of terms: which forms are terms, and how terms are written.
#![tactic(auto)]

mod bindings;
mod clauses;
mod counted;
mod limits;
mod macros;
mod naming;
mod print;
mod scope;
mod shapes;
mod translation;
mod translation_laws;

pub use limits::{MAX_LEVELS, MAX_NODES};
pub use naming::{is_function_name, is_variable_name};
pub use print::print_term;
pub use scope::Scope;
pub use translation::{TermError, translate};
pub use translation_laws::{terms_are_read_again, terms_are_translated, translated_terms_fit};
