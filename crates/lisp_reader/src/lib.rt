//! The reader of books (docs/SYNTAX.md).
#![tactic(auto)]

mod laws;
mod limits;
mod print;
mod read;
mod reader;
mod token;
mod value;

pub use laws::{
    calls_read_in_order, faults_are_first, forms_are_read_again, grammar_is_a_relation,
    prints_are_texts, texts_are_read, values_are_read_again,
};
pub use limits::{MAX_BOOK, MAX_FORMS, MAX_NESTING};
pub use print::{print_form, print_value};
pub use read::ReadError;
pub use reader::{FormReader, Located};
pub use value::value_of;
