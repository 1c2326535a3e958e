//! Which symbols are names (docs/SYNTAX.md, "Names").

ghost use Rattle.std.specs.Prelude.{◌≡◌};
ghost use Rattle.term_forms.specs.Names as spec;

use lisp_data::Symbol;

fn begins_with(byte: u8, name: &[u8]) -> bool
    ensures { result ≡ spec.begins_with byte name.now }
{
    match name {
        [first, ..] => byte == *first,
        [] => false,
    }
}

/// T, NIL, or a keyword.
fn is_constant_name(name: &[u8]) -> bool
    ensures { result ≡ spec.is_constant_name name.now }
{
    name == b"T".as_slice() || name == b"NIL".as_slice() || begins_with(b':', name)
}

#[tactic(auto, using(crate::proofs::NameLemmas::last_byte))]
fn ends_with(byte: u8, name: &[u8]) -> bool
    ensures { result ≡ spec.ends_with byte name.now }
{
    match name {
        [.., last] => byte == *last,
        [] => false,
    }
}

/// A symbol other than T, NIL and a keyword (docs/SYNTAX.md, "Names").
pub fn is_function_name(name: &Symbol) -> bool
    ensures { result ≡ spec.is_function_name name.now }
{
    !is_constant_name(name.text().as_bytes())
}

/// A function name that begins with no `&`, and doesn't begin and end with `*` (docs/SYNTAX.md, "Names").
pub fn is_variable_name(name: &Symbol) -> bool
    ensures { result ≡ spec.is_variable_name name.now }
{
    let text = name.text().as_bytes();
    !is_constant_name(text)
        && !begins_with(b'&', text)
        && !(begins_with(b'*', text) && ends_with(b'*', text))
}
