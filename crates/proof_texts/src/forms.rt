//! Forms as lists of forms, and membership in lists of words and symbols.

ghost use Rattle.std.specs.Prelude.{◌≡◌, map, option_map, IfSome};
ghost use Rattle.std.specs.Option.{option_copied};
ghost use Rattle.lisp_data.specs.FormView.{form_of, IsProper, AllProper};
ghost use Rattle.terms.specs.Worlds.{is_in};
ghost use Rattle.proof_texts.specs.Items as spec;

use lisp_data::{Form, Symbol, Symbols};

/// The symbol of a form, if it is one (docs/SYNTAX.md, "Forms").
#[tactic(auto, using(crate::proofs::ItemLemmas::no_symbols))]
pub fn symbol(form: &Form) -> Option<&Symbol>
    requires { IsProper form.now }
    ensures { option_copied result ≡ spec.symbol_of (form_of form.now) }
{
    match form {
        Form::Sym(symbol) => Some(symbol),
        Form::Int(_) | Form::Text(_) | Form::List(_, _) => None,
    }
}

/// The items of a list without a point; NIL is the list of none (docs/SYNTAX.md, "Forms").
#[tactic(auto, using(crate::proofs::ItemLemmas::item_steps))]
pub fn items(form: &Form) -> Option<&[Form]>
    requires { IsProper form.now }
    ensures value { option_map (map form_of) (option_copied result) ≡ spec.items_of (form_of form.now) }
    ensures proper { IfSome result (λ items. AllProper items.now) }
{
    match form {
        Form::Sym(symbol) => {
            if symbol.text() == "NIL" {
                Some(&[])
            } else {
                None
            }
        }
        Form::List(items, tail) => match tail {
            None => Some(items.as_slice()),
            Some(_) => None,
        },
        Form::Int(_) | Form::Text(_) => None,
    }
}

/// What a string holds (docs/SYNTAX.md, "Forms").
#[tactic(auto, using(crate::proofs::ItemLemmas::no_texts))]
pub fn text(form: &Form) -> Option<&[u8]>
    requires { IsProper form.now }
    ensures { option_copied result ≡ spec.text_of (form_of form.now) }
{
    match form {
        Form::Text(text) => Some(text.as_slice()),
        Form::Int(_) | Form::Sym(_) | Form::List(_, _) => None,
    }
}

/// Whether a form is the symbol of this text (docs/SYNTAX.md, "Forms").
pub fn is_word(form: &Form, word: &str) -> bool
    requires { IsProper form.now }
    ensures { result ≡ spec.is_word word.now (form_of form.now) }
{
    match symbol(form) {
        Some(symbol) => symbol.text() == word,
        None => false,
    }
}

/// Whether a text is one of these words (docs/SYNTAX.md, "Names").
pub fn is_among(words: &[&str], text: &[u8]) -> bool
    ensures { result ≡ is_in (map (λ w. w.now) words.now) text.now }
{
    for word in words {
        if word.as_bytes() == text {
            return true;
        }
    }
    false
}

/// Whether a symbol is one of these (docs/SYNTAX.md, "Names").
pub fn contains(names: &Symbols, name: &Symbol) -> bool
    ensures { result ≡ is_in names.now name.now }
{
    for other in names.as_slice() {
        if other.same(name) {
            return true;
        }
    }
    false
}
