//! The values of forms.

ghost use Rattle.std.specs.Prelude.{◌≡◌, map};
ghost use Rattle.std.specs.List.{list_any};
ghost use Rattle.lisp_data.specs.Datum.{nil_form};
ghost use Rattle.lisp_data.specs.FormView.{form_of};
ghost use Rattle.lisp_data.specs.ValueView.{val_of};
ghost use Rattle.lisp_data.specs.Values.{IsSmall};
ghost use Rattle.lisp_reader.specs.FormValue as spec;
ghost use Rattle.lisp_reader.specs.FormValue.{SaysValue};
ghost use Rattle.lisp_reader.specs.view.Building.{SaysBuilt, SaysBefore};

use lisp_data::{Form, Memory, Symbol, Value, ValueError};
use std::alloc::Global;

/// Whether a text is in a form.
#[cycle(has_text)]
#[tactic(auto, using(lisp_data::proofs::Chains::chains, crate::proofs::Values::texts))]
fn has_text(form: &Form) -> bool
    ensures { result ≡ spec.has_text (form_of form.now) }
{
    match form {
        Form::Int(_) | Form::Sym(_) => false,
        Form::Text(_) => true,
        Form::List(items, tail) => {
            let inside = any_text(items.as_slice());
            match tail {
                None => inside,
                Some(tail) => inside || has_text(tail),
            }
        }
    }
}

#[cycle(has_text)]
#[tactic(auto, using(crate::proofs::Values::texts))]
fn any_text(forms: &[Form]) -> bool
    ensures { result ≡ list_any spec.has_text (map form_of forms.now) }
{
    for form in forms {
        if has_text(form) {
            return true;
        }
    }
    false
}

#[tactic(auto, unfolding(lisp_data::specs::SymbolText::is_symbol_text, lisp_data::specs::Atoms::leaf, lisp_data::specs::Atoms::in_atom, lisp_data::specs::Atoms::is_delimiter, lisp_data::specs::Atoms::is_sign, lisp_data::specs::Atoms::is_exponent))]
fn nil(alloc: Global) -> Result<Value, ValueError>
    ensures { SaysBuilt nil_form result }
{
    match Symbol::named(alloc, "NIL") {
        Ok(symbol) => Ok(Value::Sym(symbol)),
        Err(Memory) => Err(ValueError::Memory),
    }
}

/// The value of a form, as long as no text comes to light.
#[cycle(build)]
#[tactic(auto, using(lisp_data::proofs::Chains::chains, crate::proofs::Values::built))]
fn build(alloc: Global, form: &Form) -> Result<Value, ValueError>
    ensures { SaysBuilt (form_of form.now) result }
{
    match form {
        Form::Int(number) => Ok(Value::Int(*number)),
        Form::Sym(symbol) => match symbol.share() {
            Ok(symbol) => Ok(Value::Sym(symbol)),
            Err(Memory) => Err(ValueError::Memory),
        },
        Form::Text(_) => Err(ValueError::NotAValue),
        Form::List(items, tail) => match tail {
            None => match nil(alloc) {
                Ok(end) => build_before(alloc, items.as_slice(), end),
                Err(error) => Err(error),
            },
            Some(tail) => match build(alloc, tail) {
                Ok(end) => build_before(alloc, items.as_slice(), end),
                Err(error) => Err(error),
            },
        },
    }
}

/// The value of a list with these items before its end.
#[cycle(build)]
#[tactic(auto, using(crate::proofs::Values::built))]
fn build_before(alloc: Global, items: &[Form], end: Value) -> Result<Value, ValueError>
    requires { IsSmall (val_of end) }
    ensures { SaysBefore (map form_of items.now) (val_of end) result }
{
    let mut value = end;
    let mut i = items.len();
    'items: while i > 0 {
        i -= 1;
        match build(alloc, &items[i]) {
            Ok(head) => match Value::pair(alloc, head, value) {
                Ok(pair) => value = pair,
                Err(error) => return Err(error),
            },
            Err(error) => return Err(error),
        }
    }
    Ok(value)
}

/// The value of a form. `NotAValue` comes where a text is in it, `TooLarge` where none is and it passes a value's limits.
pub fn value_of(alloc: Global, form: &Form) -> Result<Value, ValueError>
    ensures { SaysValue (form_of form.now) result }
{
    if has_text(form) {
        Err(ValueError::NotAValue)
    } else {
        build(alloc, form)
    }
}
