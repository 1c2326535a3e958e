//! The values that forms stand for.

ghost use Rattle.std.specs.Prelude.{◌≡◌, option_map, IfOk};
ghost use Rattle.lisp_data.specs.FormView.{form_of, IsProper};
ghost use Rattle.lisp_data.specs.ValueView.{val_of};
ghost use Rattle.proof_texts.specs.Items.{items_of as items_in};
ghost use Rattle.event_forms.specs.Constants as spec;

use lisp_data::{Form, Memory, Symbol, Value, ValueError};
use lisp_reader::value_of;
use proof_texts::{is_word, items, symbol};
use std::alloc::Global;
use term_forms::is_function_name;

/// The number of an integer.
#[tactic(auto, using(crate::proofs::ConstantLemmas::no_numbers))]
fn number(form: &Form) -> Option<i128>
    requires { IsProper form.now }
    ensures { result ≡ spec.number_of (form_of form.now) }
{
    match form {
        Form::Int(number) => Some(*number),
        Form::Sym(_) | Form::Text(_) | Form::List(_, _) => None,
    }
}

/// The value of a form without a text, within the limits of values.
fn small_value(alloc: Global, form: &Form) -> Result<Option<Value>, Memory>
    ensures { IfOk result (λ v. option_map val_of v ≡ spec.small_value (form_of form.now)) }
{
    match value_of(alloc, form) {
        Ok(value) => Ok(Some(value)),
        Err(error) => match error {
            ValueError::NotAValue | ValueError::TooLarge => Ok(None),
            ValueError::Memory => Err(Memory),
        },
    }
}

/// T, NIL and keywords are their own values.
fn symbol_value(name: &Symbol) -> Result<Option<Value>, Memory>
    ensures { IfOk result (λ v. option_map val_of v ≡ spec.symbol_value name.now) }
{
    if is_function_name(name) {
        Ok(None)
    } else {
        Ok(Some(Value::Sym(name.share()?)))
    }
}

/// Of `(quote v)`, the value of v.
fn quoted_value(alloc: Global, form: &Form) -> Result<Option<Value>, Memory>
    requires { IsProper form.now }
    ensures { IfOk result (λ v. option_map val_of v ≡ spec.quoted_value (items_in (form_of form.now))) }
{
    match items(form) {
        Some([word, quoted]) => {
            if is_word(word, "QUOTE") {
                small_value(alloc, quoted)
            } else {
                Ok(None)
            }
        }
        _ => Ok(None),
    }
}

/// The value that a form stands for: an integer, T, NIL, a keyword, or what is quoted (docs/EVENTS.md, "restrict").
pub fn constant(alloc: Global, form: &Form) -> Result<Option<Value>, Memory>
    requires { IsProper form.now }
    ensures { IfOk result (λ v. option_map val_of v ≡ spec.constant_of (form_of form.now)) }
{
    if let Some(number) = number(form) {
        return Ok(Some(Value::Int(number)));
    }
    match symbol(form) {
        Some(name) => symbol_value(name),
        None => quoted_value(alloc, form),
    }
}
