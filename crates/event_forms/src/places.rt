//! What may stand in a place of an event.

ghost use Rattle.std.specs.Prelude.{◌≡◌, map, IfOk};
ghost use Rattle.std.specs.List.{list_all};
ghost use Rattle.lisp_data.specs.FormView.{form_of, IsProper, AllProper};
ghost use Rattle.event_forms.specs.Places as spec;
ghost use Rattle.event_forms.specs.Refused.{Says};

use crate::errors::EventError;
use lisp_data::{Form, Symbol};
use proof_texts::{items, symbol, text};
use std::alloc::Global;

#[tactic(auto, using(proof_texts::proofs::ItemLemmas::proper_at))]
pub(crate) fn all_symbols(forms: &[Form]) -> bool
    requires { AllProper forms.now }
    ensures { result ≡ list_all spec.is_symbol (map form_of forms.now) }
{
    for form in forms {
        if symbol(form).is_none() {
            return false;
        }
    }
    true
}

/// A name in a place where one has to stand.
pub(crate) fn name<'a>(alloc: Global, form: &'a Form) -> Result<&'a Symbol, EventError>
    requires { IsProper form.now }
    ensures { Says (λ name. name.now) (spec.name_of (form_of form.now)) result }
{
    match symbol(form) {
        Some(name) => Ok(name),
        None => Err(EventError::bad_part(alloc, "name")),
    }
}

/// A list of formals.
pub(crate) fn formals<'a>(alloc: Global, form: &'a Form) -> Result<&'a [Form], EventError>
    requires { IsProper form.now }
    ensures formals { Says (λ formals. map form_of formals.now) (spec.formals_of (form_of form.now)) result }
    ensures proper { IfOk result (λ formals. AllProper formals.now) }
{
    match items(form) {
        Some(formals) => Ok(formals),
        None => Err(EventError::bad_part(alloc, "formals")),
    }
}

/// A string in a place where one has to stand.
pub(crate) fn string<'a>(alloc: Global, form: &'a Form) -> Result<&'a [u8], EventError>
    requires { IsProper form.now }
    ensures { Says (λ text. text.now) (spec.string_of (form_of form.now)) result }
{
    match text(form) {
        Some(text) => Ok(text),
        None => Err(EventError::bad_part(alloc, "arguments")),
    }
}

/// Refuses parts where none may be left.
pub(crate) fn nothing_more(alloc: Global, parts: &[Form]) -> Result<(), EventError>
    ensures { Says (λ done. done) (spec.nothing_more (map form_of parts.now)) result }
{
    if parts.is_empty() {
        Ok(())
    } else {
        Err(EventError::bad_part(alloc, "arguments"))
    }
}
