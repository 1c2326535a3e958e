//! Declarations of functions.

ghost use Rattle.std.specs.Prelude.{◌≡◌, map, option_map, IfSome, IfOk};
ghost use Rattle.std.specs.Option.{option_copied};
ghost use Rattle.lisp_data.specs.FormView.{form_of, IsProper, AllProper};
ghost use Rattle.proof_texts.specs.Items as lists;
ghost use Rattle.event_forms.specs.Declarations as spec;
ghost use Rattle.event_forms.specs.Keys.{no_keys};
ghost use Rattle.event_forms.specs.Refused.{Says};

use crate::errors::EventError;
use crate::keys::{Keyed, SeenKeys, read_keys, value_of};
use crate::places::all_symbols;
use lisp_data::Form;
use proof_texts::{is_word, items, text};
use std::alloc::Global;

/// The keys that were seen and those of a declaration: `(xargs key value ..)`, `(ignore x ..)` or `(ignorable x ..)`.
fn read_declaration(
    alloc: Global,
    seen: SeenKeys,
    declaration: &Form,
) -> Result<SeenKeys, EventError>
    requires { IsProper declaration.now }
    ensures { Says (λ keys. keys) (spec.declared seen (lists.items_of (form_of declaration.now))) result }
{
    let Some(items) = items(declaration) else {
        return Err(EventError::bad_part(alloc, "declare"));
    };
    let [word, parts @ ..] = items else {
        return Err(EventError::bad_part(alloc, "declare"));
    };
    if is_word(word, "XARGS") {
        let keys = read_keys(alloc, Keyed::Function, seen, parts)?;
        Ok(keys)
    } else if (is_word(word, "IGNORE") || is_word(word, "IGNORABLE")) && all_symbols(parts) {
        Ok(seen)
    } else {
        Err(EventError::bad_part(alloc, "declare"))
    }
}

/// What a list declares that begins with DECLARE.
fn declarations(part: &Form) -> Option<&[Form]>
    requires { IsProper part.now }
    ensures value { option_map (map form_of) (option_copied result) ≡ spec.declare_list (lists.items_of (form_of part.now)) }
    ensures proper { IfSome result (λ items. AllProper items.now) }
{
    match items(part)? {
        [word, declarations @ ..] => {
            if is_word(word, "DECLARE") {
                Some(declarations)
            } else {
                None
            }
        }
        [] => None,
    }
}

/// The keys that were seen and those of declarations.
#[tactic(auto, using(proof_texts::proofs::ItemLemmas::proper_at))]
fn read_declarations(
    alloc: Global,
    mut seen: SeenKeys,
    declarations: &[Form],
) -> Result<SeenKeys, EventError>
    requires { AllProper declarations.now }
    ensures { Says (λ keys. keys) (spec.all_declared seen (map form_of declarations.now)) result }
{
    for declaration in declarations {
        seen = read_declaration(alloc, seen, declaration)?;
    }
    Ok(seen)
}

/// The keys that were seen and those of a part before the body: a string or a list that begins with DECLARE.
fn before_body(alloc: Global, seen: SeenKeys, part: &Form) -> Result<SeenKeys, EventError>
    requires { IsProper part.now }
    ensures { Says (λ keys. keys) (spec.before_body seen (form_of part.now)) result }
{
    if text(part).is_some() {
        return Ok(seen);
    }
    match declarations(part) {
        Some(declarations) => {
            let keys = read_declarations(alloc, seen, declarations)?;
            Ok(keys)
        }
        None => Err(EventError::bad_part(alloc, "body")),
    }
}

/// The body of a function: the last of its parts behind the formals.
#[tactic(auto, using(crate::proofs::DeclarationLemmas::parts))]
pub(crate) fn body<'a>(
    alloc: Global,
    first: &'a Form,
    rest: &'a [Form],
) -> Result<&'a Form, EventError>
    requires first { IsProper first.now }
    requires rest { AllProper rest.now }
    ensures body { Says (λ body. form_of body.now) (spec.body_of no_keys (form_of first.now) (map form_of rest.now)) result }
    ensures proper { IfOk result (λ body. IsProper body.now) }
{
    let mut seen = SeenKeys::none(alloc);
    let mut part = first;
    for next in rest {
        seen = before_body(alloc, seen, part)?;
        part = next;
    }
    Ok(part)
}

/// The keys and values of `(xargs key value ..)`; another declaration has none.
fn xargs(declaration: &Form) -> &[Form]
    requires { IsProper declaration.now }
    ensures value { map form_of result.now ≡ spec.xargs_of (lists.items_of (form_of declaration.now)) }
    ensures proper { AllProper result.now }
{
    match items(declaration) {
        Some([word, parts @ ..]) => { if is_word(word, "XARGS") { parts } else { &[] } }
        _ => &[],
    }
}

/// The value of a key among declarations.
#[tactic(auto, using(proof_texts::proofs::ItemLemmas::proper_at))]
fn value_among<'a>(key: &str, declarations: &'a [Form]) -> Option<&'a Form>
    requires { AllProper declarations.now }
    ensures value { option_map form_of (option_copied result) ≡ spec.value_among key.now (map form_of declarations.now) }
    ensures proper { IfSome result (λ form. IsProper form.now) }
{
    for declaration in declarations {
        if let Some(value) = value_of(key, xargs(declaration)) {
            return Some(value);
        }
    }
    None
}

/// The value of a key in a part before the body.
fn value_in<'a>(key: &str, part: &'a Form) -> Option<&'a Form>
    requires { IsProper part.now }
    ensures value { option_map form_of (option_copied result) ≡ spec.value_in key.now (spec.declare_list (lists.items_of (form_of part.now))) }
    ensures proper { IfSome result (λ form. IsProper form.now) }
{
    match declarations(part) {
        Some(declarations) => value_among(key, declarations),
        None => None,
    }
}

/// The value of a key in the parts before the body.
#[tactic(auto, using(crate::proofs::DeclarationLemmas::parts))]
pub(crate) fn declared_value<'a>(key: &str, first: &'a Form, rest: &'a [Form]) -> Option<&'a Form>
    requires first { IsProper first.now }
    requires rest { AllProper rest.now }
    ensures value { option_map form_of (option_copied result) ≡ spec.declared_value key.now (form_of first.now) (map form_of rest.now) }
    ensures proper { IfSome result (λ form. IsProper form.now) }
{
    let mut part = first;
    for next in rest {
        if let Some(value) = value_in(key, part) {
            return Some(value);
        }
        part = next;
    }
    None
}
