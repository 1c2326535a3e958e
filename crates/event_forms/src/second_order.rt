//! The shapes of function variables and of specifications.

ghost use Rattle.std.specs.Prelude.{◌≡◌, map, IfOk};
ghost use Rattle.std.specs.List.{list_all};
ghost use Rattle.lisp_data.specs.FormView.{form_of, IsProper, AllProper};
ghost use Rattle.proof_texts.specs.Items as lists;
ghost use Rattle.event_forms.specs.Refused.{Says};
ghost use Rattle.event_forms.specs.SecondOrder as spec;
ghost use Rattle.event_forms.specs.view.ShapeView.{variable_seen, specification_seen, IsProperSpecification};

use crate::errors::EventError;
use crate::limits::MAX_FORMALS;
use crate::places::{name, nothing_more};
use lisp_data::{Form, Symbol};
use proof_texts::{is_word, items, symbol};
use std::alloc::Global;
use std::slice;

/// The parts of a function variable.
#[derive(Clone, Copy)]
pub struct VariableParts<'a> {
    pub name: &'a Symbol,
    /// The number of its arguments.
    pub arity: u32,
}

/// The parts of a specification.
#[derive(Clone, Copy)]
pub struct SpecificationParts<'a> {
    pub name: &'a Symbol,
    pub variables: &'a [Form],
    pub matrix: &'a Form,
}

#[tactic(auto, using(proof_texts::proofs::ItemLemmas::proper_at))]
fn are_stars(forms: &[Form]) -> bool
    requires { AllProper forms.now }
    ensures { result ≡ list_all spec.is_star (map form_of forms.now) }
{
    for form in forms {
        if !is_word(form, "*") {
            return false;
        }
    }
    true
}

/// How many arguments a list of stars says that there are.
fn star_count(alloc: Global, form: &Form) -> Result<u32, EventError>
    requires { IsProper form.now }
    ensures { Says (λ count. count) (spec.star_count (lists.items_of (form_of form.now))) result }
{
    let Some(stars) = items(form) else {
        return Err(EventError::bad_part(alloc, "signature"));
    };
    if are_stars(stars) && !stars.is_empty() && stars.len() <= MAX_FORMALS {
        Ok(stars.len() as u32)
    } else {
        Err(EventError::bad_part(alloc, "signature"))
    }
}

/// The star of a function variable's result, and nothing more.
fn check_result(alloc: Global, parts: &[Form]) -> Result<(), EventError>
    requires { AllProper parts.now }
    ensures { Says (λ done. done) (spec.result_after (map form_of parts.now)) result }
{
    let [star, rest @ ..] = parts else {
        return Err(EventError::bad_part(alloc, "arguments"));
    };
    if is_word(star, "*") {
        nothing_more(alloc, rest)
    } else {
        Err(EventError::bad_part(alloc, "signature"))
    }
}

/// `=> *`.
fn check_arrow(alloc: Global, parts: &[Form]) -> Result<(), EventError>
    requires { AllProper parts.now }
    ensures { Says (λ done. done) (spec.arrow_after (map form_of parts.now)) result }
{
    let [arrow, rest @ ..] = parts else {
        return Err(EventError::bad_part(alloc, "arguments"));
    };
    if is_word(arrow, "=>") {
        check_result(alloc, rest)
    } else {
        Err(EventError::bad_part(alloc, "signature"))
    }
}

/// A function variable by its name, from its stars on.
fn signature<'a>(
    alloc: Global,
    name: &'a Symbol,
    parts: &[Form],
) -> Result<VariableParts<'a>, EventError>
    requires { AllProper parts.now }
    ensures { Says variable_seen (spec.signature_of name.now (map form_of parts.now)) result }
{
    let [stars, rest @ ..] = parts else {
        return Err(EventError::bad_part(alloc, "arguments"));
    };
    let arity = star_count(alloc, stars)?;
    check_arrow(alloc, rest)?;
    Ok(VariableParts { name, arity })
}

/// `?f (* ..) => *`.
pub(crate) fn variable<'a>(
    alloc: Global,
    parts: &'a [Form],
) -> Result<VariableParts<'a>, EventError>
    requires { AllProper parts.now }
    ensures { Says variable_seen (spec.variable_parts (map form_of parts.now)) result }
{
    let [first, rest @ ..] = parts else {
        return Err(EventError::bad_part(alloc, "arguments"));
    };
    let name = name(alloc, first)?;
    signature(alloc, name, rest)
}

/// The variables of a specification: a list of them, or one without the list.
fn variables<'a>(alloc: Global, form: &'a Form) -> Result<&'a [Form], EventError>
    requires { IsProper form.now }
    ensures variables { Says (λ xs. map form_of xs.now) (spec.variables_of (form_of form.now)) result }
    ensures proper { IfOk result (λ xs. AllProper xs.now) }
{
    match items(form) {
        Some(variables) => Ok(variables),
        None => {
            if symbol(form).is_some() {
                Ok(slice::from_ref(form))
            } else {
                Err(EventError::bad_part(alloc, "formals"))
            }
        }
    }
}

/// `(forall (x ..) matrix)`.
fn quantified<'a>(
    alloc: Global,
    name: &'a Symbol,
    form: &'a Form,
) -> Result<SpecificationParts<'a>, EventError>
    requires { IsProper form.now }
    ensures parts { Says specification_seen (spec.quantified name.now (lists.items_of (form_of form.now))) result }
    ensures proper { IfOk result IsProperSpecification }
{
    let Some([word, list, matrix]) = items(form) else {
        return Err(EventError::bad_part(alloc, "quantifier"));
    };
    if !is_word(word, "FORALL") {
        return Err(EventError::bad_part(alloc, "quantifier"));
    }
    let variables = variables(alloc, list)?;
    Ok(SpecificationParts {
        name,
        variables,
        matrix,
    })
}

/// A specification by its name, from its quantifier on.
fn quantifier<'a>(
    alloc: Global,
    name: &'a Symbol,
    parts: &'a [Form],
) -> Result<SpecificationParts<'a>, EventError>
    requires { AllProper parts.now }
    ensures parts { Says specification_seen (spec.quantifier_after name.now (map form_of parts.now)) result }
    ensures proper { IfOk result IsProperSpecification }
{
    let [form, rest @ ..] = parts else {
        return Err(EventError::bad_part(alloc, "arguments"));
    };
    let specification = quantified(alloc, name, form)?;
    nothing_more(alloc, rest)?;
    Ok(specification)
}

/// A specification by its name, from the list without formals on.
fn no_formals<'a>(
    alloc: Global,
    name: &'a Symbol,
    parts: &'a [Form],
) -> Result<SpecificationParts<'a>, EventError>
    requires { AllProper parts.now }
    ensures parts { Says specification_seen (spec.no_formals_after name.now (map form_of parts.now)) result }
    ensures proper { IfOk result IsProperSpecification }
{
    let [list, rest @ ..] = parts else {
        return Err(EventError::bad_part(alloc, "arguments"));
    };
    if !is_word(list, "NIL") {
        return Err(EventError::bad_part(alloc, "formals"));
    }
    quantifier(alloc, name, rest)
}

/// `s () (forall (x ..) matrix)`.
pub(crate) fn specification<'a>(
    alloc: Global,
    parts: &'a [Form],
) -> Result<SpecificationParts<'a>, EventError>
    requires { AllProper parts.now }
    ensures parts { Says specification_seen (spec.specification_parts (map form_of parts.now)) result }
    ensures proper { IfOk result IsProperSpecification }
{
    let [first, rest @ ..] = parts else {
        return Err(EventError::bad_part(alloc, "arguments"));
    };
    let name = name(alloc, first)?;
    no_formals(alloc, name, rest)
}
