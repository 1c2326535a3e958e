//! The shapes of events.

ghost use Rattle.std.specs.Prelude.{◌≡◌, map, option_map, codes, IfOk, IfSome};
ghost use Rattle.lisp_data.specs.FormView.{form_of, IsProper, AllProper};
ghost use Rattle.terms.specs.Evaluation.{then_with};
ghost use Rattle.terms.specs.Worlds.{is_in};
ghost use Rattle.proof_texts.specs.Items.{items_of};
ghost use Rattle.event_forms.specs.Keys.{value_of};
ghost use Rattle.event_forms.specs.Shapes as spec;
ghost use Rattle.event_forms.specs.Refused.{Says};
ghost use Rattle.event_forms.specs.view.ShapeView.{seen, function_seen, theorem_seen, IsProperFunction, IsProperTheorem, HasProperParts};

use crate::clauses::given_items;
use crate::declarations::{body, declared_value};
use crate::errors::EventError;
use crate::instances::{InstanceParts, instance};
use crate::isomorphisms::{IsoParts, iso};
use crate::keys::{Keyed, SeenKeys, read_keys, value_of};
use crate::places::{formals, name, string};
use crate::representations::{IsodataParts, representation};
use crate::second_order::{SpecificationParts, VariableParts, specification, variable};
use crate::transformations::{RestrictParts, restriction};
use lisp_data::{Form, Symbol};
use proof_texts::{is_among, is_word, items};
use std::alloc::Global;

/// The parts of a function.
#[derive(Clone, Copy)]
pub struct FunctionParts<'a> {
    pub name: &'a Symbol,
    pub formals: &'a [Form],
    pub body: &'a Form,
    /// The measure, if one is given.
    pub measure: Option<&'a Form>,
    /// The clauses that prove its conditions.
    pub proofs: &'a [Form],
    /// The clauses that have hints for its conditions. Each condition is named once, in these or in those that prove.
    pub hows: &'a [Form],
}

/// The parts of a theorem.
#[derive(Clone, Copy)]
pub struct TheoremParts<'a> {
    pub name: &'a Symbol,
    pub formula: &'a Form,
    /// The names of the specifications that it assumes.
    pub assumed: &'a [Form],
    /// Its proof, if it has one.
    pub proof: Option<&'a Form>,
    /// Its hint steps, if it has some.
    pub how: Option<&'a [Form]>,
}

/// The parts of an event.
#[derive(Clone, Copy)]
pub enum Event<'a> {
    InPackage,
    /// The name of the book.
    IncludeBook(&'a [u8]),
    Defun(FunctionParts<'a>),
    Defthm(TheoremParts<'a>),
    Defiso(IsoParts<'a>),
    Restrict(RestrictParts<'a>),
    Isodata(IsodataParts<'a>),
    Defun2(FunctionParts<'a>),
    Defunvar(VariableParts<'a>),
    DefunSk2(SpecificationParts<'a>),
    DefunInst(InstanceParts<'a>),
    DefthmInst(InstanceParts<'a>),
    /// The form whose value is printed.
    ValueTriple(&'a Form),
}

/// The books that may be included.
const BOOKS: [&str; 7] = [
    "kestrel/soft/top",
    "kestrel/apt/top",
    "kestrel/apt/restrict",
    "kestrel/apt/isodata",
    "kestrel/apt/tailrec",
    "kestrel/apt/schemalg",
    "kestrel/apt/solve",
];

#[tactic(auto, unfolding(crate::specs::Shapes::books))]
fn is_book(name: &[u8]) -> bool
    ensures { result ≡ is_in spec.books name.now }
{
    is_among(&BOOKS, name)
}

/// The package of every book.
fn only_package(alloc: Global, form: &Form) -> Result<(), EventError>
    requires { IsProper form.now }
    ensures { Says (λ done. done) (spec.only_package (form_of form.now)) result }
{
    let name = string(alloc, form)?;
    if name == b"ACL2".as_slice() {
        Ok(())
    } else {
        Err(EventError::unknown_book(alloc, name))
    }
}

/// `(in-package "ACL2")`.
fn in_package<'a>(alloc: Global, parts: &[Form]) -> Result<Event<'a>, EventError>
    requires { AllProper parts.now }
    ensures event { Says seen (spec.in_package (map form_of parts.now)) result }
    ensures proper { IfOk result HasProperParts }
{
    match parts {
        [] => Err(EventError::bad_part(alloc, "arguments")),
        [name] => {
            only_package(alloc, name)?;
            Ok(Event::InPackage)
        }
        [name, _, ..] => {
            only_package(alloc, name)?;
            Err(EventError::bad_part(alloc, "arguments"))
        }
    }
}

/// `(include-book "NAME" :dir :system)`, with or without the key.
fn include_book<'a>(alloc: Global, parts: &'a [Form]) -> Result<Event<'a>, EventError>
    requires { AllProper parts.now }
    ensures event { Says seen (spec.include_book (map form_of parts.now)) result }
    ensures proper { IfOk result HasProperParts }
{
    let [name, rest @ ..] = parts else {
        return Err(EventError::bad_part(alloc, "arguments"));
    };
    let name = string(alloc, name)?;
    if !is_book(name) {
        return Err(EventError::unknown_book(alloc, name));
    }
    read_keys(alloc, Keyed::Book, SeenKeys::none(alloc), rest)?;
    Ok(Event::IncludeBook(name))
}

/// A function by its name, from its formals on.
fn function_after<'a>(
    alloc: Global,
    name: &'a Symbol,
    parts: &'a [Form],
) -> Result<FunctionParts<'a>, EventError>
    requires { AllProper parts.now }
    ensures parts { Says function_seen (spec.formals_after name.now (map form_of parts.now)) result }
    ensures proper { IfOk result IsProperFunction }
{
    let [list, rest @ ..] = parts else {
        return Err(EventError::bad_part(alloc, "arguments"));
    };
    let formals = formals(alloc, list)?;
    let [first, rest @ ..] = rest else {
        return Err(EventError::bad_part(alloc, "arguments"));
    };
    let body = body(alloc, first, rest)?;
    Ok(FunctionParts {
        name,
        formals,
        body,
        measure: declared_value(":MEASURE", first, rest),
        proofs: given_items(declared_value(":PROOF", first, rest)),
        hows: given_items(declared_value(":HOW", first, rest)),
    })
}

/// `f (x ..) part .. body`.
fn function<'a>(alloc: Global, parts: &'a [Form]) -> Result<FunctionParts<'a>, EventError>
    requires { AllProper parts.now }
    ensures parts { Says function_seen (spec.function_of (map form_of parts.now)) result }
    ensures proper { IfOk result IsProperFunction }
{
    let [first, rest @ ..] = parts else {
        return Err(EventError::bad_part(alloc, "arguments"));
    };
    let name = name(alloc, first)?;
    function_after(alloc, name, rest)
}

/// `(defun f (x ..) part .. body)`.
fn defun<'a>(alloc: Global, parts: &'a [Form]) -> Result<Event<'a>, EventError>
    requires { AllProper parts.now }
    ensures event { Says seen (spec.defun (map form_of parts.now)) result }
    ensures proper { IfOk result HasProperParts }
{
    let function = function(alloc, parts)?;
    Ok(Event::Defun(function))
}

/// `(defun2 f (x ..) part .. body)`.
fn defun2<'a>(alloc: Global, parts: &'a [Form]) -> Result<Event<'a>, EventError>
    requires { AllProper parts.now }
    ensures event { Says seen (spec.defun2 (map form_of parts.now)) result }
    ensures proper { IfOk result HasProperParts }
{
    let function = function(alloc, parts)?;
    Ok(Event::Defun2(function))
}

/// The hint steps that are given among the keys of a theorem.
fn steps(keys: &[Form]) -> Option<&[Form]>
    requires { AllProper keys.now }
    ensures steps { option_map (λ steps. map form_of steps.now) result ≡ then_with (value_of (codes ":HOW") (map form_of keys.now)) items_of }
    ensures proper { IfSome result (λ steps. AllProper steps.now) }
{
    let value = value_of(":HOW", keys)?;
    items(value)
}

/// The parts of a theorem, by its name, its formula and its keys.
fn theorem<'a>(name: &'a Symbol, formula: &'a Form, keys: &'a [Form]) -> TheoremParts<'a>
    requires formula { IsProper formula.now }
    requires keys { AllProper keys.now }
    ensures parts { theorem_seen result ≡ spec.theorem_parts name.now (form_of formula.now) (map form_of keys.now) }
    ensures proper { IsProperTheorem result }
{
    TheoremParts {
        name,
        formula,
        assumed: given_items(value_of(":ASSUMING", keys)),
        proof: value_of(":PROOF", keys),
        how: steps(keys),
    }
}

/// `(defthm n formula key value ..)`.
fn defthm<'a>(alloc: Global, parts: &'a [Form]) -> Result<Event<'a>, EventError>
    requires { AllProper parts.now }
    ensures event { Says seen (spec.defthm (map form_of parts.now)) result }
    ensures proper { IfOk result HasProperParts }
{
    let [first, rest @ ..] = parts else {
        return Err(EventError::bad_part(alloc, "arguments"));
    };
    let name = name(alloc, first)?;
    let [formula, rest @ ..] = rest else {
        return Err(EventError::bad_part(alloc, "arguments"));
    };
    read_keys(alloc, Keyed::Theorem, SeenKeys::none(alloc), rest)?;
    Ok(Event::Defthm(theorem(name, formula, rest)))
}

/// `(defiso n oldp newp forth back key value ..)`.
fn defiso<'a>(alloc: Global, parts: &'a [Form]) -> Result<Event<'a>, EventError>
    requires { AllProper parts.now }
    ensures event { Says seen (spec.defiso (map form_of parts.now)) result }
    ensures proper { IfOk result HasProperParts }
{
    let iso = iso(alloc, parts)?;
    Ok(Event::Defiso(iso))
}

/// `(defunvar ?f (* ..) => *)`.
fn defunvar<'a>(alloc: Global, parts: &'a [Form]) -> Result<Event<'a>, EventError>
    requires { AllProper parts.now }
    ensures event { Says seen (spec.defunvar (map form_of parts.now)) result }
    ensures proper { IfOk result HasProperParts }
{
    let variable = variable(alloc, parts)?;
    Ok(Event::Defunvar(variable))
}

/// `(defun-sk2 s () (forall (x ..) matrix))`.
fn defun_sk2<'a>(alloc: Global, parts: &'a [Form]) -> Result<Event<'a>, EventError>
    requires { AllProper parts.now }
    ensures event { Says seen (spec.defun_sk2 (map form_of parts.now)) result }
    ensures proper { IfOk result HasProperParts }
{
    let specification = specification(alloc, parts)?;
    Ok(Event::DefunSk2(specification))
}

/// `(defun-inst f (g (?v . h) ..) key value ..)`.
fn defun_inst<'a>(alloc: Global, parts: &'a [Form]) -> Result<Event<'a>, EventError>
    requires { AllProper parts.now }
    ensures event { Says seen (spec.defun_inst (map form_of parts.now)) result }
    ensures proper { IfOk result HasProperParts }
{
    let instance = instance(alloc, Keyed::FunctionInstance, parts)?;
    Ok(Event::DefunInst(instance))
}

/// `(defthm-inst n (t (?v . h) ..) key value ..)`.
fn defthm_inst<'a>(alloc: Global, parts: &'a [Form]) -> Result<Event<'a>, EventError>
    requires { AllProper parts.now }
    ensures event { Says seen (spec.defthm_inst (map form_of parts.now)) result }
    ensures proper { IfOk result HasProperParts }
{
    let instance = instance(alloc, Keyed::TheoremInstance, parts)?;
    Ok(Event::DefthmInst(instance))
}

/// `(restrict f r key value ..)`.
fn restrict<'a>(alloc: Global, parts: &'a [Form]) -> Result<Event<'a>, EventError>
    requires { AllProper parts.now }
    ensures event { Says seen (spec.restrict (map form_of parts.now)) result }
    ensures proper { IfOk result HasProperParts }
{
    let restriction = restriction(alloc, parts)?;
    Ok(Event::Restrict(restriction))
}

/// `(isodata f ((x iso) ..) key value ..)`.
fn isodata<'a>(alloc: Global, parts: &'a [Form]) -> Result<Event<'a>, EventError>
    requires { AllProper parts.now }
    ensures event { Says seen (spec.isodata (map form_of parts.now)) result }
    ensures proper { IfOk result HasProperParts }
{
    let representation = representation(alloc, parts)?;
    Ok(Event::Isodata(representation))
}

/// `(value-triple form)`.
fn value_triple<'a>(alloc: Global, parts: &'a [Form]) -> Result<Event<'a>, EventError>
    requires { AllProper parts.now }
    ensures event { Says seen (spec.value_triple (map form_of parts.now)) result }
    ensures proper { IfOk result HasProperParts }
{
    match parts {
        [form] => Ok(Event::ValueTriple(form)),
        _ => Err(EventError::bad_part(alloc, "arguments")),
    }
}

/// The event that a form is, or the first refusal of its shape, which is read from left to right (docs/EVENTS.md).
pub fn read_event(alloc: Global, form: &Form) -> Result<Event<'_>, EventError>
    requires { IsProper form.now }
    ensures event { Says seen (spec.event_of (form_of form.now)) result }
    ensures proper { IfOk result HasProperParts }
{
    let Some([word, parts @ ..]) = items(form) else {
        return Err(EventError::not_an_event());
    };
    if is_word(word, "DEFUN") {
        defun(alloc, parts)
    } else if is_word(word, "DEFTHM") {
        defthm(alloc, parts)
    } else if is_word(word, "DEFISO") {
        defiso(alloc, parts)
    } else if is_word(word, "RESTRICT") {
        restrict(alloc, parts)
    } else if is_word(word, "ISODATA") {
        isodata(alloc, parts)
    } else if is_word(word, "DEFUN2") {
        defun2(alloc, parts)
    } else if is_word(word, "DEFUNVAR") {
        defunvar(alloc, parts)
    } else if is_word(word, "DEFUN-SK2") {
        defun_sk2(alloc, parts)
    } else if is_word(word, "DEFUN-INST") {
        defun_inst(alloc, parts)
    } else if is_word(word, "DEFTHM-INST") {
        defthm_inst(alloc, parts)
    } else if is_word(word, "IN-PACKAGE") {
        in_package(alloc, parts)
    } else if is_word(word, "INCLUDE-BOOK") {
        include_book(alloc, parts)
    } else if is_word(word, "VALUE-TRIPLE") {
        value_triple(alloc, parts)
    } else {
        Err(EventError::not_an_event())
    }
}
