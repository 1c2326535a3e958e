//! What events define.

ghost use Rattle.std.specs.Prelude.{◌≡◌, [], map, option_map, Some, IfOk, IfSome};
ghost use Rattle.lisp_data.specs.FormView.{form_of, IsProper, AllProper};
ghost use Rattle.term_forms.specs.Translation.{distinct_after};
ghost use Rattle.measures.specs.DefaultMeasure as defaults;
ghost use Rattle.event_forms.specs.ShapeView.{function_seen, IsProperFunction};
ghost use Rattle.events.specs.Definitions as spec;
ghost use Rattle.events.specs.view.Halts.{Reads};

use crate::halt::Halt;
use crate::names::is_among;
use crate::orders::{Order, check_order};
use crate::own::WithOwn;
use event_forms::{FunctionParts, MAX_FORMALS};
use lisp_data::{Code, Form, Memory, Symbol, Symbols};
use measures::{MeasureError, default_measure, is_nested, mentions};
use proof_texts::symbol;
use std::alloc::Global;
use term_forms::{Scope, is_variable_name, translate};
use terms::{Definition, Term, Terms};
use worlds::World;

/// A variable name.
fn formal<'a>(alloc: Global, form: &'a Form) -> Result<&'a Symbol, Halt>
    requires { IsProper form.now }
    ensures { Reads (λ s. s.now) (spec.formal_of (form_of form.now)) result }
{
    match symbol(form) {
        Some(name) => {
            if is_variable_name(name) {
                Ok(name)
            } else {
                Err(Halt::bad_part(alloc, "formals"))
            }
        }
        None => Err(Halt::bad_part(alloc, "formals")),
    }
}

#[tactic(auto, using(crate::proofs::FormalLemmas::formals))]
fn read_names(alloc: Global, forms: &[Form]) -> Result<Symbols, Halt>
    requires { AllProper forms.now }
    ensures { Reads (λ xs. xs) (spec.names_of (map form_of forms.now)) result }
{
    let mut names = Symbols::new(alloc);
    for form in forms {
        let name = formal(alloc, form)?;
        names.push(name.share()?)?;
    }
    Ok(names)
}

/// Refuses the first name that stands a second time.
#[tactic(auto, using(crate::proofs::FormalLemmas::distinct_steps))]
fn check_distinct(names: &[Symbol]) -> Result<(), Halt>
    ensures { Reads (λ x. x) (distinct_after [] names.now) result }
{
    for (i, name) in names.iter().enumerate() {
        if is_among(&names[..i], name) {
            return Err(Halt::named(Code::RepeatedFormal, name));
        }
    }
    Ok(())
}

/// Variable names, none of them twice.
pub(crate) fn read_variables(alloc: Global, forms: &[Form]) -> Result<Symbols, Halt>
    requires { AllProper forms.now }
    ensures { Reads (λ xs. xs) (spec.variables_of (map form_of forms.now)) result }
{
    let names = read_names(alloc, forms)?;
    check_distinct(names.as_slice())?;
    Ok(names)
}

/// At most 16 variable names, none of them twice.
fn read_formals(alloc: Global, forms: &[Form]) -> Result<Symbols, Halt>
    requires { AllProper forms.now }
    ensures { Reads (λ xs. xs) (spec.formals_of (map form_of forms.now)) result }
{
    if forms.len() > MAX_FORMALS {
        return Err(Halt::bad_part(alloc, "formals"));
    }
    read_variables(alloc, forms)
}

/// The body of a function over its formals.
fn read_body(
    alloc: Global,
    world: &World,
    name: &Symbol,
    formals: &Symbols,
    body: &Form,
) -> Result<Term, Halt>
    requires { IsProper body.now }
    ensures { Reads (λ t. t) (spec.body_of world.now name.now formals.now (form_of body.now)) result }
{
    let functions = WithOwn {
        world,
        name,
        arity: formals.len(),
    };
    let body = translate(alloc, body, &functions, &Scope::Only(formals))?;
    Ok(body)
}

/// A measure that is given, over the formals and without the new function.
fn read_given(
    alloc: Global,
    world: &World,
    formals: &Symbols,
    measure: &Form,
) -> Result<Option<Term>, Halt>
    requires { IsProper measure.now }
    ensures { Reads (λ m. m) (spec.given_measure world.now formals.now (Some (form_of measure.now))) result }
{
    let measure = translate(alloc, measure, world, &Scope::Only(formals))?;
    Ok(Some(measure))
}

/// The measure, where it is given.
fn read_measure(
    alloc: Global,
    world: &World,
    formals: &Symbols,
    measure: Option<&Form>,
) -> Result<Option<Term>, Halt>
    requires { IfSome measure (λ m. IsProper m.now) }
    ensures { Reads (λ m. m) (spec.given_measure world.now formals.now (option_map (λ m. form_of m.now) measure.entry)) result }
{
    match measure {
        None => Ok(None),
        Some(measure) => read_given(alloc, world, formals, measure),
    }
}

/// The measure by default.
fn by_default(
    alloc: Global,
    name: &Symbol,
    formals: &Symbols,
    body: &Term,
) -> Result<Option<Term>, Halt>
    ensures { Reads (λ m. m) (spec.by_default name.now (defaults.default_measure name.now formals.now body.now)) result }
{
    match default_measure(alloc, name, formals, body) {
        Ok(measure) => Ok(Some(measure)),
        Err(error) => match error {
            MeasureError::Nested => Err(Halt::named(Code::NestedRecursion, name)),
            MeasureError::NoMeasure => Err(Halt::named(Code::NoMeasure, name)),
            MeasureError::Memory => Err(Halt::Memory),
        },
    }
}

/// The measure of a function with this body: the given one or the one by default, where it is recursive.
fn measure_of(
    alloc: Global,
    name: &Symbol,
    formals: &Symbols,
    body: &Term,
    given: Option<Term>,
) -> Result<Option<Term>, Halt>
    ensures { Reads (λ m. m) (spec.measure_of name.now formals.now body.now given) result }
{
    if !mentions(name, body) {
        return Ok(None);
    }
    if is_nested(name, body) {
        return Err(Halt::named(Code::NestedRecursion, name));
    }
    match given {
        Some(measure) => Ok(Some(measure)),
        None => by_default(alloc, name, formals, body),
    }
}

/// The body, and the measure that is given.
fn terms_of(alloc: Global, body: &Term, given: &Option<Term>) -> Result<Terms, Memory>
    ensures { IfOk result (λ ts. ts ≡ spec.terms_of body.now given.now) }
{
    let mut terms = Terms::new(alloc);
    terms.push(body.share()?)?;
    match given {
        None => Ok(terms),
        Some(measure) => {
            terms.push(measure.share()?)?;
            Ok(terms)
        }
    }
}

/// The definition of a function over its formals, of this order.
fn read_over(
    alloc: Global,
    world: &World,
    order: Order,
    parts: &FunctionParts<'_>,
    formals: Symbols,
) -> Result<Definition, Halt>
    requires { IsProperFunction parts.now }
    ensures { Reads (λ d. d) (spec.definition_over world.now order (function_seen parts.now) formals) result }
{
    let body = read_body(alloc, world, parts.name, &formals, parts.body)?;
    let given = read_measure(alloc, world, &formals, parts.measure)?;
    let terms = terms_of(alloc, &body, &given)?;
    check_order(alloc, world, order, &terms)?;
    let measure = measure_of(alloc, parts.name, &formals, &body, given)?;
    let name = parts.name.share()?;
    Ok(Definition {
        name,
        formals,
        body,
        measure,
    })
}

/// The definition of a function by its parts, of this order.
pub(crate) fn read_definition(
    alloc: Global,
    world: &World,
    order: Order,
    parts: &FunctionParts<'_>,
) -> Result<Definition, Halt>
    requires { IsProperFunction parts.now }
    ensures { Reads (λ d. d) (spec.definition_of world.now order (function_seen parts.now)) result }
{
    let formals = read_formals(alloc, parts.formals)?;
    read_over(alloc, world, order, parts, formals)
}
