//! The parts of proofs' texts that are no proofs: terms, numbers, substitutions and names.

ghost use Rattle.std.specs.Prelude.{◌≡◌, [], map, option_map, IfOk, IfSome, IfNone, None};
ghost use Rattle.lisp_data.specs.FormView.{form_of, IsProper, AllProper};
ghost use Rattle.term_forms.specs.Outcomes.{each};
ghost use Rattle.terms.specs.Primitives.{lookup};
ghost use Rattle.proof_texts.specs.Items as items;
ghost use Rattle.proof_texts.specs.Parts as spec;
ghost use Rattle.proof_texts.specs.Refused.{Says};

use crate::errors::ProofError;
use crate::forms::{is_word, items, symbol};
use lisp_data::{Form, Symbol};
use std::alloc::Global;
use term_forms::{Scope, is_variable_name, translate};
use terms::{FactName, FunPair, FunPairs, Path, Subst, Term, Terms};
use worlds::World;

/// A term, in which any variable may stand.
pub(crate) fn read_term(alloc: Global, world: &World, form: &Form) -> Result<Term, ProofError>
    requires { IsProper form.now }
    ensures { Says (λ t. t) (spec.term_of world.now (form_of form.now)) result }
{
    let term = translate(alloc, form, world, &Scope::Any)?;
    Ok(term)
}

/// The items of a list that has to stand there.
pub(crate) fn list(alloc: Global, form: &Form) -> Result<&[Form], ProofError>
    requires { IsProper form.now }
    ensures items { Says (λ items. map form_of items.now) (spec.list_of (form_of form.now)) result }
    ensures proper { IfOk result (λ items. AllProper items.now) }
{
    match items(form) {
        Some(items) => Ok(items),
        None => Err(ProofError::bad_proof(alloc)),
    }
}

#[tactic(auto, using(crate::proofs::PartLemmas::items))]
fn each_term(alloc: Global, world: &World, forms: &[Form]) -> Result<Terms, ProofError>
    requires { AllProper forms.now }
    ensures { Says (λ ts. ts) (each (spec.term_of world.now) (map form_of forms.now)) result }
{
    let mut terms = Terms::new(alloc);
    for form in forms {
        let term = read_term(alloc, world, form)?;
        terms.push(term)?;
    }
    Ok(terms)
}

/// A list of terms.
pub(crate) fn read_terms(alloc: Global, world: &World, form: &Form) -> Result<Terms, ProofError>
    requires { IsProper form.now }
    ensures { Says (λ ts. ts) (spec.terms_of world.now (form_of form.now)) result }
{
    let forms = list(alloc, form)?;
    let terms = each_term(alloc, world, forms)?;
    Ok(terms)
}

/// A number of a path, of an axiom, of what a measure owes, or of an isomorphism's condition.
#[tactic(auto, using(crate::proofs::PartLemmas::numbers))]
pub(crate) fn read_number(alloc: Global, form: &Form) -> Result<u32, ProofError>
    requires { IsProper form.now }
    ensures { Says (λ n. n) (spec.number_of (form_of form.now)) result }
{
    match form {
        Form::Int(number) => {
            if *number >= 0 && *number < 4_294_967_296 {
                Ok(*number as u32)
            } else {
                Err(ProofError::bad_proof(alloc))
            }
        }
        Form::Sym(_) | Form::Text(_) | Form::List(_, _) => Err(ProofError::bad_proof(alloc)),
    }
}

#[tactic(auto, using(crate::proofs::PartLemmas::items))]
fn each_number(alloc: Global, forms: &[Form]) -> Result<Path, ProofError>
    requires { AllProper forms.now }
    ensures { Says (λ path. path) (each spec.number_of (map form_of forms.now)) result }
{
    let mut path = Path::new(alloc);
    for form in forms {
        let number = read_number(alloc, form)?;
        path.push(number)?;
    }
    Ok(path)
}

/// A list of numbers.
pub(crate) fn read_path(alloc: Global, form: &Form) -> Result<Path, ProofError>
    requires { IsProper form.now }
    ensures { Says (λ path. path) (spec.path_of (form_of form.now)) result }
{
    let forms = list(alloc, form)?;
    let path = each_number(alloc, forms)?;
    Ok(path)
}

/// A symbol that has to stand there.
fn name(alloc: Global, form: &Form) -> Result<&Symbol, ProofError>
    requires { IsProper form.now }
    ensures { Says (λ name. name.now) (spec.name_of (form_of form.now)) result }
{
    match symbol(form) {
        Some(name) => Ok(name),
        None => Err(ProofError::bad_proof(alloc)),
    }
}

/// A variable that has no term yet.
fn new_variable<'a>(alloc: Global, s: &Subst, form: &'a Form) -> Result<&'a Symbol, ProofError>
    requires { IsProper form.now }
    ensures name { Says (λ name. name.now) (spec.new_variable s.now (items.symbol_of (form_of form.now))) result }
    ensures new { IfOk result (λ name. lookup s.now name.now ≡ None) }
{
    match symbol(form) {
        Some(name) if is_variable_name(name) && s.find(name).is_none() => Ok(name),
        _ => Err(ProofError::bad_proof(alloc)),
    }
}

/// The pairs before this one, and it: a variable with its term.
fn with_pair(alloc: Global, world: &World, mut s: Subst, pair: &Form) -> Result<Subst, ProofError>
    requires { IsProper pair.now }
    ensures { Says (λ s. s) (spec.with_pair world.now s (items.items_of (form_of pair.now))) result }
{
    let Some([name, image]) = items(pair) else {
        return Err(ProofError::bad_proof(alloc));
    };
    let name = new_variable(alloc, &s, name)?;
    let image = read_term(alloc, world, image)?;
    s.push(name.share()?, image)?;
    Ok(s)
}

#[tactic(auto, using(crate::proofs::ItemLemmas::proper_at))]
fn pairs(alloc: Global, world: &World, forms: &[Form]) -> Result<Subst, ProofError>
    requires { AllProper forms.now }
    ensures { Says (λ s. s) (spec.with_pairs world.now [] (map form_of forms.now)) result }
{
    let mut s = Subst::new(alloc);
    for form in forms {
        s = with_pair(alloc, world, s, form)?;
    }
    Ok(s)
}

/// A list of pairs, each of a variable and its term, no variable twice.
pub(crate) fn read_substitution(
    alloc: Global,
    world: &World,
    form: &Form,
) -> Result<Subst, ProofError>
    requires { IsProper form.now }
    ensures { Says (λ s. s) (spec.substitution_of world.now (form_of form.now)) result }
{
    let forms = list(alloc, form)?;
    let s = pairs(alloc, world, forms)?;
    Ok(s)
}

fn known_theorem(world: &World, name: &Symbol) -> Result<Symbol, ProofError>
    ensures { Says (λ name. name) (spec.known_theorem world.now name.now) result }
{
    if world.find_theorem(name).is_none() {
        return Err(ProofError::unknown_name(name));
    }
    let name = name.share()?;
    Ok(name)
}

fn known_function(world: &World, name: &Symbol) -> Result<Symbol, ProofError>
    ensures { Says (λ name. name) (spec.known_function world.now name.now) result }
{
    if world.arity(name).is_none() {
        return Err(ProofError::unknown_name(name));
    }
    let name = name.share()?;
    Ok(name)
}

fn known_isomorphism(world: &World, name: &Symbol) -> Result<Symbol, ProofError>
    ensures { Says (λ name. name) (spec.known_isomorphism world.now name.now) result }
{
    if world.find_iso(name).is_none() {
        return Err(ProofError::unknown_name(name));
    }
    let name = name.share()?;
    Ok(name)
}

/// The name of a theorem of the world.
pub(crate) fn read_theorem(alloc: Global, world: &World, form: &Form) -> Result<Symbol, ProofError>
    requires { IsProper form.now }
    ensures { Says (λ name. name) (spec.theorem_of world.now (form_of form.now)) result }
{
    let name = name(alloc, form)?;
    known_theorem(world, name)
}

/// The name of a function of the world.
pub(crate) fn read_function(alloc: Global, world: &World, form: &Form) -> Result<Symbol, ProofError>
    requires { IsProper form.now }
    ensures { Says (λ name. name) (spec.function_of world.now (form_of form.now)) result }
{
    let name = name(alloc, form)?;
    known_function(world, name)
}

/// The name of an isomorphism of the world.
pub(crate) fn read_isomorphism(
    alloc: Global,
    world: &World,
    form: &Form,
) -> Result<Symbol, ProofError>
    requires { IsProper form.now }
    ensures { Says (λ name. name) (spec.isomorphism_of world.now (form_of form.now)) result }
{
    let name = name(alloc, form)?;
    known_isomorphism(world, name)
}

/// `(:measure f k)`: what a function's measure owes.
fn read_measure(alloc: Global, world: &World, form: &Form) -> Result<FactName, ProofError>
    requires { IsProper form.now }
    ensures { Says (λ fact. fact) (spec.measure_of world.now (items.items_of (form_of form.now))) result }
{
    let Some([word, function, number]) = items(form) else {
        return Err(ProofError::bad_proof(alloc));
    };
    if !is_word(word, ":MEASURE") {
        return Err(ProofError::bad_proof(alloc));
    }
    let function = read_function(alloc, world, function)?;
    let number = read_number(alloc, number)?;
    Ok(FactName::Measure(function, number))
}

/// The name of a theorem, or what a function's measure owes.
pub(crate) fn read_fact(alloc: Global, world: &World, form: &Form) -> Result<FactName, ProofError>
    requires { IsProper form.now }
    ensures { Says (λ fact. fact) (spec.fact_of world.now (form_of form.now)) result }
{
    match symbol(form) {
        Some(name) => {
            let name = known_theorem(world, name)?;
            Ok(FactName::Theorem(name))
        }
        None => read_measure(alloc, world, form),
    }
}

/// The two forms of a pair with a point between them.
#[tactic(auto, using(crate::proofs::PartLemmas::pointed))]
fn pointed(form: &Form) -> Option<(&Form, &Form)>
    requires { IsProper form.now }
    ensures some { IfSome result (λ p. spec.two_symbols (form_of form.now) ≡ spec.both (items.symbol_of (form_of p.0.now)) (items.symbol_of (form_of p.1.now))) }
    ensures none { IfNone result (spec.two_symbols (form_of form.now) ≡ None) }
    ensures proper { IfSome result (λ p. IsProper p.0.now × IsProper p.1.now) }
{
    match form {
        Form::List(items, tail) => match tail {
            None => None,
            Some(end) => match items.as_slice() {
                [first] => Some((first, end)),
                _ => None,
            },
        },
        Form::Int(_) | Form::Sym(_) | Form::Text(_) => None,
    }
}

/// The two symbols of a pair with a point between them, `(?f . g)` (docs/SYNTAX.md).
pub fn two_symbols(form: &Form) -> Option<(&Symbol, &Symbol)>
    requires { IsProper form.now }
    ensures { option_map (λ p. (p.0.now, p.1.now)) result ≡ spec.two_symbols (form_of form.now) }
{
    let (first, end) = pointed(form)?;
    let first = symbol(first)?;
    let end = symbol(end)?;
    Some((first, end))
}

/// `(?f . g)`: a function for a function variable.
fn read_pair(alloc: Global, world: &World, form: &Form) -> Result<FunPair, ProofError>
    requires { IsProper form.now }
    ensures { Says (λ pair. pair) (spec.function_pair world.now (form_of form.now)) result }
{
    let Some((variable, function)) = two_symbols(form) else {
        return Err(ProofError::bad_proof(alloc));
    };
    let variable = known_function(world, variable)?;
    let function = known_function(world, function)?;
    Ok(FunPair { variable, function })
}

#[tactic(auto, using(crate::proofs::PartLemmas::items))]
fn each_pair(alloc: Global, world: &World, forms: &[Form]) -> Result<FunPairs, ProofError>
    requires { AllProper forms.now }
    ensures { Says (λ pairs. pairs) (each (spec.function_pair world.now) (map form_of forms.now)) result }
{
    let mut pairs = FunPairs::new(alloc);
    for form in forms {
        let pair = read_pair(alloc, world, form)?;
        pairs.push(pair)?;
    }
    Ok(pairs)
}

/// A list of functions for function variables.
pub(crate) fn read_functions(
    alloc: Global,
    world: &World,
    form: &Form,
) -> Result<FunPairs, ProofError>
    requires { IsProper form.now }
    ensures { Says (λ pairs. pairs) (spec.functions_of world.now (form_of form.now)) result }
{
    let forms = list(alloc, form)?;
    let pairs = each_pair(alloc, world, forms)?;
    Ok(pairs)
}
