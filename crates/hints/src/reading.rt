//! The parts of hint steps: functions, terms, rules, variables and facts.

ghost use Rattle.std.specs.Prelude.{◌≡◌, [], None, map, IfOk};
ghost use Rattle.lisp_data.specs.FormView.{form_of, IsProper, AllProper};
ghost use Rattle.terms.specs.Primitives.{lookup};
ghost use Rattle.worlds.specs.Lookups.{find_spec};
ghost use Rattle.hints.specs.Refused.{Says};
ghost use Rattle.hints.specs.Steps as spec;

use crate::errors::HintError;
use crate::facts::{Facts, all_in, says};
use crate::formulas::rule_of;
use crate::hint::{Cited, Fact, Scheme, Use};
use lisp_data::{Form, Symbol, Symbols};
use proof_texts::{contains, items, symbol, two_symbols};
use reduction::{Rules, Source, has, mentions};
use sequents::{renamed, terms_of};
use soft_vars::instance_map;
use std::alloc::Global;
use term_forms::{Scope, is_variable_name, translate};
use terms::{Definition, FunPair, FunPairs, Node, Sequent, Subst, Term, Terms, substitute};
use worlds::World;

fn read_name(alloc: Global, form: &Form) -> Result<&Symbol, HintError>
    requires { IsProper form.now }
    ensures { Says (λ name. name.now) (spec.name_of (form_of form.now)) result }
{
    match symbol(form) {
        Some(name) => Ok(name),
        None => Err(HintError::bad_hint(alloc)),
    }
}

/// A term, in which any variable may stand.
fn read_term(alloc: Global, world: &World, form: &Form) -> Result<Term, HintError>
    requires { IsProper form.now }
    ensures { Says (λ t. t) (spec.term_of world.now (form_of form.now)) result }
{
    let term = translate(alloc, form, world, &Scope::Any)?;
    Ok(term)
}

/// The definition of a function.
fn defined<'a>(world: &'a World, name: &Symbol) -> Result<&'a Definition, HintError>
    ensures { Says (λ d. d.now) (spec.defined world.now name.now) result }
{
    match world.find_definition(name) {
        Some(definition) => Ok(definition),
        None => {
            if world.arity(name).is_some() {
                Err(HintError::wrong_kind(name))
            } else {
                Err(HintError::unknown_name(name))
            }
        }
    }
}

fn is_recursive(definition: &Definition) -> bool
    ensures { result ≡ spec.is_recursive definition.now }
{
    mentions(&definition.body, definition.name.text())
}

/// A function of `:unfold`, which has a definition and isn't recursive.
fn add_opened(
    alloc: Global,
    world: &World,
    form: &Form,
    names: &mut Symbols,
) -> Result<(), HintError>
    requires { IsProper form.now }
    ensures { Says (λ _. names.new) (spec.with_opened world.now names.old (form_of form.now)) result }
{
    let name = read_name(alloc, form)?;
    let definition = defined(world, name)?;
    if is_recursive(definition) {
        return Err(HintError::bad_hint(alloc));
    }
    names.push(name.share()?)?;
    Ok(())
}

#[tactic(auto, using(crate::proofs::Through::through_forms))]
pub(crate) fn add_all_opened(
    alloc: Global,
    world: &World,
    forms: &[Form],
    names: &mut Symbols,
) -> Result<(), HintError>
    requires { AllProper forms.now }
    ensures { Says (λ _. names.new) (spec.through (spec.with_opened world.now) names.old (map form_of forms.now)) result }
{
    for form in forms {
        add_opened(alloc, world, form, names)?;
    }
    Ok(())
}

/// A term of `:cases`.
fn add_case(alloc: Global, world: &World, form: &Form, cases: &mut Terms) -> Result<(), HintError>
    requires { IsProper form.now }
    ensures { Says (λ _. cases.new) (spec.with_case world.now cases.old (form_of form.now)) result }
{
    let term = read_term(alloc, world, form)?;
    cases.push(term)?;
    Ok(())
}

#[tactic(auto, using(crate::proofs::Through::through_forms))]
pub(crate) fn add_all_cases(
    alloc: Global,
    world: &World,
    forms: &[Form],
    cases: &mut Terms,
) -> Result<(), HintError>
    requires { AllProper forms.now }
    ensures { Says (λ _. cases.new) (spec.through (spec.with_case world.now) cases.old (map form_of forms.now)) result }
{
    for form in forms {
        add_case(alloc, world, form, cases)?;
    }
    Ok(())
}

/// The definition of the function that the term calls.
fn called_in<'a>(alloc: Global, world: &'a World, term: &Term) -> Result<&'a Definition, HintError>
    ensures { Says (λ d. d.now) (spec.called_in world.now term.now) result }
{
    match term.node() {
        Node::Var(_) => Err(HintError::bad_hint(alloc)),
        Node::Quote(_) => Err(HintError::bad_hint(alloc)),
        Node::Call(name, _) => defined(world, name),
    }
}

/// A call of `:expand`, of a function with a definition.
fn add_expanded(
    alloc: Global,
    world: &World,
    form: &Form,
    calls: &mut Terms,
) -> Result<(), HintError>
    requires { IsProper form.now }
    ensures { Says (λ _. calls.new) (spec.with_expanded world.now calls.old (form_of form.now)) result }
{
    let term = read_term(alloc, world, form)?;
    called_in(alloc, world, &term)?;
    calls.push(term)?;
    Ok(())
}

#[tactic(auto, using(crate::proofs::Through::through_forms))]
pub(crate) fn add_all_expanded(
    alloc: Global,
    world: &World,
    forms: &[Form],
    calls: &mut Terms,
) -> Result<(), HintError>
    requires { AllProper forms.now }
    ensures { Says (λ _. calls.new) (spec.through (spec.with_expanded world.now) calls.old (map form_of forms.now)) result }
{
    for form in forms {
        add_expanded(alloc, world, form, calls)?;
    }
    Ok(())
}

/// A theorem of `:rewrite`, which makes a rule. It is left out where its universals aren't the condition's.
fn add_rule(
    alloc: Global,
    facts: &Facts<'_>,
    form: &Form,
    rules: &mut Rules,
) -> Result<(), HintError>
    requires { IsProper form.now }
    ensures { Says (λ _. rules.new) (spec.with_rule facts.now.world.now facts.now.universals.now rules.old (form_of form.now)) result }
{
    let name = read_name(alloc, form)?;
    let Some(theorem) = facts.world.find_theorem(name) else {
        return Err(HintError::unknown_name(name));
    };
    let Some(rule) = rule_of(alloc, Source::Theorem(name.share()?), &theorem.goal)? else {
        return Err(HintError::bad_hint(alloc));
    };
    if all_in(facts.universals.as_slice(), theorem.universals.as_slice()) {
        rules.push(rule)?;
    }
    Ok(())
}

#[tactic(auto, using(crate::proofs::Through::through_forms))]
pub(crate) fn add_all_rules(
    alloc: Global,
    facts: &Facts<'_>,
    forms: &[Form],
    rules: &mut Rules,
) -> Result<(), HintError>
    requires { AllProper forms.now }
    ensures { Says (λ _. rules.new) (spec.through (spec.with_rule facts.now.world.now facts.now.universals.now) rules.old (map form_of forms.now)) result }
{
    for form in forms {
        add_rule(alloc, facts, form, rules)?;
    }
    Ok(())
}

/// A variable of `:induct`, which is a new one.
fn add_variable(alloc: Global, form: &Form, names: &mut Symbols) -> Result<(), HintError>
    requires { IsProper form.now }
    ensures { Says (λ _. names.new) (spec.with_variable names.old (form_of form.now)) result }
{
    let name = read_name(alloc, form)?;
    if !is_variable_name(name) || contains(names, name) {
        return Err(HintError::bad_hint(alloc));
    }
    names.push(name.share()?)?;
    Ok(())
}

#[tactic(auto, using(crate::proofs::Through::through_forms))]
fn read_variables(alloc: Global, forms: &[Form]) -> Result<Symbols, HintError>
    requires { AllProper forms.now }
    ensures { Says (λ xs. xs) (spec.through spec.with_variable [] (map form_of forms.now)) result }
{
    let mut names = Symbols::new(alloc);
    for form in forms {
        add_variable(alloc, form, &mut names)?;
    }
    Ok(names)
}

/// Induction by a definition on so many variables.
fn scheme_on(name: &Symbol, over: Symbols, definition: &Definition) -> Result<Scheme, HintError>
    ensures { Says (λ s. s) (spec.scheme_on name.now over definition.now) result }
{
    if !is_recursive(definition) {
        return Err(HintError::wrong_kind(name));
    }
    if over.len() != definition.formals.len() {
        return Err(HintError::wrong_arity(name));
    }
    let function = name.share()?;
    Ok(Scheme { function, over })
}

/// The induction of a step `:induct`.
pub(crate) fn read_scheme(alloc: Global, world: &World, form: &Form) -> Result<Scheme, HintError>
    requires { IsProper form.now }
    ensures { Says (λ s. s) (spec.scheme_of world.now (form_of form.now)) result }
{
    let Some([name, variables @ ..]) = items(form) else {
        return Err(HintError::bad_hint(alloc));
    };
    let name = read_name(alloc, name)?;
    let over = read_variables(alloc, variables)?;
    let definition = defined(world, name)?;
    let scheme = scheme_on(name, over, definition)?;
    Ok(scheme)
}

/// The matrix of a specification that is assumed.
fn assumed(facts: &Facts<'_>, name: &Symbol) -> Result<Cited, HintError>
    ensures { Says (λ c. c) (spec.assumed facts.now.universals.now name.now (find_spec facts.now.world.now.specifications name.now)) result }
{
    let Some(specification) = facts.world.find_spec(name) else {
        return Err(HintError::unknown_name(name));
    };
    if !has(facts.universals.as_slice(), &specification.matrix) {
        return Err(HintError::unknown_name(name));
    }
    Ok(Cited {
        fact: Fact::Assumed(specification.matrix.share()?),
        formula: specification.matrix.share()?,
    })
}

/// A theorem, or a specification that is assumed.
fn by_name(alloc: Global, facts: &Facts<'_>, name: &Symbol) -> Result<Cited, HintError>
    ensures { Says (λ c. c) (spec.by_name facts.now.world.now facts.now.universals.now name.now (lookup facts.now.world.now.theorems name.now)) result }
{
    let Some(theorem) = facts.world.find_theorem(name) else {
        let cited = assumed(facts, name)?;
        return Ok(cited);
    };
    if !all_in(facts.universals.as_slice(), theorem.universals.as_slice()) {
        return Err(HintError::bad_hint(alloc));
    }
    Ok(Cited {
        fact: Fact::Theorem(name.share()?),
        formula: theorem.goal.share()?,
    })
}

fn number_in(number: i128) -> Option<u32>
    ensures { result ≡ spec.number_in number }
{
    if number >= 0 && number < 4_294_967_296 {
        Some(number as u32)
    } else {
        None
    }
}

/// The axiom with this number.
fn by_number(alloc: Global, world: &World, number: i128) -> Result<Cited, HintError>
    ensures { Says (λ c. c) (spec.by_number world.now number) result }
{
    let Some(number) = number_in(number) else {
        return Err(HintError::bad_hint(alloc));
    };
    match says(alloc, world, &Source::Axiom(number))? {
        None => Err(HintError::bad_hint(alloc)),
        Some(proved) => Ok(Cited {
            fact: Fact::Axiom(number),
            formula: proved.sequent().goal.share()?,
        }),
    }
}

/// `(?f . g)`: a function for a function variable.
fn add_function(alloc: Global, form: &Form, pairs: &mut FunPairs) -> Result<(), HintError>
    requires { IsProper form.now }
    ensures { Says (λ _. pairs.new) (spec.with_function pairs.old (form_of form.now)) result }
{
    let Some((variable, function)) = two_symbols(form) else {
        return Err(HintError::bad_hint(alloc));
    };
    let variable = variable.share()?;
    let function = function.share()?;
    pairs.push(FunPair { variable, function })?;
    Ok(())
}

#[tactic(auto, using(crate::proofs::Through::through_forms))]
fn read_functions(alloc: Global, forms: &[Form]) -> Result<FunPairs, HintError>
    requires { AllProper forms.now }
    ensures { Says (λ pairs. pairs) (spec.through spec.with_function [] (map form_of forms.now)) result }
{
    let mut pairs = FunPairs::new(alloc);
    for form in forms {
        add_function(alloc, form, &mut pairs)?;
    }
    Ok(pairs)
}

/// A theorem with functions in the place of function variables.
fn instance_by(
    alloc: Global,
    facts: &Facts<'_>,
    name: &Symbol,
    pairs: FunPairs,
    theorem: &Sequent,
) -> Result<Cited, HintError>
    ensures { Says (λ c. c) (spec.instance_by facts.now.world.now facts.now.universals.now name.now pairs theorem.now) result }
{
    let terms = terms_of(alloc, theorem)?;
    let map = instance_map(alloc, facts.world, &terms, &pairs)?;
    let instance = renamed(alloc, theorem, &map)?;
    if !all_in(facts.universals.as_slice(), instance.universals.as_slice()) {
        return Err(HintError::bad_hint(alloc));
    }
    Ok(Cited {
        fact: Fact::Instance(name.share()?, pairs),
        formula: instance.goal.share()?,
    })
}

/// `(n (?f . g) ..)`: a function instance of a theorem.
fn read_instance(alloc: Global, facts: &Facts<'_>, form: &Form) -> Result<Cited, HintError>
    requires { IsProper form.now }
    ensures { Says (λ c. c) (spec.instance_in facts.now.world.now facts.now.universals.now (form_of form.now)) result }
{
    let Some([name, pairs @ ..]) = items(form) else {
        return Err(HintError::bad_hint(alloc));
    };
    let name = read_name(alloc, name)?;
    let Some(theorem) = facts.world.find_theorem(name) else {
        return Err(HintError::unknown_name(name));
    };
    let pairs = read_functions(alloc, pairs)?;
    let cited = instance_by(alloc, facts, name, pairs, theorem)?;
    Ok(cited)
}

/// What a step `:use` names.
#[tactic(auto, using(crate::proofs::Through::shapes))]
fn read_cited(alloc: Global, facts: &Facts<'_>, form: &Form) -> Result<Cited, HintError>
    requires { IsProper form.now }
    ensures { Says (λ c. c) (spec.cited_in facts.now.world.now facts.now.universals.now (form_of form.now)) result }
{
    match form {
        Form::Int(number) => {
            let cited = by_number(alloc, facts.world, *number)?;
            Ok(cited)
        }
        Form::Sym(name) => {
            let cited = by_name(alloc, facts, name)?;
            Ok(cited)
        }
        Form::Text(_) => Err(HintError::bad_hint(alloc)),
        Form::List(_, _) => {
            let cited = read_instance(alloc, facts, form)?;
            Ok(cited)
        }
    }
}

/// A variable that has no term yet.
fn new_variable<'a>(alloc: Global, s: &Subst, form: &'a Form) -> Result<&'a Symbol, HintError>
    requires { IsProper form.now }
    ensures variable { Says (λ x. x.now) (spec.new_variable s.now (form_of form.now)) result }
    ensures new { IfOk result (λ x. lookup s.now x.now ≡ None) }
{
    let name = read_name(alloc, form)?;
    if !is_variable_name(name) || s.find(name).is_some() {
        return Err(HintError::bad_hint(alloc));
    }
    Ok(name)
}

/// A variable with its term.
fn add_pair(alloc: Global, world: &World, form: &Form, s: &mut Subst) -> Result<(), HintError>
    requires { IsProper form.now }
    ensures { Says (λ _. s.new) (spec.with_pair world.now s.old (form_of form.now)) result }
{
    let Some([name, term]) = items(form) else {
        return Err(HintError::bad_hint(alloc));
    };
    let name = new_variable(alloc, s, name)?;
    let term = read_term(alloc, world, term)?;
    s.push(name.share()?, term)?;
    Ok(())
}

#[tactic(auto, using(crate::proofs::Through::through_forms))]
fn read_pairs(alloc: Global, world: &World, forms: &[Form]) -> Result<Subst, HintError>
    requires { AllProper forms.now }
    ensures { Says (λ s. s) (spec.through (spec.with_pair world.now) [] (map form_of forms.now)) result }
{
    let mut s = Subst::new(alloc);
    for form in forms {
        add_pair(alloc, world, form, &mut s)?;
    }
    Ok(s)
}

fn read_substitution(alloc: Global, world: &World, form: &Form) -> Result<Subst, HintError>
    requires { IsProper form.now }
    ensures { Says (λ s. s) (spec.pairs_of world.now (form_of form.now)) result }
{
    let Some(forms) = items(form) else {
        return Err(HintError::bad_hint(alloc));
    };
    let s = read_pairs(alloc, world, forms)?;
    Ok(s)
}

/// The fact under the substitution.
fn use_under(alloc: Global, cited: Cited, s: Subst) -> Result<Use, HintError>
    ensures { Says (λ u. u) (Ok (spec.use_under cited s)) result }
{
    let Cited { fact, formula } = cited;
    let hyp = substitute(alloc, &formula, &s)?;
    Ok(Use { fact, s, hyp })
}

/// The fact of a step `:use`, by its parts.
#[tactic(auto, using(crate::proofs::Through::two_parts))]
pub(crate) fn read_use(alloc: Global, facts: &Facts<'_>, parts: &[Form]) -> Result<Use, HintError>
    requires { AllProper parts.now }
    ensures { Says (λ u. u) (spec.use_by facts.now.world.now facts.now.universals.now (map form_of parts.now)) result }
{
    match parts {
        [name, pairs] => {
            let cited = read_cited(alloc, facts, name)?;
            let s = read_substitution(alloc, facts.world, pairs)?;
            let it = use_under(alloc, cited, s)?;
            Ok(it)
        }
        _ => Err(HintError::bad_hint(alloc)),
    }
}
