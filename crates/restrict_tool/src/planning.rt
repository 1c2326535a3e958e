//! The plan of a restriction.

ghost use Rattle.std.specs.Prelude.{◌≡◌, IfOk};
ghost use Rattle.lisp_data.specs.FormView.{form_of, IsProper};
ghost use Rattle.term_forms.specs.Translation as terms;
ghost use Rattle.term_forms.specs.TranslationView.{allowed};
ghost use Rattle.terms.specs.Worlds.{arity};
ghost use Rattle.plan_checks.specs.Answers.{Says};
ghost use Rattle.restrict_tool.specs.Restrictions as spec;
ghost use Rattle.restrict_tool.specs.view.Requests.{request_seen};
ghost use Rattle.tool_parts.specs.Counted.{IsCounted};

use crate::formulas::{new_body, same_where, stays_restricted};
use hint_prover::conditional;
use lisp_data::{Form, Memory, Symbol, Value};
use plan_checks::{PlanError, first_order_definition, first_order_term, numbered};
use plans::{Conditions, Entries, Entry, Plan, Sequents};
use std::alloc::Global;
use term_forms::{Scope, translate};
use terms::{Definition, Link, Term};
use tool_parts::{alone, calls_of, owed_by};
use worlds::World;

/// What is asked for.
#[derive(Clone, Copy)]
pub struct Request<'a> {
    pub old: &'a Symbol,
    /// The restriction, over the formals of the old function.
    pub restriction: &'a Form,
    /// The value of the new function where the restriction isn't met.
    pub undefined: &'a Value,
    /// The name of the new function.
    pub function: &'a Symbol,
    pub theorem: &'a Symbol,
}

/// The term of a form over the variables of a scope.
fn read_term(
    alloc: Global,
    world: &World,
    form: &Form,
    scope: &Scope<'_>,
) -> Result<Term, PlanError>
    requires { IsProper form.now }
    ensures { Says (λ t. t) (terms.translate (arity world.now.functions) (allowed scope.now) (form_of form.now)) result }
{
    let term = translate(alloc, form, world, scope)?;
    Ok(term)
}

/// The restriction as a term over the formals.
fn translated(
    alloc: Global,
    world: &World,
    request: &Request<'_>,
    definition: &Definition,
) -> Result<Term, PlanError>
    requires { IsProper request.now.restriction.now }
    ensures { Says (λ t. t) (spec.translated world.now (request_seen request.now) definition.now) result }
{
    let scope = Scope::Only(&definition.formals);
    read_term(alloc, world, request.restriction, &scope)
}

/// The restriction: a term over the formals that depends on no function variable.
fn read_restriction(
    alloc: Global,
    world: &World,
    request: &Request<'_>,
    definition: &Definition,
) -> Result<Term, PlanError>
    requires { IsProper request.now.restriction.now }
    ensures { Says (λ t. t) (spec.restriction_of world.now (request_seen request.now) definition.now) result }
{
    let restriction = translated(alloc, world, request, definition)?;
    first_order_term(alloc, world, &restriction)?;
    Ok(restriction)
}

/// The new function.
fn restricted(
    alloc: Global,
    request: &Request<'_>,
    definition: &Definition,
    restriction: &Term,
) -> Result<Definition, Memory>
    ensures { IfOk result (λ d. d ≡ spec.restricted definition.now request.now.function.now restriction.now (request_seen request.now).undefined) }
{
    let inside = new_body(alloc, definition, request.function)?;
    let outside = Term::quote(alloc, request.undefined.share()?)?;
    let mut new = definition.copy(alloc)?;
    new.name = request.function.share()?;
    new.body = conditional(alloc, restriction.share()?, inside, outside)?;
    Ok(new)
}

/// What the book has to prove: that the restriction stays met at recursive calls.
fn conditions(
    alloc: Global,
    definition: &Definition,
    restriction: &Term,
) -> Result<Conditions, Memory>
    requires { IsCounted definition.now }
    ensures { IfOk result (λ cs. cs ≡ spec.conditions_of definition.now restriction.now) }
{
    let calls = calls_of(alloc, definition)?;
    let mut sequents = Sequents::new(alloc);
    for call in calls.as_slice() {
        sequents.push(stays_restricted(alloc, definition, restriction, call)?)?;
    }
    numbered(alloc, ":RESTRICTION-OF-CALL-", sequents.as_slice())
}

/// What is made: the new function, the theorem, and what the theorem says for a chain.
fn entries(
    alloc: Global,
    request: &Request<'_>,
    definition: &Definition,
    restriction: &Term,
    new: Definition,
) -> Result<Entries, Memory>
    requires { new ≡ spec.restricted definition.now request.now.function.now restriction.now (request_seen request.now).undefined }
    ensures { IfOk result (λ es. es ≡ spec.entries_of (request_seen request.now) definition.now restriction.now) }
{
    let theorem = same_where(alloc, definition, request.function, restriction)?;
    let link = Link::Restriction {
        old: definition.name.share()?,
        new: request.function.share()?,
        formals: definition.formals.copy(alloc)?,
        condition: restriction.share()?,
    };
    let mut entries = Entries::new(alloc);
    entries.push(Entry::Function(new))?;
    entries.push(Entry::Theorem(request.theorem.share()?, alone(alloc, theorem)))?;
    entries.push(Entry::Chained(request.theorem.share()?, link))?;
    Ok(entries)
}

/// The plan for a function and a restriction.
fn planned(
    alloc: Global,
    request: &Request<'_>,
    definition: &Definition,
    restriction: &Term,
) -> Result<Plan, Memory>
    requires old { IsCounted definition.now }
    requires new { IsCounted (spec.restricted definition.now request.now.function.now restriction.now (request_seen request.now).undefined) }
    ensures { IfOk result (λ p. p ≡ spec.planned (request_seen request.now) definition.now restriction.now) }
{
    let new = restricted(alloc, request, definition, restriction)?;
    let theorem = same_where(alloc, definition, request.function, restriction)?;
    let mut plan = Plan::new(alloc);
    plan.conditions = conditions(alloc, definition, restriction)?;
    plan.before = owed_by(alloc, &new)?;
    plan.after.push(alone(alloc, theorem))?;
    plan.entries = entries(alloc, request, definition, restriction, new)?;
    Ok(plan)
}

/// The plan of a restriction, or the first refusal: the old function comes first, then the restriction
/// (docs/TRANSFORMATIONS.md, "restrict").
pub fn plan(alloc: Global, world: &World, request: &Request<'_>) -> Result<Plan, PlanError>
    requires proper { IsProper request.now.restriction.now }
    requires new { spec.AreNew world.now (request_seen request.now) }
    ensures { Says (λ p. p) (spec.plan_of world.now (request_seen request.now)) result }
{
    world.soundness();
    let definition = first_order_definition(alloc, world, request.old)?;
    let restriction = read_restriction(alloc, world, request, definition)?;
    let plan = planned(alloc, request, definition, &restriction)?;
    Ok(plan)
}
