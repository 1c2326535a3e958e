//! What the plans of transformations check of functions and terms.

ghost use Rattle.std.specs.Prelude.{◌≡◌, [], ◌∷◌, Some, IfOk};
ghost use Rattle.terms.specs.Definitions.{find};
ghost use Rattle.terms.specs.Pairs.{is_known};
ghost use Rattle.soft_vars.specs.Dependents.{variables_of};
ghost use Rattle.plan_checks.specs.Answers.{IsRefusal, Says};
ghost use Rattle.plan_checks.specs.Checks as spec;

use crate::errors::PlanError;
use lisp_data::{Code, Memory, Symbol};
use soft_vars::{variables_in, variables_of};
use std::alloc::Global;
use terms::{Definition, Term, Terms};
use worlds::World;

/// Whether the name stands for something in the world.
#[tactic(auto, using(soft_vars::proofs::Known::known))]
fn is_known(world: &World, name: &Symbol) -> bool
    ensures { result ≡ is_known world.now name.now }
{
    world.named(name).is_some()
}

/// Refuses a name that isn't a function's with a definition.
fn no_definition(world: &World, name: &Symbol) -> PlanError
    ensures { IsRefusal (spec.no_definition {A = Definition} world.now name.now) result }
{
    if is_known(world, name) {
        PlanError::named(Code::NotAFunction, name)
    } else {
        PlanError::named(Code::UnknownName, name)
    }
}

/// Refuses the first of some function variables.
fn check_no_variables(variables: &[Symbol]) -> Result<(), PlanError>
    ensures says { Says (λ x. x) (spec.no_variables variables.now) result }
    ensures none { IfOk result (λ _. variables.now ≡ []) }
{
    match variables {
        [] => Ok(()),
        [first, ..] => Err(PlanError::named(Code::HasFunctionVariables, first)),
    }
}

/// The definition of a function that depends on no function variable (docs/TRANSFORMATIONS.md).
pub fn first_order_definition<'a>(
    alloc: Global,
    world: &'a World,
    name: &Symbol,
) -> Result<&'a Definition, PlanError>
    ensures says { Says (λ d. d.now) (spec.first_order_definition world.now name.now) result }
    ensures found { IfOk result (λ d. find world.now.functions.defs name.now ≡ Some d.now) }
    ensures first_order { IfOk result (λ _. variables_of world.now name.now ≡ []) }
{
    let Some(definition) = world.find_definition(name) else {
        return Err(no_definition(world, name));
    };
    let variables = variables_of(alloc, world, name)?;
    check_no_variables(variables.as_slice())?;
    Ok(definition)
}

/// One term alone.
fn only(alloc: Global, term: &Term) -> Result<Terms, Memory>
    ensures { IfOk result (λ ts. ts ≡ term.now ∷ []) }
{
    let mut terms = Terms::new(alloc);
    terms.push(term.share()?)?;
    Ok(terms)
}

/// Checks that a term depends on no function variable (docs/TRANSFORMATIONS.md).
pub fn first_order_term(alloc: Global, world: &World, term: &Term) -> Result<(), PlanError>
    ensures { Says (λ _. term.now) (spec.first_order_term world.now term.now) result }
{
    let terms = only(alloc, term)?;
    let variables = variables_in(alloc, world, &terms)?;
    check_no_variables(variables.as_slice())
}
