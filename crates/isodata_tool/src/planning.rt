//! The plan of a function on another representation.

ghost use Rattle.std.specs.Prelude.{◌≡◌, IfOk};
ghost use Rattle.terms.specs.Substitution.{HasDistinctKeys};
ghost use Rattle.plan_checks.specs.Answers.{Says};
ghost use Rattle.tool_parts.specs.Counted.{IsCounted};
ghost use Rattle.isodata_tool.specs.Carried as formulas;
ghost use Rattle.isodata_tool.specs.Isomorphic as spec;
ghost use Rattle.isodata_tool.specs.Proofs.{backs};
ghost use Rattle.isodata_tool.specs.view.Requests.{request_seen};

use crate::formulas::{carried_over, new_to_old, old_to_new, stays_old};
use crate::maps::{Mapped, mapped_formals, uses_of};
use lisp_data::{Memory, Symbol};
use plan_checks::{PlanError, first_order_definition, numbered};
use plans::{Conditions, Entries, Entry, Plan, Sequents};
use std::alloc::Global;
use terms::{Definition, Link};
use tool_parts::{alone, calls_of, owed_by};
use worlds::World;

/// What is asked for.
#[derive(Clone, Copy)]
pub struct Request<'a> {
    pub old: &'a Symbol,
    /// Formals of the old function, each with the name of its isomorphism.
    pub maps: &'a [(Symbol, Symbol)],
    /// The name of the new function.
    pub function: &'a Symbol,
    /// The name of the theorem from the new function to the old one.
    pub new_to_old: &'a Symbol,
    /// The name of the theorem from the old function to the new one.
    pub old_to_new: &'a Symbol,
}

/// What the book has to prove: that recursive calls stay in the old representation.
fn conditions(
    alloc: Global,
    world: &World,
    definition: &Definition,
    maps: &[Mapped],
) -> Result<Conditions, Memory>
    requires { IsCounted definition.now }
    ensures { IfOk result (λ cs. cs ≡ spec.conditions_of definition.now maps.now) }
{
    let calls = calls_of(alloc, definition)?;
    let mut sequents = Sequents::new(alloc);
    for call in calls.as_slice() {
        sequents.push(stays_old(alloc, world, definition, maps, call)?)?;
    }
    numbered(alloc, ":OLDP-OF-CALL-", sequents.as_slice())
}

/// What is made: the new function, the two theorems, and what the second says for a chain.
fn entries(
    alloc: Global,
    world: &World,
    request: &Request<'_>,
    definition: &Definition,
    maps: &[Mapped],
    new: Definition,
) -> Result<Entries, Memory>
    requires { new ≡ formulas.carried_over definition.now request.now.function.now maps.now }
    ensures { IfOk result (λ es. es ≡ spec.entries_of (request_seen request.now) definition.now maps.now) }
{
    let to_old = new_to_old(alloc, world, definition, request.function, maps)?;
    let to_new = old_to_new(alloc, world, definition, request.function, maps)?;
    let link = Link::Isomorphism {
        old: definition.name.share()?,
        new: request.function.share()?,
        maps: uses_of(alloc, maps)?,
    };
    let mut entries = Entries::new(alloc);
    entries.push(Entry::Function(new))?;
    entries.push(Entry::Theorem(request.new_to_old.share()?, alone(alloc, to_old)))?;
    entries.push(Entry::Theorem(request.old_to_new.share()?, alone(alloc, to_new)))?;
    entries.push(Entry::Chained(request.old_to_new.share()?, link))?;
    Ok(entries)
}

/// The plan for a function and mapped formals.
fn planned(
    alloc: Global,
    world: &World,
    request: &Request<'_>,
    definition: &Definition,
    maps: &[Mapped],
) -> Result<Plan, Memory>
    requires old { IsCounted definition.now }
    requires new { IsCounted (formulas.carried_over definition.now request.now.function.now maps.now) }
    requires keys { HasDistinctKeys (backs maps.now) }
    ensures { IfOk result (λ p. p ≡ spec.planned (request_seen request.now) definition.now maps.now) }
{
    let new = carried_over(alloc, world, definition, request.function, maps)?;
    let to_old = new_to_old(alloc, world, definition, request.function, maps)?;
    let to_new = old_to_new(alloc, world, definition, request.function, maps)?;
    let mut plan = Plan::new(alloc);
    plan.conditions = conditions(alloc, world, definition, maps)?;
    plan.before = owed_by(alloc, &new)?;
    plan.after.push(alone(alloc, to_old))?;
    plan.after.push(alone(alloc, to_new))?;
    plan.entries = entries(alloc, world, request, definition, maps, new)?;
    Ok(plan)
}

/// The plan of a function on another representation, or the first refusal: the old function comes first, then pair by pair
/// the formal and its isomorphism (docs/TRANSFORMATIONS.md, "isodata").
pub fn plan(alloc: Global, world: &World, request: &Request<'_>) -> Result<Plan, PlanError>
    requires { spec.AreNew world.now (request_seen request.now) }
    ensures { Says (λ p. p) (spec.plan_of world.now (request_seen request.now)) result }
{
    world.soundness();
    let definition = first_order_definition(alloc, world, request.old)?;
    let maps = mapped_formals(alloc, world, &definition.formals, request.maps)?;
    let plan = planned(alloc, world, request, definition, maps.as_slice())?;
    Ok(plan)
}
