//! What the proofs of a restriction are about.

ghost use Rattle.std.specs.Prelude.{◌≡◌, Ok, Some, IsSome};
ghost use Rattle.terms.specs.Definitions.{find};
ghost use Rattle.restrict_tool.specs.Parts.{AreParts, restriction_in};
ghost use Rattle.restrict_tool.specs.Restrictions.{plan_of};
ghost use Rattle.restrict_tool.specs.view.Requests.{request_seen};

use crate::planning::Request;
use lisp_data::{Symbol, Value};
use plans::{Entry, Plan};
use terms::{Definition, Link, Term};
use worlds::World;

/// What the proofs of a restriction are about.
#[derive(Clone, Copy)]
pub(crate) struct Parts<'a> {
    /// The world before the event.
    pub world: &'a World,
    /// The old function.
    pub definition: &'a Definition,
    /// The name of the new function.
    pub function: &'a Symbol,
    pub restriction: &'a Term,
    /// The value of the new function where the restriction isn't met.
    pub undefined: &'a Value,
}

/// The restriction of a plan.
#[tactic(auto, using(crate::proofs::Third::third))]
fn restriction_of(plan: &Plan) -> &Term
    requires { IsSome (restriction_in plan.now.entries) }
    ensures { restriction_in plan.now.entries ≡ Some result.now }
{
    let entries = plan.entries.as_slice();
    match &entries[2] {
        Entry::Chained(_, link) => match link {
            Link::Restriction {
                old: _,
                new: _,
                formals: _,
                condition,
            } => condition,
            _ => unreachable!(),
        },
        _ => unreachable!(),
    }
}

/// The parts of a plan: the old function is the request's, and the restriction is that of the plan's link.
pub(crate) fn parts_of<'a>(world: &'a World, request: &Request<'a>, plan: &'a Plan) -> Parts<'a>
    requires { plan_of world.now (request_seen request.now) ≡ Ok plan.now }
    ensures planned { AreParts world.now (request_seen request.now) result.definition.now result.restriction.now plan.now }
    ensures world { result.world.now ≡ world.now }
    ensures function { result.function.now ≡ request.now.function.now }
    ensures undefined { result.undefined.now ≡ request.now.undefined.now }
{
    world.soundness();
    let Some(definition) = world.find_definition(request.old) else {
        unreachable!()
    };
    Parts {
        world,
        definition,
        function: request.function,
        restriction: restriction_of(plan),
        undefined: request.undefined,
    }
}
