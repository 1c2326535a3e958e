//! What may depend on function variables, and what has to.

ghost use Rattle.events.specs.Orders as spec;
ghost use Rattle.events.specs.view.Halts.{Reads};

use crate::halt::Halt;
use lisp_data::Code;
use soft_vars::variables_in;
use std::alloc::Global;
use terms::Terms;
use worlds::World;

/// Whether what an event makes depends on function variables.
#[derive(Clone, Copy, Debug, PartialEq, Eq)]
pub enum Order {
    /// It depends on none.
    First,
    /// It depends on one at least.
    Second,
}

/// Refuses terms that depend on function variables other than their order says.
pub(crate) fn check_order(
    alloc: Global,
    world: &World,
    order: Order,
    terms: &Terms,
) -> Result<(), Halt>
    ensures { Reads (λ done. done) (spec.in_order world.now order terms.now) result }
{
    let variables = variables_in(alloc, world, terms)?;
    match order {
        Order::First => match variables.as_slice() {
            [] => Ok(()),
            [first, ..] => Err(Halt::named(Code::HasFunctionVariables, first)),
        },
        Order::Second => match variables.as_slice() {
            [] => Err(Halt::word(alloc, Code::ShapeMismatch, "function-variable")),
            [_, ..] => Ok(()),
        },
    }
}
