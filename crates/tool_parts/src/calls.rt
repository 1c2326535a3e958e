//! The recursive calls of a function, and what it owes.

ghost use Rattle.std.specs.Prelude.{◌≡◌, [], map, length, All, IfOk};
ghost use Rattle.measures.specs.Calls.{call_of};
ghost use Rattle.terms.specs.Measures as measure;
ghost use Rattle.tool_parts.specs.Counted.{IsCounted};

use lisp_data::Memory;
use measures::{MeasureError, RecursiveCalls, obligations, recursive_calls};
use plans::Sequents;
use std::alloc::Global;
use terms::Definition;

/// The recursive calls of a definition.
#[tactic(auto, using(crate::proofs::Calling::calling))]
pub fn calls_of(alloc: Global, definition: &Definition) -> Result<RecursiveCalls, Memory>
    requires { IsCounted definition.now }
    ensures calls { IfOk result (λ cs. map call_of cs ≡ measure.recursive_calls definition.now.name [] definition.now.body) }
    ensures lengths { IfOk result (λ cs. All (λ c. length definition.now.formals ≡ length c.args) cs) }
{
    match recursive_calls(alloc, &definition.name, &definition.body) {
        Ok(calls) => Ok(calls),
        Err(error) => match error {
            MeasureError::Nested | MeasureError::NoMeasure => unreachable!(),
            MeasureError::Memory => Err(Memory),
        },
    }
}

/// What a function owes: that its measure is natural and falls at each recursive call.
pub fn owed_by(alloc: Global, definition: &Definition) -> Result<Sequents, Memory>
    requires { IsCounted definition.now }
    ensures { IfOk result (λ ss. ss ≡ measure.obligations definition.now) }
{
    match obligations(alloc, definition) {
        Ok(owed) => Ok(owed),
        Err(error) => match error {
            MeasureError::Nested | MeasureError::NoMeasure => unreachable!(),
            MeasureError::Memory => Err(Memory),
        },
    }
}
