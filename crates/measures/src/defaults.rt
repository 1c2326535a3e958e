//! The measure of a recursive function that gives none.

ghost use Rattle.std.specs.Prelude.{◌≡◌, map};
ghost use Rattle.std.specs.Option.{option_copied};
ghost use Rattle.terms.specs.Terms.{tms};
ghost use Rattle.measures.specs.view.Calls.{call_of};
ghost use Rattle.measures.specs.DefaultMeasure as spec;
ghost use Rattle.measures.specs.Outcomes.{Says};

use crate::calls::{RecursiveCall, recursive_calls};
use crate::changes::all_change;
use crate::errors::MeasureError;
use crate::shapes::acl2_count;
use lisp_data::{Symbol, Symbols};
use std::alloc::Global;
use terms::Term;

/// The first formal that each of the calls changes.
fn first_changed<'a>(formals: &'a [Symbol], calls: &[RecursiveCall]) -> Option<&'a Symbol>
    ensures { option_copied result ≡ spec.first_changed formals.now (map call_of calls.now) formals.now }
{
    for formal in formals {
        if all_change(formals, formal, calls) {
            return Some(formal);
        }
    }
    None
}

/// The measure by default: the count of the first formal that each recursive call changes (docs/MODEL.md, "Recursive
/// calls and obligations").
pub fn default_measure(
    alloc: Global,
    name: &Symbol,
    formals: &Symbols,
    body: &Term,
) -> Result<Term, MeasureError>
    ensures { Says (λ m. m) (spec.default_measure name.now formals.now body.now) result }
{
    let calls = match recursive_calls(alloc, name, body) {
        Ok(calls) => calls,
        Err(error) => return Err(error),
    };
    match first_changed(formals.as_slice(), calls.as_slice()) {
        None => Err(MeasureError::NoMeasure),
        Some(formal) => {
            let variable = Term::var(alloc, formal.share()?)?;
            Ok(acl2_count(alloc, variable)?)
        }
    }
}
