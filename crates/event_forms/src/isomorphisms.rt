//! The shape of an isomorphism.

ghost use Rattle.std.specs.Prelude.{map, IfOk};
ghost use Rattle.lisp_data.specs.FormView.{form_of, AllProper};
ghost use Rattle.event_forms.specs.Isomorphisms as spec;
ghost use Rattle.event_forms.specs.Refused.{Says};
ghost use Rattle.event_forms.specs.view.ShapeView.{iso_seen, IsProperIso};

use crate::clauses::given_items;
use crate::errors::EventError;
use crate::keys::{Keyed, SeenKeys, read_keys, value_of};
use lisp_data::{Form, Symbol};
use proof_texts::symbol;
use std::alloc::Global;

/// The parts of an isomorphism.
#[derive(Clone, Copy)]
pub struct IsoParts<'a> {
    pub name: &'a Symbol,
    pub oldp: &'a Symbol,
    pub newp: &'a Symbol,
    pub forth: &'a Symbol,
    pub back: &'a Symbol,
    /// The clauses that prove its conditions.
    pub proofs: &'a [Form],
    /// The clauses that have hints for its conditions. Each condition is named once, in these or in those that prove.
    pub hows: &'a [Form],
}

/// The name that stands first, and the parts behind it.
pub(crate) fn next_name<'a>(
    alloc: Global,
    parts: &'a [Form],
) -> Result<(&'a Symbol, &'a [Form]), EventError>
    requires { AllProper parts.now }
    ensures name { Says (λ next. (next.0.now, map form_of next.1.now)) (spec.next_name (map form_of parts.now)) result }
    ensures proper { IfOk result (λ next. AllProper next.1.now) }
{
    let [first, rest @ ..] = parts else {
        return Err(EventError::bad_part(alloc, "arguments"));
    };
    match symbol(first) {
        Some(name) => Ok((name, rest)),
        None => Err(EventError::bad_part(alloc, "name")),
    }
}

/// An isomorphism: its five names, and its keys.
pub(crate) fn iso<'a>(alloc: Global, parts: &'a [Form]) -> Result<IsoParts<'a>, EventError>
    requires { AllProper parts.now }
    ensures parts { Says iso_seen (spec.iso_of (map form_of parts.now)) result }
    ensures proper { IfOk result IsProperIso }
{
    let (name, rest) = next_name(alloc, parts)?;
    let (oldp, rest) = next_name(alloc, rest)?;
    let (newp, rest) = next_name(alloc, rest)?;
    let (forth, rest) = next_name(alloc, rest)?;
    let (back, rest) = next_name(alloc, rest)?;
    read_keys(alloc, Keyed::Isomorphism, SeenKeys::none(alloc), rest)?;
    Ok(IsoParts {
        name,
        oldp,
        newp,
        forth,
        back,
        proofs: given_items(value_of(":PROOF", rest)),
        hows: given_items(value_of(":HOW", rest)),
    })
}
