//! The shapes of transformations.
#![tactic(auto, unfolding(lisp_data::specs::SymbolText::is_symbol_text, lisp_data::specs::Atoms::leaf, lisp_data::specs::Atoms::in_atom, lisp_data::specs::Atoms::is_delimiter, lisp_data::specs::Atoms::is_sign))]

ghost use Rattle.std.specs.Prelude.{◌≡◌, true, map, option_map, IfOk, IfSome};
ghost use Rattle.lisp_data.specs.FormView.{form_of, IsProper, AllProper};
ghost use Rattle.lisp_data.specs.SymbolText.{is_symbol_text};
ghost use Rattle.lisp_data.specs.ValueView.{val_of};
ghost use Rattle.event_forms.specs.Transformations as spec;
ghost use Rattle.event_forms.specs.Refused.{Says};
ghost use Rattle.event_forms.specs.view.ShapeView.{restrict_seen, IsProperRestriction};

use crate::clauses::given_items;
use crate::constants::constant;
use crate::errors::EventError;
use crate::isomorphisms::next_name;
use crate::keys::{Keyed, SeenKeys, read_keys, value_of};
use lisp_data::{Form, Memory, Symbol, Value};
use proof_texts::symbol;
use std::alloc::Global;

/// The parts of a restriction.
#[derive(Clone, Copy)]
pub struct RestrictParts<'a> {
    /// The old function.
    pub old: &'a Symbol,
    pub restriction: &'a Form,
    /// The value outside of the restriction, if it is given.
    pub undefined: Option<&'a Form>,
    /// The name of the new function.
    pub function: &'a Symbol,
    pub theorem: &'a Symbol,
    /// The clauses that prove its conditions.
    pub proofs: &'a [Form],
    /// The clauses that have hints for its conditions. Each condition is named once, in these or in those that prove.
    pub hows: &'a [Form],
}

/// The name that is a key's value; a key that has to be given may be missing.
pub(crate) fn required<'a>(
    alloc: Global,
    key: &str,
    parts: &'a [Form],
) -> Result<&'a Symbol, EventError>
    requires key { is_symbol_text key.now ≡ true }
    requires proper { AllProper parts.now }
    ensures { Says (λ name. name.now) (spec.required key.now (map form_of parts.now)) result }
{
    if let Some(value) = value_of(key, parts) {
        if let Some(name) = symbol(value) {
            return Ok(name);
        }
    }
    let key = Symbol::named(alloc, key)?;
    Err(EventError::bad_key(&key))
}

/// A restriction of a function by its keys.
fn restrict_after<'a>(
    alloc: Global,
    old: &'a Symbol,
    parts: &'a [Form],
) -> Result<RestrictParts<'a>, EventError>
    requires { AllProper parts.now }
    ensures parts { Says restrict_seen (spec.restrict_after old.now (map form_of parts.now)) result }
    ensures proper { IfOk result IsProperRestriction }
{
    let [restriction, keys @ ..] = parts else {
        return Err(EventError::bad_part(alloc, "arguments"));
    };
    read_keys(alloc, Keyed::Restriction, SeenKeys::none(alloc), keys)?;
    let function = required(alloc, ":NEW-NAME", keys)?;
    let theorem = required(alloc, ":THM-NAME", keys)?;
    Ok(RestrictParts {
        old,
        restriction,
        undefined: value_of(":UNDEFINED", keys),
        function,
        theorem,
        proofs: given_items(value_of(":PROOF", keys)),
        hows: given_items(value_of(":HOW", keys)),
    })
}

/// A restriction: the old function, the restriction, and its keys.
pub(crate) fn restriction<'a>(
    alloc: Global,
    parts: &'a [Form],
) -> Result<RestrictParts<'a>, EventError>
    requires { AllProper parts.now }
    ensures parts { Says restrict_seen (spec.restrict_of (map form_of parts.now)) result }
    ensures proper { IfOk result IsProperRestriction }
{
    let (old, rest) = next_name(alloc, parts)?;
    restrict_after(alloc, old, rest)
}

/// The value outside of a restriction: the given one, or the keyword `:UNDEFINED` (docs/EVENTS.md, "restrict").
pub fn undefined(alloc: Global, given: Option<&Form>) -> Result<Value, Memory>
    requires { IfSome given (λ form. IsProper form.now) }
    ensures { IfOk result (λ value. val_of value ≡ spec.undefined_by (option_map (λ form. form_of form.now) given.entry)) }
{
    let Some(form) = given else {
        return Ok(Value::Sym(Symbol::named(alloc, ":UNDEFINED")?));
    };
    match constant(alloc, form)? {
        Some(value) => Ok(value),
        None => Ok(Value::Sym(Symbol::named(alloc, "NIL")?)),
    }
}
