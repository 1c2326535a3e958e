//! The shapes of instances of functions, specifications and theorems.

ghost use Rattle.std.specs.Prelude.{◌≡◌, map, IfOk};
ghost use Rattle.lisp_data.specs.FormView.{form_of, IsProper, AllProper};
ghost use Rattle.proof_texts.specs.Items as lists;
ghost use Rattle.proof_texts.specs.Parts.{two_symbols as symbols_of};
ghost use Rattle.event_forms.specs.Instances as spec;
ghost use Rattle.event_forms.specs.Refused.{Says};
ghost use Rattle.event_forms.specs.view.ShapeView.{instance_seen, IsProperInstance};

use crate::errors::EventError;
use crate::keys::{Keyed, SeenKeys, read_keys};
use crate::places;
use lisp_data::{Form, Symbol};
use proof_texts::{items, two_symbols};
use std::alloc::Global;
use terms::{FunPair, FunPairs};

/// The parts of an instance.
#[derive(Clone, Copy)]
pub struct InstanceParts<'a> {
    pub name: &'a Symbol,
    /// What it is an instance of.
    pub of: &'a Symbol,
    /// Its pairs of a function variable and a function.
    pub pairs: &'a [Form],
}

/// `(?v . h)`.
fn read_pair(alloc: Global, form: &Form) -> Result<FunPair, EventError>
    requires { IsProper form.now }
    ensures { Says (λ pair. pair) (spec.pair_by (symbols_of (form_of form.now))) result }
{
    let Some((variable, function)) = two_symbols(form) else {
        return Err(EventError::bad_part(alloc, "pairs"));
    };
    let variable = variable.share()?;
    let function = function.share()?;
    Ok(FunPair { variable, function })
}

/// `(?v . h) ..`.
#[tactic(auto, using(crate::proofs::PairLemmas::pairs))]
pub fn read_pairs(alloc: Global, forms: &[Form]) -> Result<FunPairs, EventError>
    requires { AllProper forms.now }
    ensures { Says (λ pairs. pairs) (spec.pairs_of (map form_of forms.now)) result }
{
    let mut pairs = FunPairs::new(alloc);
    for form in forms {
        let pair = read_pair(alloc, form)?;
        pairs.push(pair)?;
    }
    Ok(pairs)
}

/// `(g (?v . h) ..)`.
fn origin<'a>(
    alloc: Global,
    name: &'a Symbol,
    form: &'a Form,
) -> Result<InstanceParts<'a>, EventError>
    requires { IsProper form.now }
    ensures parts { Says instance_seen (spec.origin_of name.now (lists.items_of (form_of form.now))) result }
    ensures proper { IfOk result IsProperInstance }
{
    let Some(parts) = items(form) else {
        return Err(EventError::bad_part(alloc, "pairs"));
    };
    let [first, pairs @ ..] = parts else {
        return Err(EventError::bad_part(alloc, "name"));
    };
    let of = places::name(alloc, first)?;
    read_pairs(alloc, pairs)?;
    Ok(InstanceParts { name, of, pairs })
}

/// An instance by its name, from its origin on.
fn origin_after<'a>(
    alloc: Global,
    kind: Keyed,
    name: &'a Symbol,
    parts: &'a [Form],
) -> Result<InstanceParts<'a>, EventError>
    requires { AllProper parts.now }
    ensures parts { Says instance_seen (spec.origin_after kind name.now (map form_of parts.now)) result }
    ensures proper { IfOk result IsProperInstance }
{
    let [form, keys @ ..] = parts else {
        return Err(EventError::bad_part(alloc, "arguments"));
    };
    let instance = origin(alloc, name, form)?;
    read_keys(alloc, kind, SeenKeys::none(alloc), keys)?;
    Ok(instance)
}

/// An instance: its name, its origin with its pairs, and its keys.
pub(crate) fn instance<'a>(
    alloc: Global,
    kind: Keyed,
    parts: &'a [Form],
) -> Result<InstanceParts<'a>, EventError>
    requires { AllProper parts.now }
    ensures parts { Says instance_seen (spec.instance_parts kind (map form_of parts.now)) result }
    ensures proper { IfOk result IsProperInstance }
{
    let [first, rest @ ..] = parts else {
        return Err(EventError::bad_part(alloc, "arguments"));
    };
    let name = places::name(alloc, first)?;
    origin_after(alloc, kind, name, rest)
}
