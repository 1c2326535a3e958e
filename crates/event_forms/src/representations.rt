//! The shape of `isodata`.
#![tactic(auto, unfolding(lisp_data::specs::SymbolText::is_symbol_text, lisp_data::specs::Atoms::leaf, lisp_data::specs::Atoms::in_atom, lisp_data::specs::Atoms::is_delimiter, lisp_data::specs::Atoms::is_sign))]

ghost use Rattle.std.specs.Prelude.{◌≡◌, true, map, IfOk};
ghost use Rattle.lisp_data.specs.FormView.{form_of, IsProper, AllProper};
ghost use Rattle.lisp_data.specs.SymbolText.{is_symbol_text};
ghost use Rattle.proof_texts.specs.Items as lists;
ghost use Rattle.event_forms.specs.Representations as spec;
ghost use Rattle.event_forms.specs.Refused.{Says};
ghost use Rattle.event_forms.specs.view.ShapeView.{isodata_seen, IsProperIsodata};

use crate::clauses::given_items;
use crate::errors::EventError;
use crate::isomorphisms::next_name;
use crate::keys::{Keyed, SeenKeys, read_keys, value_of};
use crate::transformations::required;
use lisp_data::{Form, Seq, Symbol};
use proof_texts::{items, symbol};
use std::alloc::Global;

/// The parts of a function on another representation.
#[derive(Clone, Copy)]
pub struct IsodataParts<'a> {
    /// The old function.
    pub old: &'a Symbol,
    /// Its pairs of a formal and an isomorphism.
    pub maps: &'a [Form],
    /// The name of the new function.
    pub function: &'a Symbol,
    /// The name of the theorem from the new function to the old one.
    pub new_to_old: &'a Symbol,
    /// The name of the theorem from the old function to the new one.
    pub old_to_new: &'a Symbol,
    /// The clauses that prove its conditions.
    pub proofs: &'a [Form],
    /// The clauses that have hints for its conditions. Each condition is named once, in these or in those that prove.
    pub hows: &'a [Form],
}

/// `(x iso)`.
fn read_map(alloc: Global, form: &Form) -> Result<(Symbol, Symbol), EventError>
    requires { IsProper form.now }
    ensures { Says (λ pair. pair) (spec.map_by (lists.items_of (form_of form.now))) result }
{
    let Some([formal, iso]) = items(form) else {
        return Err(EventError::bad_part(alloc, "pairs"));
    };
    let Some(formal) = symbol(formal) else {
        return Err(EventError::bad_part(alloc, "pairs"));
    };
    let Some(iso) = symbol(iso) else {
        return Err(EventError::bad_part(alloc, "pairs"));
    };
    let formal = formal.share()?;
    let iso = iso.share()?;
    Ok((formal, iso))
}

/// `(x iso) ..`.
#[tactic(auto, using(crate::proofs::MapLemmas::maps))]
pub fn read_maps(alloc: Global, forms: &[Form]) -> Result<Seq<(Symbol, Symbol)>, EventError>
    requires { AllProper forms.now }
    ensures { Says (λ maps. maps) (spec.maps_of (map form_of forms.now)) result }
{
    let mut maps = Seq::new(alloc);
    for form in forms {
        let pair = read_map(alloc, form)?;
        maps.push(pair)?;
    }
    Ok(maps)
}

/// Pairs of a formal and an isomorphism, one at least.
fn some_maps(alloc: Global, form: &Form) -> Result<&[Form], EventError>
    requires { IsProper form.now }
    ensures maps { Says (λ maps. map form_of maps.now) (spec.some_maps (lists.items_of (form_of form.now))) result }
    ensures proper { IfOk result (λ maps. AllProper maps.now) }
{
    let Some(forms) = items(form) else {
        return Err(EventError::bad_part(alloc, "pairs"));
    };
    if forms.is_empty() {
        return Err(EventError::bad_part(alloc, "pairs"));
    }
    read_maps(alloc, forms)?;
    Ok(forms)
}

/// The names that are two keys' values.
fn two_required<'a>(
    alloc: Global,
    first: &str,
    second: &str,
    parts: &'a [Form],
) -> Result<(&'a Symbol, &'a Symbol), EventError>
    requires first { is_symbol_text first.now ≡ true }
    requires second { is_symbol_text second.now ≡ true }
    requires proper { AllProper parts.now }
    ensures { Says (λ names. (names.0.now, names.1.now)) (spec.two_required first.now second.now (map form_of parts.now)) result }
{
    let name = required(alloc, first, parts)?;
    let other = required(alloc, second, parts)?;
    Ok((name, other))
}

/// The names of the two theorems.
#[tactic(auto, unfolding(crate::specs::Representations::theorems_named, lisp_data::specs::SymbolText::is_symbol_text, lisp_data::specs::Atoms::leaf, lisp_data::specs::Atoms::in_atom, lisp_data::specs::Atoms::is_delimiter, lisp_data::specs::Atoms::is_sign))]
fn theorems<'a>(alloc: Global, keys: &'a [Form]) -> Result<(&'a Symbol, &'a Symbol), EventError>
    requires { AllProper keys.now }
    ensures { Says (λ names. (names.0.now, names.1.now)) (spec.theorems_named (map form_of keys.now)) result }
{
    two_required(alloc, ":NEW-TO-OLD-NAME", ":OLD-TO-NEW-NAME", keys)
}

/// A function on another representation by the names that its keys give.
fn isodata_named<'a>(
    alloc: Global,
    old: &'a Symbol,
    maps: &'a [Form],
    keys: &'a [Form],
) -> Result<IsodataParts<'a>, EventError>
    requires maps { AllProper maps.now }
    requires keys { AllProper keys.now }
    ensures parts { Says isodata_seen (spec.isodata_named old.now (map form_of maps.now) (map form_of keys.now)) result }
    ensures proper { IfOk result IsProperIsodata }
{
    let function = required(alloc, ":NEW-NAME", keys)?;
    let (new_to_old, old_to_new) = theorems(alloc, keys)?;
    Ok(IsodataParts {
        old,
        maps,
        function,
        new_to_old,
        old_to_new,
        proofs: given_items(value_of(":PROOF", keys)),
        hows: given_items(value_of(":HOW", keys)),
    })
}

/// A function on another representation by its keys.
fn isodata_after<'a>(
    alloc: Global,
    old: &'a Symbol,
    parts: &'a [Form],
) -> Result<IsodataParts<'a>, EventError>
    requires { AllProper parts.now }
    ensures parts { Says isodata_seen (spec.isodata_after old.now (map form_of parts.now)) result }
    ensures proper { IfOk result IsProperIsodata }
{
    let [form, keys @ ..] = parts else {
        return Err(EventError::bad_part(alloc, "arguments"));
    };
    let maps = some_maps(alloc, form)?;
    read_keys(alloc, Keyed::Isodata, SeenKeys::none(alloc), keys)?;
    isodata_named(alloc, old, maps, keys)
}

/// A function on another representation: the old function, its pairs, and its keys.
pub(crate) fn representation<'a>(
    alloc: Global,
    parts: &'a [Form],
) -> Result<IsodataParts<'a>, EventError>
    requires { AllProper parts.now }
    ensures parts { Says isodata_seen (spec.isodata_of (map form_of parts.now)) result }
    ensures proper { IfOk result IsProperIsodata }
{
    let (old, rest) = next_name(alloc, parts)?;
    isodata_after(alloc, old, rest)
}
