//! Clauses: the text of a proof, or the steps of hints, each under the name of the condition that it serves.

ghost use Rattle.std.specs.Prelude.{◌≡◌, Some, map, option_map, IfOk, IfSome};
ghost use Rattle.std.specs.Option.{option_copied};
ghost use Rattle.lisp_data.specs.FormView.{form_of, IsProper, AllProper};
ghost use Rattle.proof_texts.specs.Items as lists;
ghost use Rattle.event_forms.specs.Clauses as spec;

use lisp_data::{Form, Memory, Symbol, Symbols};
use proof_texts::{contains, items, symbol};
use std::alloc::Global;

/// A condition's name and the text of its proof: `(condition proof)` (docs/EVENTS.md, "What all events share").
pub fn clause(form: &Form) -> Option<(&Symbol, &Form)>
    requires { IsProper form.now }
    ensures value { option_map (λ c. (c.0.now, form_of c.1.now)) result ≡ spec.clause_of (form_of form.now) }
    ensures proper { IfSome result (λ c. IsProper c.1.now) }
{
    match items(form) {
        Some([name, proof]) => match symbol(name) {
            Some(name) => Some((name, proof)),
            None => None,
        },
        _ => None,
    }
}

/// A condition's name and the steps of its hints: `(condition step ..)` (docs/EVENTS.md, "What all events share").
pub fn hint_clause(form: &Form) -> Option<(&Symbol, &[Form])>
    requires { IsProper form.now }
    ensures value { option_map (λ c. (c.0.now, map form_of c.1.now)) result ≡ spec.hint_of (form_of form.now) }
    ensures proper { IfSome result (λ c. AllProper c.1.now) }
{
    match items(form) {
        Some([name, steps @ ..]) => match symbol(name) {
            Some(name) => Some((name, steps)),
            None => None,
        },
        _ => None,
    }
}

/// What a clause has behind the name of its condition.
#[derive(Clone, Copy, Debug, PartialEq, Eq)]
pub enum ClauseKind {
    Proof,
    Hints,
}

impl ClauseKind {
    /// The condition of a clause.
    fn condition(self, form: &Form) -> Option<&Symbol>
        requires { IsProper form.now }
        ensures { option_map (λ name. name.now) result ≡ spec.condition_of self (form_of form.now) }
    {
        match self {
            ClauseKind::Proof => match clause(form) {
                Some((name, _)) => Some(name),
                None => None,
            },
            ClauseKind::Hints => match hint_clause(form) {
                Some((name, _)) => Some(name),
                None => None,
            },
        }
    }
}

/// A condition behind those that were named before, where it wasn't.
pub(crate) fn add_name(mut named: Symbols, name: &Symbol) -> Result<Option<Symbols>, Memory>
    ensures { IfOk result (λ names. names ≡ spec.further named (Some name.now)) }
{
    if contains(&named, name) {
        return Ok(None);
    }
    named.push(name.share()?)?;
    Ok(Some(named))
}

/// The condition of a clause behind those that were named before, where it wasn't.
fn add_condition(kind: ClauseKind, named: Symbols, form: &Form) -> Result<Option<Symbols>, Memory>
    requires { IsProper form.now }
    ensures { IfOk result (λ names. names ≡ spec.further named (spec.condition_of kind (form_of form.now))) }
{
    match kind.condition(form) {
        Some(name) => add_name(named, name),
        None => Ok(None),
    }
}

/// The conditions of clauses behind those that were named before, where each is named once.
#[tactic(auto, using(proof_texts::proofs::ItemLemmas::proper_at))]
fn add_conditions(
    kind: ClauseKind,
    mut named: Symbols,
    forms: &[Form],
) -> Result<Option<Symbols>, Memory>
    requires { AllProper forms.now }
    ensures { IfOk result (λ names. names ≡ spec.all_named kind named (map form_of forms.now)) }
{
    for form in forms {
        let Some(names) = add_condition(kind, named, form)? else {
            return Ok(None);
        };
        named = names;
    }
    Ok(Some(named))
}

/// The conditions of a list of clauses behind those that were named before, where each is named once.
pub(crate) fn name_conditions(
    kind: ClauseKind,
    named: Symbols,
    value: &Form,
) -> Result<Option<Symbols>, Memory>
    requires { IsProper value.now }
    ensures { IfOk result (λ names. names ≡ spec.named_with kind named (lists.items_of (form_of value.now))) }
{
    match items(value) {
        Some(forms) => add_conditions(kind, named, forms),
        None => Ok(None),
    }
}

/// The items of a list, where it is given.
pub(crate) fn given_items(value: Option<&Form>) -> &[Form]
    requires { IfSome value (λ form. IsProper form.now) }
    ensures items { map form_of result.now ≡ spec.given_items (option_map form_of (option_copied value.entry)) }
    ensures proper { AllProper result.now }
{
    match value {
        Some(value) => match items(value) {
            Some(forms) => forms,
            None => &[],
        },
        None => &[],
    }
}
