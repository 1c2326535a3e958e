//! Events that were accepted before.

ghost use Rattle.std.specs.Prelude.{◌≡◌, map, IfOk};
ghost use Rattle.lisp_data.specs.FormView.{form_of, IsProper, AllProper};
ghost use Rattle.worlds.specs.Events.{find_defthm};
ghost use Rattle.proof_texts.specs.Items.{symbol_of};
ghost use Rattle.event_forms.specs.Shapes.{event_of};
ghost use Rattle.events.specs.view.Halts.{repeats_seen, statement_seen, IsProperStatement, HasProperStatement};
ghost use Rattle.events.specs.Redundancy as spec;

use event_forms::{Event, EventError, read_event};
use lisp_data::{Form, Memory, Symbol};
use proof_texts::symbol;
use std::alloc::Global;
use term_forms::{Scope, TermError, translate};
use terms::Term;
use worlds::World;

/// What a theorem states.
#[derive(Clone, Copy)]
pub struct Statement<'a> {
    pub formula: &'a Form,
    /// The names of the specifications that it assumes.
    pub assumed: &'a [Form],
}

/// When an event repeats an earlier one.
#[derive(Clone, Copy)]
pub enum Repeats<'a> {
    Never,
    /// Where the forms are the same.
    AsForm,
    /// Also where the earlier one is a theorem of this name that states the same.
    AsTheorem(&'a Symbol, Statement<'a>),
}

/// The term that a formula stands for, if it stands for one.
fn term_of(alloc: Global, world: &World, formula: &Form) -> Result<Option<Term>, Memory>
    requires { IsProper formula.now }
    ensures { IfOk result (λ t. t ≡ spec.term_of world.now (form_of formula.now)) }
{
    match translate(alloc, formula, world, &Scope::Any) {
        Ok(term) => Ok(Some(term)),
        Err(error) => match error {
            TermError::Refused { code: _, detail: _ } => Ok(None),
            TermError::Memory => Err(Memory),
        },
    }
}

/// Whether two formulas stand for the same term.
fn same_formulas(alloc: Global, world: &World, a: &Form, b: &Form) -> Result<bool, Memory>
    requires a { IsProper a.now }
    requires b { IsProper b.now }
    ensures { IfOk result (λ c. c ≡ spec.same_formulas world.now (form_of a.now) (form_of b.now)) }
{
    let Some(a) = term_of(alloc, world, a)? else {
        return Ok(false);
    };
    let Some(b) = term_of(alloc, world, b)? else {
        return Ok(false);
    };
    Ok(a.same(&b))
}

fn is_same_name(a: &Form, b: &Form) -> bool
    requires a { IsProper a.now }
    requires b { IsProper b.now }
    ensures { result ≡ spec.is_same_name (symbol_of (form_of a.now)) (symbol_of (form_of b.now)) }
{
    match symbol(a) {
        Some(name) => match symbol(b) {
            Some(other) => name.same(other),
            None => false,
        },
        None => false,
    }
}

/// Whether two lists have the same names in the same order.
fn same_names(names: &[Form], others: &[Form]) -> bool
    requires names { AllProper names.now }
    requires others { AllProper others.now }
    ensures { result ≡ spec.same_names (map form_of names.now) (map form_of others.now) }
{
    let mut rest = names;
    let mut left = others;
    while let [name, more @ ..] = rest {
        let [other, behind @ ..] = left else {
            return false;
        };
        if !is_same_name(name, other) {
            return false;
        }
        rest = more;
        left = behind;
    }
    left.is_empty()
}

/// Whether an event is a theorem that states the same.
fn states(
    alloc: Global,
    world: &World,
    statement: &Statement<'_>,
    event: &Form,
) -> Result<bool, Memory>
    requires statement { IsProperStatement statement.now }
    requires event { IsProper event.now }
    ensures { IfOk result (λ b. b ≡ spec.states_in world.now (statement_seen statement.now) (event_of (form_of event.now))) }
{
    match read_event(alloc, event) {
        Ok(event) => match event {
            Event::Defthm(theorem) => {
                if !same_names(statement.assumed, theorem.assumed) {
                    return Ok(false);
                }
                same_formulas(alloc, world, statement.formula, theorem.formula)
            }
            _ => Ok(false),
        },
        Err(error) => match error {
            EventError::Refused { code: _, detail: _ } => Ok(false),
            EventError::Memory => Err(Memory),
        },
    }
}

/// Whether an earlier theorem of this name states the same.
fn restates(
    alloc: Global,
    world: &World,
    name: &Symbol,
    statement: &Statement<'_>,
) -> Result<bool, Memory>
    requires { IsProperStatement statement.now }
    ensures { IfOk result (λ b. b ≡ spec.restates world.now (statement_seen statement.now) (find_defthm world.now.events name.now)) }
{
    match world.find_defthm(name) {
        None => Ok(false),
        Some(earlier) => states(alloc, world, statement, earlier),
    }
}

/// Whether an event was accepted before (docs/EVENTS.md, "Redundancy").
pub(crate) fn is_redundant(
    alloc: Global,
    world: &World,
    form: &Form,
    repeats: &Repeats<'_>,
) -> Result<bool, Memory>
    requires form { IsProper form.now }
    requires statement { HasProperStatement repeats.now }
    ensures { IfOk result (λ b. b ≡ spec.is_redundant world.now (form_of form.now) (repeats_seen repeats.now)) }
{
    match repeats {
        Repeats::Never => Ok(false),
        Repeats::AsForm => Ok(world.has_event(form)),
        Repeats::AsTheorem(name, statement) => {
            if world.has_event(form) {
                return Ok(true);
            }
            restates(alloc, world, name, statement)
        }
    }
}
