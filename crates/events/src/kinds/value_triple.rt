//! `value-triple`.

ghost use Rattle.std.specs.Prelude.{Bool};
ghost use Rattle.lisp_data.specs.FormView.{form_of, IsProper};
ghost use Rattle.lisp_data.specs.Datum.{Datum};
ghost use Rattle.lisp_data.specs.ValueView.{val_of};
ghost use Rattle.events.specs.ValueTriple as spec;
ghost use Rattle.events.specs.view.Halts.{Reads, Says, Handles};

use crate::halt::Halt;
use crate::lines::{one_line, value_line};
use crate::steps::StepAnswer;
use evaluator::evaluate;
use lisp_data::{Form, Symbols, Value};
use std::alloc::Global;
use term_forms::{Scope, translate};
use terms::Term;
use worlds::World;

/// The term of a form, which has no variables.
fn ground_term(alloc: Global, world: &World, form: &Form) -> Result<Term, Halt>
    requires { IsProper form.now }
    ensures { Reads (λ t. t) (spec.ground_term world.now (form_of form.now)) result }
{
    let no_variables = Symbols::new(alloc);
    let term = translate(alloc, form, world, &Scope::Only(&no_variables))?;
    Ok(term)
}

/// The value of a form in the world, or why it has none.
fn value(alloc: Global, world: &World, form: &Form) -> Result<Value, Halt>
    requires { IsProper form.now }
    ensures { Says val_of (spec.value_in world.now (form_of form.now)) result }
{
    let term = ground_term(alloc, world, form)?;
    world.soundness();
    term_forms::translated_terms_fit();
    let value = evaluate(alloc, world, &term)?;
    Ok(value)
}

/// `(value-triple form)`: prints the value of the form.
pub(crate) fn print(alloc: Global, world: &World, form: &Form) -> Result<StepAnswer, Halt>
    requires { IsProper form.now }
    ensures { (whole : Datum) (show : Bool) → Handles world.now whole (spec.value_triple (form_of form.now)) show result }
{
    let value = value(alloc, world, form)?;
    let line = value_line(alloc, &value)?;
    Ok(StepAnswer::Printed(one_line(alloc, line)?))
}
