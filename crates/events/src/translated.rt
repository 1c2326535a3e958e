//! The terms of events.

ghost use Rattle.lisp_data.specs.FormView.{form_of, IsProper};
ghost use Rattle.terms.specs.Worlds.{arity};
ghost use Rattle.term_forms.specs.Translation as spec;
ghost use Rattle.term_forms.specs.TranslationView.{allowed};
ghost use Rattle.events.specs.view.Halts.{Reads};

use crate::halt::Halt;
use lisp_data::Form;
use std::alloc::Global;
use term_forms::{Scope, translate};
use terms::Term;
use worlds::World;

/// The term of a form over the variables of a scope, in the functions of the world.
pub(crate) fn read_term(
    alloc: Global,
    world: &World,
    form: &Form,
    scope: &Scope<'_>,
) -> Result<Term, Halt>
    requires { IsProper form.now }
    ensures { Reads (λ t. t) (spec.translate (arity world.now.functions) (allowed scope.now) (form_of form.now)) result }
{
    let term = translate(alloc, form, world, scope)?;
    Ok(term)
}
