//! What a recursive definition owes.

ghost use Rattle.std.specs.Prelude.{◌≡◌, ◌∷◌, map, length, All, IfOk};
ghost use Rattle.std.specs.List.{list_any};
ghost use Rattle.terms.specs.Terms.{same_tm};
ghost use Rattle.terms.specs.Joins.{without_repeats};
ghost use Rattle.terms.specs.Worlds.{Distinct};
ghost use Rattle.terms.specs.Measures as spec;
ghost use Rattle.measures.specs.view.Calls.{call_of, CallsTake};
ghost use Rattle.measures.specs.Outcomes.{Says, obligations_or_cause};

use crate::calls::{RecursiveCall, recursive_calls};
use crate::errors::MeasureError;
use crate::shapes::{less, mentions, natp};
use lisp_data::{Memory, Seq, Symbols};
use std::alloc::Global;
use terms::{Definition, Sequent, Subst, Term, Terms, substitute};

/// A list of sequents.
pub type Sequents = Seq<Sequent>;

/// That the measure is a natural number.
fn is_natural(alloc: Global, measure: &Term) -> Result<Sequent, Memory>
    ensures { IfOk result (λ s. s ≡ spec.is_natural measure.now) }
{
    let goal = natp(alloc, measure.share()?)?;
    Ok(Sequent {
        universals: Terms::new(alloc),
        hyps: Terms::new(alloc),
        goal,
    })
}

fn has(terms: &[Term], term: &Term) -> bool
    ensures { result ≡ list_any (same_tm term.now) terms.now }
{
    terms.iter().any(|other| term.same(other))
}

/// The terms, each once, at its first place.
fn without_repeats(alloc: Global, terms: &Terms) -> Result<Terms, Memory>
    ensures { IfOk result (λ ts. ts ≡ without_repeats terms.now) }
{
    let mut once = Terms::new(alloc);
    for term in terms.as_slice() {
        if !has(once.as_slice(), term) {
            once.push(term.share()?)?;
        }
    }
    Ok(once)
}

/// That the measure is less at a call's arguments, where its tests are true.
fn falls(
    alloc: Global,
    formals: &Symbols,
    measure: &Term,
    call: &RecursiveCall,
) -> Result<Sequent, Memory>
    requires distinct { Distinct formals.now }
    requires lengths { length formals.now ≡ length call.now.args }
    ensures { IfOk result (λ s. s ≡ spec.falls formals.now measure.now (call_of call.now)) }
{
    let images = Subst::of_arguments(alloc, formals, &call.args)?;
    let then = substitute(alloc, measure, &images)?;
    let goal = less(alloc, then, measure.share()?)?;
    Ok(Sequent {
        universals: Terms::new(alloc),
        hyps: without_repeats(alloc, &call.tests)?,
        goal,
    })
}

/// What a definition with this measure and these recursive calls owes.
fn owed(
    alloc: Global,
    formals: &Symbols,
    measure: &Term,
    calls: &[RecursiveCall],
) -> Result<Sequents, Memory>
    requires distinct { Distinct formals.now }
    requires lengths { All (λ c. length formals.now ≡ length c.args) calls.now }
    ensures { IfOk result (λ ss. ss ≡ spec.is_natural measure.now ∷ map (spec.falls formals.now measure.now) (map call_of calls.now)) }
{
    let mut sequents = Seq::new(alloc);
    sequents.push(is_natural(alloc, measure)?)?;
    for call in calls {
        sequents.push(falls(alloc, formals, measure, call)?)?;
    }
    Ok(sequents)
}

/// What a definition owes: nothing where it isn't recursive (docs/MODEL.md, "Recursive calls and obligations").
pub fn obligations(alloc: Global, def: &Definition) -> Result<Sequents, MeasureError>
    requires distinct { Distinct def.now.formals }
    requires arity { CallsTake def.now.name (length def.now.formals) def.now.body }
    ensures { Says (λ ss. ss) (obligations_or_cause def.now) result }
{
    let calls = match recursive_calls(alloc, &def.name, &def.body) {
        Ok(calls) => calls,
        Err(error) => return Err(error),
    };
    if !mentions(&def.name, &def.body) {
        return Ok(Seq::new(alloc));
    }
    match &def.measure {
        None => Ok(Seq::new(alloc)),
        Some(measure) => Ok(owed(alloc, &def.formals, measure, calls.as_slice())?),
    }
}
