//! The hypotheses of an induction on calls.

ghost use Rattle.std.specs.Prelude.{◌≡◌, map, length, All, IfOk};
ghost use Rattle.terms.specs.Terms.{tms, by_args, substitute as substituted};
ghost use Rattle.terms.specs.Worlds.{Distinct};
ghost use Rattle.measures.specs.Calls.{call_of};
ghost use Rattle.proof_builders.specs.Schemes as spec;

use hint_prover::implication;
use hints::conjunction;
use lisp_data::{Memory, Symbols};
use measures::RecursiveCall;
use std::alloc::Global;
use terms::{Subst, Term, Terms, substitute};
use worlds::World;

/// The term at the arguments of a call.
pub fn at_call(
    alloc: Global,
    formals: &Symbols,
    term: &Term,
    call: &RecursiveCall,
) -> Result<Term, Memory>
    requires distinct { Distinct formals.now }
    requires lengths { length formals.now ≡ length call.now.args }
    ensures { IfOk result (λ t. t ≡ substituted (by_args formals.now (tms call.now.args)) term.now) }
{
    let images = Subst::of_arguments(alloc, formals, &call.args)?;
    let image = substitute(alloc, term, &images)?;
    Ok(image)
}

/// The hypothesis for a recursive call: the goal at its arguments, where its tests are true.
pub fn hypothesis(
    alloc: Global,
    world: &World,
    formals: &Symbols,
    goal: &Term,
    call: &RecursiveCall,
) -> Result<Term, Memory>
    requires distinct { Distinct formals.now }
    requires lengths { length formals.now ≡ length call.now.args }
    ensures { IfOk result (λ t. t ≡ spec.hypothesis formals.now goal.now (call_of call.now)) }
{
    let tests = conjunction(alloc, world, call.tests.as_slice())?;
    let image = at_call(alloc, formals, goal, call)?;
    implication(alloc, tests, image)
}

/// The hypotheses of an induction on the recursive calls, one for each.
pub fn scheme(
    alloc: Global,
    world: &World,
    formals: &Symbols,
    goal: &Term,
    calls: &[RecursiveCall],
) -> Result<Terms, Memory>
    requires distinct { Distinct formals.now }
    requires lengths { All (λ c. length formals.now ≡ length c.args) calls.now }
    ensures { IfOk result (λ ts. ts ≡ map (spec.hypothesis formals.now goal.now) (map call_of calls.now)) }
{
    let mut hyps = Terms::new(alloc);
    for call in calls {
        hyps.push(hypothesis(alloc, world, formals, goal, call)?)?;
    }
    Ok(hyps)
}
