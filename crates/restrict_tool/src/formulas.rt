//! The formulas and sequents of a restriction.

ghost use Rattle.std.specs.Prelude.{◌≡◌, [], ◌∷◌, ◌++◌, map, length, All, IfOk};
ghost use Rattle.measures.specs.Calls.{call_of};
ghost use Rattle.terms.specs.Links.{alone as Alone, at_variables as AtVariables};
ghost use Rattle.terms.specs.Measures as measure;
ghost use Rattle.terms.specs.Terms.{Call, tms};
ghost use Rattle.terms.specs.Worlds.{Distinct};
ghost use Rattle.kernel.specs.Sequents.{equation as Equation};
ghost use Rattle.restrict_tool.specs.Restrictions as spec;
ghost use Rattle.tool_parts.specs.Counted.{IsCounted};

use hint_prover::{equation, implication};
use lisp_data::{Memory, Symbol, Symbols};
use measures::RecursiveCall;
use proof_builders::at_call;
use sequents::{only, without_repeats};
use soft_vars::{NameMap, instantiate_term};
use std::alloc::Global;
use terms::{Definition, Sequent, Term, Terms};
use tool_parts::{at_variables, followed};

/// The body of the old function, with calls of the new one.
pub(crate) fn new_body(
    alloc: Global,
    definition: &Definition,
    function: &Symbol,
) -> Result<Term, Memory>
    ensures { IfOk result (λ t. t ≡ spec.new_body definition.now function.now) }
{
    let mut names = NameMap::new(alloc);
    names.push(definition.name.share()?, function.share()?)?;
    instantiate_term(alloc, &definition.body, &names)
}

/// That the two functions are the same at the formals, where the restriction is met.
pub(crate) fn same_where(
    alloc: Global,
    definition: &Definition,
    function: &Symbol,
    restriction: &Term,
) -> Result<Term, Memory>
    ensures { IfOk result (λ t. t ≡ spec.same_where definition.now function.now restriction.now) }
{
    let old = at_variables(alloc, &definition.name, &definition.formals)?;
    let new = at_variables(alloc, function, &definition.formals)?;
    implication(alloc, restriction.share()?, equation(alloc, old, new)?)
}

/// That the two functions are the same at the arguments.
pub(crate) fn same_at(
    alloc: Global,
    old: &Symbol,
    new: &Symbol,
    args: &Terms,
) -> Result<Term, Memory>
    ensures { IfOk result (λ t. t ≡ Equation (Call old.now (tms args.now)) (Call new.now (tms args.now))) }
{
    let old = Term::call(alloc, old.share()?, args.copy(alloc)?)?;
    let new = Term::call(alloc, new.share()?, args.copy(alloc)?)?;
    equation(alloc, old, new)
}

/// That the arguments of a recursive call meet the restriction.
pub(crate) fn stays_restricted(
    alloc: Global,
    definition: &Definition,
    restriction: &Term,
    call: &RecursiveCall,
) -> Result<Sequent, Memory>
    requires distinct { Distinct definition.now.formals }
    requires lengths { length definition.now.formals ≡ length call.now.args }
    ensures { IfOk result (λ s. s ≡ spec.stays_restricted definition.now restriction.now (call_of call.now)) }
{
    let hyps = followed(only(alloc, restriction)?, &call.tests)?;
    Ok(Sequent {
        universals: Terms::new(alloc),
        hyps: without_repeats(alloc, &hyps)?,
        goal: at_call(alloc, &definition.formals, restriction, call)?,
    })
}
