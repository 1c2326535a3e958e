//! The proof of a restriction's theorem, and the sequents that are its steps.

ghost use Rattle.std.specs.Prelude.{◌≡◌, length, IfOk};
ghost use Rattle.lisp_data.specs.ValueView.{val_of};
ghost use Rattle.measures.specs.Calls.{call_of};
ghost use Rattle.terms.specs.Links.{at_variables as AtVariables};
ghost use Rattle.terms.specs.Worlds.{Distinct};
ghost use Rattle.proof_builders.specs.Schemes.{scheme as Scheme};
ghost use Rattle.restrict_tool.specs.Proofs as spec;
ghost use Rattle.restrict_tool.specs.Restrictions.{new_body as NewBody, same_where as SameWhere};
ghost use Rattle.tool_parts.specs.Counted.{IsCounted};

use crate::formulas::{new_body, same_at, same_where};
use crate::parts::Parts;
use hint_prover::{by_body, equation, hyp, if_true, implies_in, implies_out, turned};
use lisp_data::Memory;
use measures::RecursiveCall;
use proof_builders::{chained, gathered, hypothesis, scheme};
use proof_objects::Proof;
use std::alloc::Global;
use terms::{Sequent, Term, Terms};
use tool_parts::{at_variables, calls_of, followed};

/// The theorem at each recursive call.
pub(crate) fn theorem_at_calls(alloc: Global, parts: &Parts<'_>) -> Result<Terms, Memory>
    requires { IsCounted parts.now.definition.now }
    ensures { IfOk result (λ ts. ts ≡ Scheme parts.now.definition.now (SameWhere parts.now.definition.now parts.now.function.now parts.now.restriction.now)) }
{
    let definition = parts.definition;
    let theorem = same_where(alloc, definition, parts.function, parts.restriction)?;
    let calls = calls_of(alloc, definition)?;
    scheme(
        alloc,
        parts.world,
        &definition.formals,
        &theorem,
        calls.as_slice(),
    )
}

/// What the proof has for hypotheses: the theorem at each recursive call, and the restriction.
pub(crate) fn hypotheses(alloc: Global, parts: &Parts<'_>) -> Result<Terms, Memory>
    requires { IsCounted parts.now.definition.now }
    ensures { IfOk result (λ ts. ts ≡ spec.hypotheses parts.now.definition.now parts.now.function.now parts.now.restriction.now) }
{
    let mut hyps = theorem_at_calls(alloc, parts)?;
    hyps.push(parts.restriction.share()?)?;
    Ok(hyps)
}

/// That the two functions are the same at a recursive call, where its tests are true.
pub(crate) fn agreement(
    alloc: Global,
    parts: &Parts<'_>,
    hypotheses: &Terms,
    call: &RecursiveCall,
) -> Result<Sequent, Memory>
    requires { hypotheses.now ≡ spec.hypotheses parts.now.definition.now parts.now.function.now parts.now.restriction.now }
    ensures { IfOk result (λ s. s ≡ spec.agreement parts.now.definition.now parts.now.function.now parts.now.restriction.now (call_of call.now)) }
{
    let hyps = followed(hypotheses.copy(alloc)?, &call.tests)?;
    let goal = same_at(alloc, &parts.definition.name, parts.function, &call.args)?;
    Ok(Sequent {
        universals: Terms::new(alloc),
        hyps,
        goal,
    })
}

/// Of a proof that the arguments of a recursive call meet the restriction, one that the functions agree there: the
/// theorem is a hypothesis.
pub(crate) fn by_hypothesis(
    alloc: Global,
    parts: &Parts<'_>,
    call: &RecursiveCall,
    met: Proof,
) -> Result<Proof, Memory>
    requires distinct { Distinct parts.now.definition.now.formals }
    requires lengths { length parts.now.definition.now.formals ≡ length call.now.args }
    ensures { IfOk result (λ it. it ≡ spec.by_hypothesis parts.now.definition.now parts.now.function.now parts.now.restriction.now (call_of call.now) met) }
{
    let definition = parts.definition;
    let theorem = same_where(alloc, definition, parts.function, parts.restriction)?;
    let there = hypothesis(alloc, parts.world, &definition.formals, &theorem, call)?;
    let tests = gathered(alloc, call.tests.as_slice())?;
    let under_tests = implies_out(alloc, hyp(alloc, &there)?, tests)?;
    implies_out(alloc, under_tests, met)
}

/// That the bodies are the same, where the hypotheses are true.
pub(crate) fn same_bodies(
    alloc: Global,
    parts: &Parts<'_>,
    new_body: &Term,
) -> Result<Sequent, Memory>
    requires counted { IsCounted parts.now.definition.now }
    requires body { new_body.now ≡ NewBody parts.now.definition.now parts.now.function.now }
    ensures { IfOk result (λ s. s ≡ spec.same_bodies parts.now.definition.now parts.now.function.now parts.now.restriction.now) }
{
    let hyps = hypotheses(alloc, parts)?;
    let goal = equation(alloc, parts.definition.body.share()?, new_body.share()?)?;
    Ok(Sequent {
        universals: Terms::new(alloc),
        hyps,
        goal,
    })
}

/// That the new function at the formals is the body with its calls, where the restriction is met.
fn new_unfolded(alloc: Global, parts: &Parts<'_>, at_formals: &Term) -> Result<Proof, Memory>
    requires { at_formals.now ≡ AtVariables parts.now.function.now parts.now.definition.now.formals }
    ensures { IfOk result (λ it. it ≡ spec.new_unfolded parts.now.definition.now parts.now.function.now parts.now.restriction.now (val_of parts.now.undefined.now)) }
{
    let inside = new_body(alloc, parts.definition, parts.function)?;
    let outside = Term::quote(alloc, parts.undefined.share()?)?;
    let met = hyp(alloc, parts.restriction)?;
    let chosen = if_true(alloc, met, &inside, &outside)?;
    chained(alloc, by_body(alloc, at_formals)?, chosen)
}

/// Of a proof that the bodies are the same, one that the functions are, where the restriction is met.
pub(crate) fn unfolded(
    alloc: Global,
    parts: &Parts<'_>,
    same_bodies: Proof,
) -> Result<Proof, Memory>
    ensures { IfOk result (λ it. it ≡ spec.unfolded parts.now.definition.now parts.now.function.now parts.now.restriction.now (val_of parts.now.undefined.now) same_bodies) }
{
    let definition = parts.definition;
    let old = at_variables(alloc, &definition.name, &definition.formals)?;
    let new = at_variables(alloc, parts.function, &definition.formals)?;
    let folding = turned(alloc, new_unfolded(alloc, parts, &new)?, &new)?;
    let rest = chained(alloc, same_bodies, folding)?;
    let whole = chained(alloc, by_body(alloc, &old)?, rest)?;
    implies_in(alloc, parts.restriction, whole)
}
