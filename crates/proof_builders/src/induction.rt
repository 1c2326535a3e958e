//! Induction on the calls of a function.

ghost use Rattle.std.specs.Prelude.{◌≡◌, true, false, [], Some, IfOk};
ghost use Rattle.terms.specs.Definitions.{find};
ghost use Rattle.terms.specs.Measures.{is_nested};
ghost use Rattle.plans.specs.Proving.{proves};
ghost use Rattle.proof_builders.specs.Schemes as spec;

use hint_prover::{by_calls, checked};
use kernel::Proved;
use lisp_data::Memory;
use measures::mentions;
use proof_objects::Proof;
use std::alloc::Global;
use terms::{Definition, Sequent};
use worlds::World;

/// Of a proof that has the hypotheses of the function's scheme, one without them.
fn without_scheme(
    alloc: Global,
    world: &World,
    definition: &Definition,
    p: Proof,
) -> Result<Proof, Memory>
    requires { is_nested definition.now.name definition.now.body ≡ false }
    ensures { IfOk result (λ it. it ≡ spec.induct_on_calls definition.now p) }
{
    if !mentions(&definition.name, &definition.body) {
        return Ok(p);
    }
    match &definition.measure {
        None => Ok(p),
        Some(measure) => by_calls(alloc, world, definition, measure, &definition.formals, p),
    }
}

/// Proves a goal by induction on a function's own calls, from a proof that has the hypotheses of the function's scheme.
/// Where the function isn't recursive there are none.
#[tactic(auto, using(hints::proofs::Inducting::definitions, crate::proofs::Conditions::conditions))]
pub fn induct_on_calls(
    alloc: Global,
    world: &World,
    definition: &Definition,
    condition: &Sequent,
    base: &Proved,
) -> Result<Proved, Memory>
    requires found { find world.now.functions.defs definition.now.name ≡ Some definition.now }
    requires hyps { condition.now.hyps ≡ [] }
    requires world { base.now.world ≡ world.now }
    requires base { proves base.now.sequent (spec.with_scheme definition.now condition.now) ≡ true }
    ensures world { IfOk result (λ it. it.world ≡ world.now) }
    ensures proves { IfOk result (λ it. proves it.sequent condition.now ≡ true) }
{
    world.soundness();
    let _sequent = base.sequent();
    let proof = without_scheme(alloc, world, definition, base.proof().share()?)?;
    checked(alloc, world, condition, &proof)
}
