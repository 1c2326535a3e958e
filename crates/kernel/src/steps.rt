//! Steps one after the other, each from earlier ones by their numbers, from 1.

ghost use Rattle.std.specs.Prelude.{◌≡◌, IfOk, IfSome, IsErrOf, None, Some};
ghost use Rattle.std.specs.Option.{option_map};
ghost use Rattle.kernel.specs.Conclude.{code_from};
ghost use Rattle.kernel.specs.Conclusion.{sequents_of, AllIn};
ghost use Rattle.kernel.specs.Facts.{item};
ghost use Rattle.kernel.specs.StepLists.{items, line_concludes};
ghost use Rattle.kernel.specs.Answers.{IfLimit};

use crate::errors::RuleError;
use crate::proved::{Proved, Ruled, all_conclude};
use lisp_data::{Memory, Seq};
use proof_objects::Step;
use std::alloc::Global;
use worlds::World;

/// The earlier step of this number, with one more owner.
fn earlier(done: &[Proved], number: u32) -> Result<Option<Proved>, Memory>
    ensures { IfOk result (λ o. o ≡ item done.now number) }
{
    if number == 0 {
        return Ok(None);
    }
    match done.get(number as usize - 1) {
        Some(premise) => {
            let premise = premise.share()?;
            Ok(Some(premise))
        }
        None => Ok(None),
    }
}

/// The earlier steps of these numbers.
#[tactic(auto, using(crate::proofs::Picked::picked))]
fn picked(
    alloc: Global,
    world: &World,
    done: &[Proved],
    from: &[u32],
) -> Result<Option<Seq<Proved>>, Memory>
    requires { AllIn world.now done.now }
    ensures items { IfOk result (λ o. option_map sequents_of o ≡ items (sequents_of done.now) from.now) }
    ensures world { IfOk result (λ o. IfSome o (AllIn world.now)) }
{
    let mut premises = Seq::new(alloc);
    for number in from {
        let Some(premise) = earlier(done, *number)? else {
            return Ok(None);
        };
        premises.push(premise)?;
    }
    Ok(Some(premises))
}

/// What a step concludes from the earlier steps of these numbers. Refused too where no earlier step has a number.
pub fn next_step(alloc: Global, world: &World, done: &[Proved], step: Step, from: &[u32]) -> Ruled
    requires { AllIn world.now done.now }
    ensures world { IfOk result (λ it. it.world ≡ world.now) }
    ensures ok { IfOk result (λ it. line_concludes world.now (sequents_of done.now) step from.now ≡ Some it.sequent) }
    ensures refused { IsErrOf result RuleError.Refused → line_concludes world.now (sequents_of done.now) step from.now ≡ None }
    ensures limits { IfLimit result (λ code. (line_concludes world.now (sequents_of done.now) step from.now ≡ None) × (code_from world.now step (items (sequents_of done.now) from.now) ≡ code)) }
{
    let Some(premises) = picked(alloc, world, done, from)? else {
        return Err(RuleError::Refused);
    };
    all_conclude(world, premises.as_slice());
    Proved::by(alloc, world, step, premises.as_slice())
}
