//! What the rule on polynomials concludes, as docs/KERNEL.md says.

ghost use Rattle.std.specs.Prelude.{◌≡◌, true, IfOk};
ghost use Rattle.ring_laws.specs.Expressions.{is_arithmetic as arithmetic};
ghost use Rattle.ring_laws.specs.Limits.{excess_of};
ghost use Rattle.ring_laws.specs.Polynomials.{same_polynomial as are_same};
ghost use Rattle.kernel.specs.Answers.{SaysComparison, SaysStep};
ghost use Rattle.kernel.specs.Ring.{ringed, ring_code, code_of_excess};

use crate::connectives::equation;
use crate::errors::RuleError;
use crate::fitting::both_fit;
use crate::sequents::of_goal;
use lisp_data::Code;
use ring_laws::{RingError, is_arithmetic, same_polynomial};
use std::alloc::Global;
use terms::{Sequent, Term};
use worlds::World;

/// Whether two arithmetic terms are the same polynomial, or the limit that they pass.
fn compared(alloc: Global, a: &Term, b: &Term) -> Result<bool, RuleError>
    requires left { arithmetic a.now ≡ true }
    requires right { arithmetic b.now ≡ true }
    ensures { SaysComparison result (excess_of a.now b.now) (are_same a.now b.now) }
{
    match same_polynomial(alloc, a, b) {
        Ok(same) => Ok(same),
        Err(RingError::TooWide) => Err(RuleError::Limit(Code::RingTooWide)),
        Err(RingError::TooLarge) => Err(RuleError::Limit(Code::RingTooLarge)),
        Err(RingError::Memory) => Err(RuleError::Memory),
    }
}

/// Ring: two arithmetic terms are equal that are the same polynomial.
pub(crate) fn ringed(alloc: Global, world: &World, a: &Term, b: &Term) -> Result<Sequent, RuleError>
    ensures { SaysStep (ringed world.now.functions a.now b.now) (ring_code a.now b.now) result }
{
    if !is_arithmetic(a) || !is_arithmetic(b) {
        return Err(RuleError::Refused);
    }
    if !compared(alloc, a, b)? || !both_fit(world, a, b) {
        return Err(RuleError::Refused);
    }
    let goal = equation(alloc, world, a.share()?, b.share()?)?;
    Ok(of_goal(alloc, goal))
}
