//! Paths from a part up, and the other way round.

ghost use Rattle.std.specs.Prelude.{◌≡◌, ◌+◌, reverse, IfOk};
ghost use Rattle.reduction.specs.Seek.{turned, placed};

use crate::found::At;
use lisp_data::{Memory, Seq};
use std::alloc::Global;
use terms::Path;

/// In the argument of a number, with the path from the part up.
#[tactic(auto, using(crate::proofs::Seeking::paths))]
pub(crate) fn placed(at: At, place: usize) -> Result<At, Memory>
    ensures { IfOk result (λ it. turned it ≡ placed (place + 1, turned at)) }
{
    let Ok(number) = u32::try_from(place) else {
        return Err(Memory);
    };
    let Some(number) = number.checked_add(1) else {
        return Err(Memory);
    };
    let At {
        mut path,
        part,
        found,
    } = at;
    path.push(number)?;
    Ok(At { path, part, found })
}

/// The path the other way round.
#[tactic(auto, using(crate::proofs::Seeking::paths))]
pub(crate) fn reversed(alloc: Global, path: &Path) -> Result<Path, Memory>
    ensures { IfOk result (λ p. p ≡ reverse path.now) }
{
    let numbers = path.as_slice();
    let mut back = Seq::new(alloc);
    let mut i = numbers.len();
    'numbers: while i > 0 {
        i -= 1;
        back.push(numbers[i])?;
    }
    Ok(back)
}
