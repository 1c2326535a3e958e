//! Which step is next.

ghost use Rattle.std.specs.Prelude.{◌≡◌, IfOk};
ghost use Rattle.reduction.specs.Reduction as spec;

use crate::kinds::{Kind, Setting};
use crate::moves::Subgoal;
use crate::steps::{Step, close, enter, on_variable, rewrite, split, tidy};
use std::alloc::Global;

/// The first kind of step that applies, at the first position; nothing where the subgoal is stuck.
pub(crate) fn next(alloc: Global, setting: &Setting<'_>, subgoal: &Subgoal) -> Step
    ensures { IfOk result (λ o. o ≡ spec.next setting.now.world.now setting.now.how.now subgoal.now) }
{
    if let Some(step) = close(subgoal)? {
        return Ok(Some(step));
    }
    if let Some(step) = tidy(subgoal)? {
        return Ok(Some(step));
    }
    if let Some(step) = enter(subgoal)? {
        return Ok(Some(step));
    }
    if let Some(step) = rewrite(alloc, setting, Kind::Decide, subgoal)? {
        return Ok(Some(step));
    }
    if let Some(step) = rewrite(alloc, setting, Kind::Ground, subgoal)? {
        return Ok(Some(step));
    }
    if let Some(step) = rewrite(alloc, setting, Kind::Rule, subgoal)? {
        return Ok(Some(step));
    }
    if let Some(step) = rewrite(alloc, setting, Kind::Definition, subgoal)? {
        return Ok(Some(step));
    }
    if let Some(step) = on_variable(subgoal)? {
        return Ok(Some(step));
    }
    if let Some(step) = rewrite(alloc, setting, Kind::OnCall, subgoal)? {
        return Ok(Some(step));
    }
    if let Some(step) = rewrite(alloc, setting, Kind::Polynomials, subgoal)? {
        return Ok(Some(step));
    }
    split(alloc, setting, subgoal)
}
