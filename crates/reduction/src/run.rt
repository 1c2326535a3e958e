//! The whole run.

ghost use Rattle.std.specs.Prelude.{◌≡◌, [], ◌∷◌, ◌++◌, reverse, IfOk, OnOk};
ghost use Rattle.reduction.specs.Moves.{subgoals};
ghost use Rattle.reduction.specs.Reduction as spec;
ghost use Rattle.reduction.specs.Reduction.{tasks};

use crate::kinds::{How, Setting};
use crate::moves::{Move, Remains, Subgoal, after};
use crate::next::next;
use crate::steps::Step;
use lisp_data::{Memory, Seq};
use std::alloc::Global;
use worlds::World;

/// A step that was made, and the subgoal at which it was.
#[derive(Drop)]
pub struct Made {
    pub step: Move,
    pub subgoal: Subgoal,
}

/// A subgoal that is to be reduced, and how many of the terms of `How::cases` were split on for it.
#[derive(Drop)]
pub struct Task {
    pub cases: usize,
    pub subgoal: Subgoal,
}

/// How a reduction ends.
#[derive(Drop)]
pub enum Outcome {
    /// All subgoals hold, by these steps, the first one first.
    Closed(Seq<Made>),
    /// The first subgoal at which no kind applies.
    Stuck(Subgoal),
    /// One step more than allowed is needed.
    TooLong,
}

/// A split on the next term of `How::cases`, else the first kind that applies.
fn step_of(alloc: Global, setting: &Setting<'_>, task: &Task) -> Step
    ensures { IfOk result (λ o. o ≡ spec.step setting.now.world.now setting.now.how.now task.now) }
{
    match setting.how.cases.get(task.cases) {
        Some(term) => Ok(Some(Move::Splits(term.share()?))),
        None => next(alloc, setting, &task.subgoal),
    }
}

/// How many terms of `How::cases` are split on after the step.
fn cases_after(how: &How, task: &Task) -> usize
    ensures { result ≡ spec.cases_after how.now task.now }
{
    if task.cases < how.cases.len() {
        task.cases + 1
    } else {
        task.cases
    }
}

/// Puts the subgoals that a step left on the stack, the first one on top.
#[tactic(auto, using(crate::proofs::Runs::runs))]
fn push_all(stack: &mut Vec<Task>, cases: usize, left: Remains) -> Result<(), Memory>
    ensures { OnOk result (reverse stack.new.items ≡ tasks cases (subgoals left) ++ reverse stack.old.items) }
{
    match left {
        Remains::Closed => {}
        Remains::One(subgoal) => stack.push(Task { cases, subgoal })?,
        Remains::Two(first, second) => {
            stack.push(Task {
                cases,
                subgoal: second,
            })?;
            stack.push(Task {
                cases,
                subgoal: first,
            })?;
        }
    }
    Ok(())
}

/// Reduces the subgoal by at most so many steps, depth first; each split on a term of `How::cases` is a step too.
#[tactic(auto, using(crate::proofs::Runs::runs))]
pub fn reduce(
    alloc: Global,
    world: &World,
    how: &How,
    steps: u32,
    subgoal: Subgoal,
) -> Result<Outcome, Memory>
    ensures { IfOk result (λ o. o ≡ spec.reduce world.now how.now steps (record { cases = 0; subgoal = subgoal } ∷ [])) }
{
    let setting = Setting { world, how };
    let mut made = Seq::new(alloc);
    let mut stack = Vec::new(alloc);
    stack.push(Task { cases: 0, subgoal })?;
    let mut left = steps;
    'tasks: while let Some(task) = stack.pop() {
        let Some(step) = step_of(alloc, &setting, &task)? else {
            return Ok(Outcome::Stuck(task.subgoal));
        };
        if left == 0 {
            return Ok(Outcome::TooLong);
        }
        left -= 1;
        let cases = cases_after(how, &task);
        let next = after(alloc, &step, &task.subgoal)?;
        made.push(Made {
            step,
            subgoal: task.subgoal,
        })?;
        push_all(&mut stack, cases, next)?;
    }
    Ok(Outcome::Closed(made))
}
