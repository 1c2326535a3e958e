//! What the rules on equations conclude from sequents and terms, as docs/KERNEL.md says.

ghost use Rattle.std.specs.Prelude.{◌≡◌, IfOk, IsSome, Some, length};
ghost use Rattle.std.specs.Option.{option_map};
ghost use Rattle.terms.specs.Terms.{tms};
ghost use Rattle.terms.specs.Paths.{part_at, put_part};
ghost use Rattle.terms.specs.Worlds.{Distinct};
ghost use Rattle.kernel.specs.Equations.{reflexive, replaced, body_at, called, unfolded, if_true, if_false};
ghost use Rattle.kernel.specs.Answers.{SaysSequent};

use crate::connectives::{conditional, equal_sides, equation, negated_of};
use crate::errors::RuleError;
use crate::fitting::{both_fit, fits};
use crate::sequents::{joined, of_goal, with_goal};
use lisp_data::Memory;
use std::alloc::Global;
use terms::{Definition, Node, Path, Sequent, Subst, Term, Terms, at_path, put_at, substitute};
use worlds::World;

/// Reflexivity: the term equals itself.
pub(crate) fn reflexive(alloc: Global, world: &World, term: &Term) -> Result<Sequent, RuleError>
    ensures { SaysSequent (reflexive world.now.functions term.now) result }
{
    if !fits(world, term) {
        return Err(RuleError::Refused);
    }
    let goal = equation(alloc, world, term.share()?, term.share()?)?;
    Ok(of_goal(alloc, goal))
}

/// The term with another part at a path that stays in it.
fn with_part(alloc: Global, term: &Term, path: &Path, part: &Term) -> Result<Term, Memory>
    requires { IsSome (part_at path.now term.now) }
    ensures { IfOk result (λ t. put_part path.now part.now term.now ≡ Some t) }
{
    let Some(changed) = put_at(alloc, term, path, part)? else {
        unreachable!()
    };
    Ok(changed)
}

/// Replace: `eq` is an equation, whose right side comes for its left side at the path of the goal of `on`.
pub(crate) fn replaced(
    alloc: Global,
    eq: &Sequent,
    on: &Sequent,
    path: &Path,
) -> Result<Sequent, RuleError>
    ensures { SaysSequent (replaced path.now eq.now on.now) result }
{
    let Some((from, to)) = equal_sides(&eq.goal) else {
        return Err(RuleError::Refused);
    };
    let Some(part) = at_path(&on.goal, path) else {
        return Err(RuleError::Refused);
    };
    if !part.same(from) {
        return Err(RuleError::Refused);
    }
    let goal = with_part(alloc, &on.goal, path, to)?;
    let sequent = joined(alloc, eq, on, goal)?;
    Ok(sequent)
}

/// The definition of the function that the term calls, and the call's arguments.
fn called<'a>(world: &'a World, term: &'a Term) -> Option<(&'a Definition, &'a Terms)>
    ensures { option_map (λ c. (c.0.now, tms c.1.now)) result ≡ called world.now.functions term.now }
{
    match term.node() {
        Node::Var(_) => None,
        Node::Quote(_) => None,
        Node::Call(name, args) => match world.find_definition(name) {
            None => None,
            Some(definition) => Some((definition, args)),
        },
    }
}

/// The body of a function, where the arguments replace the formals all at once.
fn body_at(alloc: Global, definition: &Definition, args: &Terms) -> Result<Term, Memory>
    requires distinct { Distinct definition.now.formals }
    requires lengths { length definition.now.formals ≡ length args.now }
    ensures { IfOk result (λ t. t ≡ body_at definition.now (tms args.now)) }
{
    let arguments = Subst::of_arguments(alloc, &definition.formals, args)?;
    substitute(alloc, &definition.body, &arguments)
}

/// Unfold: the call equals its function's body at the arguments.
#[tactic(auto, using(crate::proofs::Calls::calls))]
pub(crate) fn unfolded(alloc: Global, world: &World, call: &Term) -> Result<Sequent, RuleError>
    ensures { SaysSequent (unfolded world.now.functions call.now) result }
{
    if !fits(world, call) {
        return Err(RuleError::Refused);
    }
    let Some((definition, args)) = called(world, call) else {
        return Err(RuleError::Refused);
    };
    world.soundness();
    let body = body_at(alloc, definition, args)?;
    let goal = equation(alloc, world, call.share()?, body)?;
    Ok(of_goal(alloc, goal))
}

/// If true: an `if` whose test is the goal of `p` equals its second argument.
pub(crate) fn if_true(
    alloc: Global,
    world: &World,
    b: &Term,
    c: &Term,
    p: &Sequent,
) -> Result<Sequent, RuleError>
    ensures { SaysSequent (if_true world.now.functions b.now c.now p.now) result }
{
    if !both_fit(world, b, c) {
        return Err(RuleError::Refused);
    }
    let call = conditional(alloc, world, p.goal.share()?, b.share()?, c.share()?)?;
    let goal = equation(alloc, world, call, b.share()?)?;
    let sequent = with_goal(alloc, p, goal)?;
    Ok(sequent)
}

/// If false: an `if` whose test the goal of `p` negates equals its third argument.
pub(crate) fn if_false(
    alloc: Global,
    world: &World,
    b: &Term,
    c: &Term,
    p: &Sequent,
) -> Result<Sequent, RuleError>
    ensures { SaysSequent (if_false world.now.functions b.now c.now p.now) result }
{
    let Some(test) = negated_of(&p.goal) else {
        return Err(RuleError::Refused);
    };
    if !both_fit(world, b, c) {
        return Err(RuleError::Refused);
    }
    let call = conditional(alloc, world, test.share()?, b.share()?, c.share()?)?;
    let goal = equation(alloc, world, call, c.share()?)?;
    let sequent = with_goal(alloc, p, goal)?;
    Ok(sequent)
}
