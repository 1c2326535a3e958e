//! What the rules on hypotheses, cases and implications conclude from sequents and terms, as docs/KERNEL.md says.

ghost use Rattle.kernel.specs.Logic.{hypothesis, substituted, by_cases, cut, weakened, contradicted, implied, detached, instantiated, discharged};
ghost use Rattle.kernel.specs.Answers.{SaysSequent};

use crate::connectives::{implication, implies_sides, negated_of};
use crate::errors::RuleError;
use crate::fitting::{fits, list_fits, pairs_fit};
use crate::sequents::{instance_of, join, joined, of_cases, without};
use lisp_data::Seq;
use std::alloc::Global;
use terms::{Sequent, Subst, Term, Terms, substitute};
use worlds::World;

/// Hypothesis: the term follows from itself.
pub(crate) fn hypothesis(alloc: Global, world: &World, term: &Term) -> Result<Sequent, RuleError>
    ensures { SaysSequent (hypothesis world.now.functions term.now) result }
{
    if !fits(world, term) {
        return Err(RuleError::Refused);
    }
    let mut hyps = Seq::new(alloc);
    hyps.push(term.share()?)?;
    Ok(Sequent {
        universals: Seq::new(alloc),
        hyps,
        goal: term.share()?,
    })
}

/// Substitute: the hypotheses and the goal of `p` under a substitution.
pub(crate) fn substituted(
    alloc: Global,
    world: &World,
    p: &Sequent,
    s: &Subst,
) -> Result<Sequent, RuleError>
    ensures { SaysSequent (substituted world.now.functions s.now p.now) result }
{
    if !pairs_fit(world, s) {
        return Err(RuleError::Refused);
    }
    let sequent = instance_of(alloc, p, s)?;
    Ok(sequent)
}

/// Cases: `p` and `q` have the same goal, `p` where the case is true and `q` where it is false.
pub(crate) fn by_cases(
    alloc: Global,
    world: &World,
    case: &Term,
    p: &Sequent,
    q: &Sequent,
) -> Result<Sequent, RuleError>
    ensures { SaysSequent (by_cases world.now.functions case.now p.now q.now) result }
{
    if !fits(world, case) || !p.goal.same(&q.goal) {
        return Err(RuleError::Refused);
    }
    let sequent = of_cases(alloc, world, case, p, q)?;
    Ok(sequent)
}

/// Cut: `q` without the hypothesis that `p` proves.
pub(crate) fn cut(alloc: Global, p: &Sequent, q: &Sequent) -> Result<Sequent, RuleError>
    ensures { SaysSequent (cut p.now q.now) result }
{
    let universals = join(alloc, &p.universals, &q.universals)?;
    let rest = without(alloc, &q.hyps, &p.goal)?;
    let hyps = join(alloc, &p.hyps, &rest)?;
    let goal = q.goal.share()?;
    Ok(Sequent {
        universals,
        hyps,
        goal,
    })
}

/// Weaken: `p` with further hypotheses and further universals.
pub(crate) fn weakened(
    alloc: Global,
    world: &World,
    p: &Sequent,
    hyps: &Terms,
    universals: &Terms,
) -> Result<Sequent, RuleError>
    ensures { SaysSequent (weakened world.now.functions hyps.now universals.now p.now) result }
{
    if !list_fits(world, hyps) || !list_fits(world, universals) {
        return Err(RuleError::Refused);
    }
    let universals = join(alloc, &p.universals, universals)?;
    let hyps = join(alloc, &p.hyps, hyps)?;
    let goal = p.goal.share()?;
    Ok(Sequent {
        universals,
        hyps,
        goal,
    })
}

/// Contradiction: the goal of `q` negates that of `p`, so that any term follows.
pub(crate) fn contradicted(
    alloc: Global,
    world: &World,
    p: &Sequent,
    q: &Sequent,
    goal: &Term,
) -> Result<Sequent, RuleError>
    ensures { SaysSequent (contradicted world.now.functions goal.now p.now q.now) result }
{
    let Some(negated) = negated_of(&q.goal) else {
        return Err(RuleError::Refused);
    };
    if !negated.same(&p.goal) || !fits(world, goal) {
        return Err(RuleError::Refused);
    }
    let sequent = joined(alloc, p, q, goal.share()?)?;
    Ok(sequent)
}

/// Implies in: the term implies what `p` says, and is no hypothesis any more.
pub(crate) fn implied(
    alloc: Global,
    world: &World,
    term: &Term,
    p: &Sequent,
) -> Result<Sequent, RuleError>
    ensures { SaysSequent (implied world.now.functions term.now p.now) result }
{
    if !fits(world, term) {
        return Err(RuleError::Refused);
    }
    let universals = p.universals.copy(alloc)?;
    let hyps = without(alloc, &p.hyps, term)?;
    let goal = implication(alloc, world, term.share()?, p.goal.share()?)?;
    Ok(Sequent {
        universals,
        hyps,
        goal,
    })
}

/// Implies out: `p` is an implication whose left side is the goal of `q`, so that its right side follows.
pub(crate) fn detached(alloc: Global, p: &Sequent, q: &Sequent) -> Result<Sequent, RuleError>
    ensures { SaysSequent (detached p.now q.now) result }
{
    let Some((left, right)) = implies_sides(&p.goal) else {
        return Err(RuleError::Refused);
    };
    if !left.same(&q.goal) {
        return Err(RuleError::Refused);
    }
    let sequent = joined(alloc, p, q, right.share()?)?;
    Ok(sequent)
}

/// Universal: the term under a substitution, where it is assumed to be true for all values of its variables.
pub(crate) fn instantiated(
    alloc: Global,
    world: &World,
    universal: &Term,
    s: &Subst,
) -> Result<Sequent, RuleError>
    ensures { SaysSequent (instantiated world.now.functions universal.now s.now) result }
{
    if !fits(world, universal) || !pairs_fit(world, s) {
        return Err(RuleError::Refused);
    }
    let mut universals = Seq::new(alloc);
    universals.push(universal.share()?)?;
    let goal = substitute(alloc, universal, s)?;
    Ok(Sequent {
        universals,
        hyps: Seq::new(alloc),
        goal,
    })
}

/// Discharge: `q`, where `p` proves one of its universals, and has no hypotheses.
pub(crate) fn discharged(alloc: Global, p: &Sequent, q: &Sequent) -> Result<Sequent, RuleError>
    ensures { SaysSequent (discharged p.now q.now) result }
{
    if p.hyps.len() != 0 {
        return Err(RuleError::Refused);
    }
    let rest = without(alloc, &q.universals, &p.goal)?;
    let universals = join(alloc, &p.universals, &rest)?;
    let hyps = q.hyps.copy(alloc)?;
    let goal = q.goal.share()?;
    Ok(Sequent {
        universals,
        hyps,
        goal,
    })
}
