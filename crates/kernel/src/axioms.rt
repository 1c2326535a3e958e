//! The axioms, by their numbers in docs/KERNEL.md.

ghost use Rattle.std.specs.Prelude.{◌≡◌, Some, IfOk, IsSome, is_some};
ghost use Rattle.kernel.specs.Answers.{SaysSequent};
ghost use Rattle.kernel.specs.Axioms as spec;

use crate::errors::RuleError;
use crate::fitting::pairs_fit;
use crate::formulas::Formulas;
use crate::sequents::of_goal;
use lisp_data::Memory;
use std::alloc::Global;
use terms::{Sequent, Subst, Term, substitute};
use worlds::World;

fn is_axiom(number: u32) -> bool
    ensures { result ≡ is_some (spec.axiom_at number) }
{
    1 <= number && number <= 35
}

/// Axioms 1 to 7: T is true, NIL alone is false, and predicates give T or NIL.
#[tactic(auto, unfolding(crate::specs::Axioms::on_truth))]
fn on_truth(f: &Formulas<'_>, number: u32) -> Result<Term, Memory>
    ensures { IfOk result (λ t. t ≡ spec.on_truth number) }
{
    match number {
        1 => f.yes(),
        2 => f.implies(f.not(f.x()?)?, f.equal(f.x()?, f.no()?)?),
        3 => f.gives_t(f.equal(f.x()?, f.y()?)?),
        4 => f.gives_t(f.consp(f.x()?)?),
        5 => f.gives_t(f.integerp(f.x()?)?),
        6 => f.gives_t(f.symbolp(f.x()?)?),
        _ => f.gives_t(f.less(f.x()?, f.y()?)?),
    }
}

/// Axioms 8 to 16: pairs and their parts, and that no value is of two kinds.
#[tactic(auto, unfolding(crate::specs::Axioms::on_pairs))]
fn on_pairs(f: &Formulas<'_>, number: u32) -> Result<Term, Memory>
    ensures { IfOk result (λ t. t ≡ spec.on_pairs number) }
{
    match number {
        8 => f.equal(f.car(f.cons(f.x()?, f.y()?)?)?, f.x()?),
        9 => f.equal(f.cdr(f.cons(f.x()?, f.y()?)?)?, f.y()?),
        10 => f.equal(f.consp(f.cons(f.x()?, f.y()?)?)?, f.yes()?),
        11 => {
            let pair = f.cons(f.car(f.x()?)?, f.cdr(f.x()?)?)?;
            f.implies(f.consp(f.x()?)?, f.equal(pair, f.x()?)?)
        }
        12 => f.implies(f.not(f.consp(f.x()?)?)?, f.equal(f.car(f.x()?)?, f.no()?)?),
        13 => f.implies(f.not(f.consp(f.x()?)?)?, f.equal(f.cdr(f.x()?)?, f.no()?)?),
        14 => f.implies(f.consp(f.x()?)?, f.not(f.integerp(f.x()?)?)?),
        15 => f.implies(f.consp(f.x()?)?, f.not(f.symbolp(f.x()?)?)?),
        _ => f.implies(f.integerp(f.x()?)?, f.not(f.symbolp(f.x()?)?)?),
    }
}

/// Axioms 17 to 23: arithmetic gives integers, and takes as 0 what is none.
#[tactic(auto, unfolding(crate::specs::Axioms::on_integers))]
fn on_integers(f: &Formulas<'_>, number: u32) -> Result<Term, Memory>
    ensures { IfOk result (λ t. t ≡ spec.on_integers number) }
{
    match number {
        17 => f.equal(f.integerp(f.plus(f.x()?, f.y()?)?)?, f.yes()?),
        18 => f.equal(f.integerp(f.times(f.x()?, f.y()?)?)?, f.yes()?),
        19 => f.equal(f.integerp(f.minus(f.x()?)?)?, f.yes()?),
        20 => {
            let sum = f.plus(f.number(0)?, f.y()?)?;
            let goal = f.equal(f.plus(f.x()?, f.y()?)?, sum)?;
            f.implies(f.not(f.integerp(f.x()?)?)?, goal)
        }
        21 => {
            let goal = f.equal(f.times(f.x()?, f.y()?)?, f.number(0)?)?;
            f.implies(f.not(f.integerp(f.x()?)?)?, goal)
        }
        22 => {
            let goal = f.equal(f.minus(f.x()?)?, f.number(0)?)?;
            f.implies(f.not(f.integerp(f.x()?)?)?, goal)
        }
        _ => {
            let goal = f.equal(f.plus(f.number(0)?, f.x()?)?, f.x()?)?;
            f.implies(f.integerp(f.x()?)?, goal)
        }
    }
}

/// Neither of two numbers is less than the other: they are the same.
fn same_numbers(f: &Formulas<'_>) -> Result<Term, Memory>
    ensures { IfOk result (λ t. t ≡ spec.same_numbers) }
{
    let first = f.plus(f.number(0)?, f.x()?)?;
    let second = f.plus(f.number(0)?, f.y()?)?;
    let goal = f.equal(first, second)?;
    let last = f.implies(f.not(f.less(f.y()?, f.x()?)?)?, goal)?;
    f.implies(f.not(f.less(f.x()?, f.y()?)?)?, last)
}

/// The product of two positive numbers is positive.
fn positive_products(f: &Formulas<'_>) -> Result<Term, Memory>
    ensures { IfOk result (λ t. t ≡ spec.positive_products) }
{
    let product = f.times(f.x()?, f.y()?)?;
    let goal = f.less(f.number(0)?, product)?;
    let last = f.implies(f.less(f.number(0)?, f.y()?)?, goal)?;
    f.implies(f.less(f.number(0)?, f.x()?)?, last)
}

/// Axioms 24 to 31: the order of numbers, with sums and products.
#[tactic(auto, unfolding(crate::specs::Axioms::on_order))]
fn on_order(f: &Formulas<'_>, number: u32) -> Result<Term, Memory>
    ensures { IfOk result (λ t. t ≡ spec.on_order number) }
{
    match number {
        24 => f.not(f.less(f.x()?, f.x()?)?),
        25 => {
            let last = f.implies(f.less(f.y()?, f.z()?)?, f.less(f.x()?, f.z()?)?)?;
            f.implies(f.less(f.x()?, f.y()?)?, last)
        }
        26 => same_numbers(f),
        27 => {
            let sums = f.less(f.plus(f.x()?, f.z()?)?, f.plus(f.y()?, f.z()?)?)?;
            f.equal(sums, f.less(f.x()?, f.y()?)?)
        }
        28 => {
            let next = f.plus(f.number(1)?, f.x()?)?;
            f.implies(f.less(f.x()?, f.y()?)?, f.not(f.less(f.y()?, next)?)?)
        }
        29 => positive_products(f),
        30 => {
            let sum = f.plus(f.number(0)?, f.x()?)?;
            f.equal(f.less(sum, f.y()?)?, f.less(f.x()?, f.y()?)?)
        }
        _ => {
            let sum = f.plus(f.number(0)?, f.y()?)?;
            f.equal(f.less(f.x()?, sum)?, f.less(f.x()?, f.y()?)?)
        }
    }
}

/// Axioms 32 to 35: the count of a pair, of an integer and of a symbol is a natural number.
#[tactic(auto, unfolding(crate::specs::Axioms::on_counts))]
fn on_counts(f: &Formulas<'_>, number: u32) -> Result<Term, Memory>
    ensures { IfOk result (λ t. t ≡ spec.on_counts number) }
{
    match number {
        32 => {
            let parts = f.plus(f.count(f.car(f.x()?)?)?, f.count(f.cdr(f.x()?)?)?)?;
            let goal = f.equal(f.count(f.x()?)?, f.plus(f.number(1)?, parts)?)?;
            f.implies(f.consp(f.x()?)?, goal)
        }
        33 => f.natp(f.count(f.x()?)?),
        34 => {
            let is_negative = f.less(f.x()?, f.number(0)?)?;
            let size = f.if_else(is_negative, f.minus(f.x()?)?, f.x()?)?;
            f.implies(f.integerp(f.x()?)?, f.equal(f.count(f.x()?)?, size)?)
        }
        _ => f.implies(f.symbolp(f.x()?)?, f.equal(f.count(f.x()?)?, f.number(0)?)?),
    }
}

#[tactic(auto, unfolding(crate::specs::Axioms::axiom_at))]
fn axiom_at(alloc: Global, world: &World, number: u32) -> Result<Term, Memory>
    requires { IsSome (spec.axiom_at number) }
    ensures { IfOk result (λ t. spec.axiom_at number ≡ Some t) }
{
    let formulas = Formulas::new(alloc, world);
    if number <= 7 {
        on_truth(&formulas, number)
    } else if number <= 16 {
        on_pairs(&formulas, number)
    } else if number <= 23 {
        on_integers(&formulas, number)
    } else if number <= 31 {
        on_order(&formulas, number)
    } else {
        on_counts(&formulas, number)
    }
}

/// Axiom: the axiom with this number, under a substitution.
pub(crate) fn axiom_instance(
    alloc: Global,
    world: &World,
    number: u32,
    s: &Subst,
) -> Result<Sequent, RuleError>
    ensures { SaysSequent (spec.axiom_instance world.now.functions number s.now) result }
{
    if !is_axiom(number) || !pairs_fit(world, s) {
        return Err(RuleError::Refused);
    }
    let axiom = axiom_at(alloc, world, number)?;
    let goal = substitute(alloc, &axiom, s)?;
    Ok(of_goal(alloc, goal))
}
