//! What becomes of hypotheses and a goal.

ghost use Rattle.std.specs.Prelude.{◌≡◌, [], ◌∷◌, map, IfOk, OnOk};
ghost use Rattle.terms.specs.Joins.{with_term, join};
ghost use Rattle.terms.specs.Substitution.{by_pairs};
ghost use Rattle.terms.specs.Terms.{substitute};
ghost use Rattle.reduction.specs.Hyps.{without};
ghost use Rattle.reduction.specs.Moves as spec;
ghost use Rattle.reduction.specs.Moves.{subgoals, swap};
ghost use Rattle.reduction.specs.declared.moves.Remains.TheVariants as Remains;

use crate::found::At;
use crate::hyps::has;
use crate::shapes::{negation, quoted_nil};
use lisp_data::{Memory, Seq, Symbol};
use std::alloc::Global;
use terms::{Subst, Term, Terms, substitute};

/// Hypotheses and a goal, on a branch of a reduction. The universals of the condition stay the same on all branches.
#[derive(Drop)]
pub struct Subgoal {
    pub hyps: Terms,
    pub goal: Term,
}

/// Why a subgoal holds.
#[derive(Drop)]
pub enum Closing {
    /// The goal is a quoted value other than NIL.
    ByQuote,
    /// The goal is a hypothesis.
    ByHyp,
    /// The goal is `(equal a a)`.
    BySame,
    /// `'nil` is a hypothesis.
    ByNil,
    /// The term and its negation are hypotheses.
    ByBoth(Term),
}

/// A step.
#[derive(Drop)]
pub enum Move {
    /// The subgoal holds.
    Ends(Closing),
    /// The hypothesis goes.
    Drops(Term),
    /// The hypothesis `(not (not a))` becomes a.
    Strips(Term, Term),
    /// The hypothesis becomes another, by what is found in it.
    Alters(Term, Term, At),
    /// The goal becomes this one, by what is found in it.
    Turns(Term, At),
    /// The goal `(implies a b)` is entered.
    Assumes(Term, Term),
    /// The goal `(not a)` is entered.
    Denies(Term),
    /// The hypothesis, an equation, goes, and its variable becomes the term everywhere.
    Puts(Term, Symbol, Term),
    /// Two subgoals, one with the term and one with its negation.
    Splits(Term),
}

/// What a step leaves.
#[derive(Drop)]
pub enum Remains {
    Closed,
    One(Subgoal),
    Two(Subgoal, Subgoal),
}

/// The list, with the term where it is new.
fn with_term(alloc: Global, hyps: &Terms, term: &Term) -> Result<Terms, Memory>
    ensures { IfOk result (λ ts. ts ≡ with_term hyps.now term.now) }
{
    let mut all = hyps.copy(alloc)?;
    if !has(hyps.as_slice(), term) {
        all.push(term.share()?)?;
    }
    Ok(all)
}

/// Adds the term where it is new.
pub fn put_new(hyps: &mut Terms, term: Term) -> Result<(), Memory>
    ensures { OnOk result (hyps.new ≡ with_term hyps.old term) }
{
    if !has(hyps.as_slice(), &term) {
        hyps.push(term)?;
    }
    Ok(())
}

/// All terms but this one.
#[tactic(auto, using(crate::proofs::Moving::lists))]
pub fn without(alloc: Global, hyps: &Terms, term: &Term) -> Result<Terms, Memory>
    ensures { IfOk result (λ ts. ts ≡ without hyps.now term.now) }
{
    let mut left = Seq::new(alloc);
    for hyp in hyps.as_slice() {
        if !term.same(hyp) {
            left.push(hyp.share()?)?;
        }
    }
    Ok(left)
}

/// The list with another term for one.
#[tactic(auto, using(crate::proofs::Moving::lists))]
fn swapped(alloc: Global, hyps: &Terms, from: &Term, to: &Term) -> Result<Terms, Memory>
    ensures { IfOk result (λ ts. ts ≡ join [] (map (swap from.now to.now) hyps.now)) }
{
    let mut all = Seq::new(alloc);
    for hyp in hyps.as_slice() {
        let term = if from.same(hyp) {
            to.share()?
        } else {
            hyp.share()?
        };
        put_new(&mut all, term)?;
    }
    Ok(all)
}

/// The term for one variable.
fn single(alloc: Global, name: &Symbol, term: &Term) -> Result<Subst, Memory>
    ensures { IfOk result (λ s. s ≡ (name.now, term.now) ∷ []) }
{
    let mut s = Subst::new(alloc);
    s.push(name.share()?, term.share()?)?;
    Ok(s)
}

/// The other hypotheses, with the term for the variable.
#[tactic(auto, using(crate::proofs::Moving::lists))]
fn put_all(alloc: Global, hyps: &Terms, except: &Term, s: &Subst) -> Result<Terms, Memory>
    ensures { IfOk result (λ ts. ts ≡ join [] (map (substitute (by_pairs s.now)) (without hyps.now except.now))) }
{
    let mut all = Seq::new(alloc);
    for hyp in hyps.as_slice() {
        if !except.same(hyp) {
            put_new(&mut all, substitute(alloc, hyp, s)?)?;
        }
    }
    Ok(all)
}

/// One subgoal is left.
fn one(hyps: Terms, goal: &Term) -> Result<Remains, Memory>
    ensures { IfOk result (λ it. it ≡ Remains.One (spec.subgoal hyps goal.now)) }
{
    let goal = goal.share()?;
    Ok(Remains::One(Subgoal { hyps, goal }))
}

/// What the step leaves of the subgoal.
pub fn after(alloc: Global, step: &Move, subgoal: &Subgoal) -> Result<Remains, Memory>
    ensures { IfOk result (λ it. subgoals it ≡ spec.after step.now subgoal.now) }
{
    let Subgoal { hyps, goal } = subgoal;
    match step {
        Move::Ends(_) => Ok(Remains::Closed),
        Move::Drops(hyp) => one(without(alloc, hyps, hyp)?, goal),
        Move::Strips(hyp, to) => one(swapped(alloc, hyps, hyp, to)?, goal),
        Move::Alters(hyp, to, _) => one(swapped(alloc, hyps, hyp, to)?, goal),
        Move::Turns(other, _) => one(hyps.copy(alloc)?, other),
        Move::Assumes(hyp, other) => one(with_term(alloc, hyps, hyp)?, other),
        Move::Denies(hyp) => one(with_term(alloc, hyps, hyp)?, &quoted_nil(alloc)?),
        Move::Puts(hyp, name, term) => {
            let s = single(alloc, name, term)?;
            let left = put_all(alloc, hyps, hyp, &s)?;
            one(left, &substitute(alloc, goal, &s)?)
        }
        Move::Splits(test) => {
            let negated = negation(alloc, test.share()?)?;
            let yes = Subgoal {
                hyps: with_term(alloc, hyps, test)?,
                goal: goal.share()?,
            };
            let no = Subgoal {
                hyps: with_term(alloc, hyps, &negated)?,
                goal: goal.share()?,
            };
            Ok(Remains::Two(yes, no))
        }
    }
}
