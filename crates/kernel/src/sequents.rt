//! Sequents, and their lists without repeats.

ghost use Rattle.std.specs.Prelude.{◌≡◌, ◌++◌, IfOk, map};
ghost use Rattle.std.specs.List.{list_any};
ghost use Rattle.terms.specs.Substitution.{by_pairs};
ghost use Rattle.terms.specs.Terms.{same_tm, substitute as substituted};
ghost use Rattle.terms.specs.Instances.{sequent_terms, renamed_sequent};
ghost use Rattle.terms.specs.Maps.{rename};
ghost use Rattle.kernel.specs.Sequents.{join, without, of_goal, with_goal, joined};
ghost use Rattle.kernel.specs.Logic.{instance_of, of_cases};

use crate::connectives::negation;
use lisp_data::{Memory, Seq};
use soft_vars::{NameMap, instantiate_term};
use std::alloc::Global;
use terms::{Sequent, Subst, Term, Terms, substitute};
use worlds::World;

/// A goal without universals and hypotheses.
pub(crate) fn of_goal(alloc: Global, goal: Term) -> Sequent
    ensures { result ≡ of_goal goal }
{
    Sequent {
        universals: Seq::new(alloc),
        hyps: Seq::new(alloc),
        goal,
    }
}

/// Another goal with the universals and the hypotheses of a sequent.
pub(crate) fn with_goal(alloc: Global, p: &Sequent, goal: Term) -> Result<Sequent, Memory>
    ensures { IfOk result (λ s. s ≡ with_goal p.now goal) }
{
    let universals = p.universals.copy(alloc)?;
    let hyps = p.hyps.copy(alloc)?;
    Ok(Sequent {
        universals,
        hyps,
        goal,
    })
}

fn has(terms: &[Term], term: &Term) -> bool
    ensures { result ≡ list_any (same_tm term.now) terms.now }
{
    terms.iter().any(|other| term.same(other))
}

/// The first list, and what is new of the second.
#[tactic(auto, using(crate::proofs::Args::lists))]
pub(crate) fn join(alloc: Global, first: &Terms, second: &Terms) -> Result<Terms, Memory>
    ensures { IfOk result (λ ts. ts ≡ join first.now second.now) }
{
    let mut all = first.copy(alloc)?;
    for term in second.as_slice() {
        if !has(all.as_slice(), term) {
            all.push(term.share()?)?;
        }
    }
    Ok(all)
}

/// A goal with the universals and the hypotheses of two sequents.
pub(crate) fn joined(alloc: Global, p: &Sequent, q: &Sequent, goal: Term) -> Result<Sequent, Memory>
    ensures { IfOk result (λ s. s ≡ joined p.now q.now goal) }
{
    let universals = join(alloc, &p.universals, &q.universals)?;
    let hyps = join(alloc, &p.hyps, &q.hyps)?;
    Ok(Sequent {
        universals,
        hyps,
        goal,
    })
}

#[tactic(auto, using(crate::proofs::Args::lists))]
fn all_substituted(alloc: Global, terms: &Terms, s: &Subst) -> Result<Terms, Memory>
    ensures { IfOk result (λ ts. ts ≡ map (substituted (by_pairs s.now)) terms.now) }
{
    let mut instances = Seq::new(alloc);
    for term in terms.as_slice() {
        instances.push(substitute(alloc, term, s)?)?;
    }
    Ok(instances)
}

/// The hypotheses and the goal under a substitution.
pub(crate) fn instance_of(alloc: Global, p: &Sequent, s: &Subst) -> Result<Sequent, Memory>
    ensures { IfOk result (λ it. it ≡ instance_of s.now p.now) }
{
    let universals = p.universals.copy(alloc)?;
    let instances = all_substituted(alloc, &p.hyps, s)?;
    let hyps = join(alloc, &Seq::new(alloc), &instances)?;
    let goal = substitute(alloc, &p.goal, s)?;
    Ok(Sequent {
        universals,
        hyps,
        goal,
    })
}

/// The first list, and then the second.
#[tactic(auto, using(crate::proofs::Args::lists))]
fn appended(alloc: Global, first: &Terms, second: &Terms) -> Result<Terms, Memory>
    ensures { IfOk result (λ ts. ts ≡ first.now ++ second.now) }
{
    let mut all = first.copy(alloc)?;
    for term in second.as_slice() {
        all.push(term.share()?)?;
    }
    Ok(all)
}

/// The universals, the hypotheses and the goal.
pub(crate) fn terms_of(alloc: Global, p: &Sequent) -> Result<Terms, Memory>
    ensures { IfOk result (λ ts. ts ≡ sequent_terms p.now) }
{
    let mut rest = p.hyps.copy(alloc)?;
    rest.push(p.goal.share()?)?;
    appended(alloc, &p.universals, &rest)
}

#[tactic(auto, using(crate::proofs::Args::lists))]
fn all_renamed(alloc: Global, terms: &Terms, names: &NameMap) -> Result<Terms, Memory>
    ensures { IfOk result (λ ts. ts ≡ map (rename names.now) terms.now) }
{
    let mut instances = Seq::new(alloc);
    for term in terms.as_slice() {
        instances.push(instantiate_term(alloc, term, names)?)?;
    }
    Ok(instances)
}

/// The sequent under a map of names.
pub(crate) fn renamed(alloc: Global, p: &Sequent, names: &NameMap) -> Result<Sequent, Memory>
    ensures { IfOk result (λ s. s ≡ renamed_sequent names.now p.now) }
{
    let none = Seq::new(alloc);
    let universals = join(alloc, &none, &all_renamed(alloc, &p.universals, names)?)?;
    let hyps = join(alloc, &none, &all_renamed(alloc, &p.hyps, names)?)?;
    let goal = instantiate_term(alloc, &p.goal, names)?;
    Ok(Sequent {
        universals,
        hyps,
        goal,
    })
}

/// All terms of the list but this one.
#[tactic(auto, using(crate::proofs::Args::lists))]
pub(crate) fn without(alloc: Global, terms: &Terms, other: &Term) -> Result<Terms, Memory>
    ensures { IfOk result (λ ts. ts ≡ without terms.now other.now) }
{
    let mut rest = Seq::new(alloc);
    for term in terms.as_slice() {
        if !other.same(term) {
            rest.push(term.share()?)?;
        }
    }
    Ok(rest)
}

/// The goal of both, from what they need beside the case and its negation.
pub(crate) fn of_cases(
    alloc: Global,
    world: &World,
    case: &Term,
    p: &Sequent,
    q: &Sequent,
) -> Result<Sequent, Memory>
    ensures { IfOk result (λ s. s ≡ of_cases case.now p.now q.now) }
{
    let other = negation(alloc, world, case.share()?)?;
    let universals = join(alloc, &p.universals, &q.universals)?;
    let first = without(alloc, &p.hyps, case)?;
    let second = without(alloc, &q.hyps, &other)?;
    let hyps = join(alloc, &first, &second)?;
    let goal = p.goal.share()?;
    Ok(Sequent {
        universals,
        hyps,
        goal,
    })
}
