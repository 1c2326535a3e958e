//! Sequents with functions in the place of function variables.

ghost use Rattle.std.specs.Prelude.{◌≡◌, ◌++◌, IfOk, map};
ghost use Rattle.terms.specs.Instances.{sequent_terms, renamed_sequent};
ghost use Rattle.terms.specs.Maps.{rename};

use crate::joins::without_repeats;
use lists::Memory;
use soft_vars::{NameMap, instantiate_term};
use std::alloc::Global;
use terms::{Sequent, Terms};

/// The first list, and then the second.
#[tactic(auto, using(crate::proofs::TermLists::lists))]
fn appended(alloc: Global, first: &Terms, second: &Terms) -> Result<Terms, Memory>
    ensures { IfOk result (λ ts. ts ≡ first.now ++ second.now) }
{
    let mut all = first.copy(alloc)?;
    for term in second.as_slice() {
        all.push(term.share()?)?;
    }
    Ok(all)
}

/// The terms of a sequent: its universals, its hypotheses, its goal.
pub fn terms_of(alloc: Global, sequent: &Sequent) -> Result<Terms, Memory>
    ensures { IfOk result (λ ts. ts ≡ sequent_terms sequent.now) }
{
    let mut rest = sequent.hyps.copy(alloc)?;
    rest.push(sequent.goal.share()?)?;
    appended(alloc, &sequent.universals, &rest)
}

#[tactic(auto, using(crate::proofs::TermLists::lists))]
fn all_renamed(alloc: Global, terms: &Terms, names: &NameMap) -> Result<Terms, Memory>
    ensures { IfOk result (λ ts. ts ≡ map (rename names.now) terms.now) }
{
    let mut instances = Terms::new(alloc);
    for term in terms.as_slice() {
        instances.push(instantiate_term(alloc, term, names)?)?;
    }
    Ok(instances)
}

/// The sequent under a map of names, in which no term stands twice in a list (docs/MODEL.md, "Function variables and
/// instances").
pub fn renamed(alloc: Global, sequent: &Sequent, names: &NameMap) -> Result<Sequent, Memory>
    ensures { IfOk result (λ s. s ≡ renamed_sequent names.now sequent.now) }
{
    let universals = without_repeats(alloc, &all_renamed(alloc, &sequent.universals, names)?)?;
    let hyps = without_repeats(alloc, &all_renamed(alloc, &sequent.hyps, names)?)?;
    let goal = instantiate_term(alloc, &sequent.goal, names)?;
    Ok(Sequent {
        universals,
        hyps,
        goal,
    })
}
