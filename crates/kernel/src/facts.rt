//! What the rules on facts of the world conclude, as docs/KERNEL.md says.
#![tactic(auto, unfolding(lisp_data::specs::SymbolText::is_symbol_text, lisp_data::specs::Atoms::leaf, lisp_data::specs::Atoms::in_atom, lisp_data::specs::Atoms::is_delimiter, lisp_data::specs::Atoms::is_sign))]

ghost use Rattle.std.specs.Prelude.{◌≡◌, IfOk, IsSome, Some, false, codes, length, slice_get};
ghost use Rattle.terms.specs.Definitions.{find};
ghost use Rattle.terms.specs.Measures.{call1 as Call1, is_nested, obligations};
ghost use Rattle.terms.specs.Primitives.{lookup};
ghost use Rattle.terms.specs.Sound.{iso_conditions, over_x};
ghost use Rattle.terms.specs.Terms.{Var};
ghost use Rattle.terms.specs.Evaluation.{then_with};
ghost use Rattle.terms.specs.Worlds.{Distinct};
ghost use Rattle.measures.specs.Calls.{CallsTake};
ghost use Rattle.worlds.specs.Lookups.{find_iso};
ghost use Rattle.kernel.specs.Facts.{fact_instance, fact_of, item, under_pairs};
ghost use Rattle.kernel.specs.Answers.{SaysInMemory, SaysSequent};

use crate::connectives::equation;
use crate::errors::RuleError;
use crate::sequents::{renamed, terms_of};
use lisp_data::{Memory, Seq, Symbol};
use measures::{MeasureError, has_obligation, obligations};
use soft_vars::{SoftError, instance_map};
use std::alloc::Global;
use terms::{Definition, FactName, FunPairs, Iso, Sequent, Term};
use worlds::World;

fn theorem(alloc: Global, world: &World, name: &Symbol) -> Result<Sequent, RuleError>
    ensures { SaysSequent (lookup world.now.theorems name.now) result }
{
    let Some(sequent) = world.find_theorem(name) else {
        return Err(RuleError::Refused);
    };
    let sequent = sequent.copy(alloc)?;
    Ok(sequent)
}

/// The obligation of this number, from 0.
fn obligation_of(alloc: Global, definition: &Definition, number: u32) -> Result<Sequent, Memory>
    requires distinct { Distinct definition.now.formals }
    requires arity { CallsTake definition.now.name (length definition.now.formals) definition.now.body }
    requires flat { is_nested definition.now.name definition.now.body ≡ false }
    requires owed { IsSome (slice_get (obligations definition.now) number) }
    ensures { IfOk result (λ s. slice_get (obligations definition.now) number ≡ Some s) }
{
    let owed = match obligations(alloc, definition) {
        Ok(owed) => owed,
        Err(MeasureError::Memory) => return Err(Memory),
        Err(MeasureError::Nested) | Err(MeasureError::NoMeasure) => unreachable!(),
    };
    match owed.as_slice().get(number as usize) {
        Some(sequent) => sequent.copy(alloc),
        None => unreachable!(),
    }
}

#[tactic(auto, using(crate::proofs::Owed::owed))]
fn obligation(
    alloc: Global,
    world: &World,
    name: &Symbol,
    number: u32,
) -> Result<Sequent, RuleError>
    ensures { SaysSequent (then_with (find world.now.functions.defs name.now) (λ d. slice_get (obligations d) number)) result }
{
    let Some(definition) = world.find_definition(name) else {
        return Err(RuleError::Refused);
    };
    if !has_obligation(definition, number) {
        return Err(RuleError::Refused);
    }
    world.soundness();
    let sequent = obligation_of(alloc, definition, number)?;
    Ok(sequent)
}

fn call(alloc: Global, name: &Symbol, a: Term) -> Result<Term, Memory>
    ensures { IfOk result (λ t. t ≡ Call1 name.now a) }
{
    let mut args = Seq::new(alloc);
    args.push(a)?;
    Term::call(alloc, name.share()?, args)
}

fn x(alloc: Global) -> Result<Term, Memory>
    ensures { IfOk result (λ t. t ≡ Var (codes "X")) }
{
    Term::var(alloc, Symbol::named(alloc, "X")?)
}

/// The goal, where the predicate is true of x.
fn over_x(alloc: Global, predicate: &Symbol, goal: Term) -> Result<Sequent, Memory>
    ensures { IfOk result (λ s. s ≡ over_x predicate.now goal) }
{
    let mut hyps = Seq::new(alloc);
    hyps.push(call(alloc, predicate, x(alloc)?)?)?;
    Ok(Sequent {
        universals: Seq::new(alloc),
        hyps,
        goal,
    })
}

/// The condition of this number, from 1 to 4.
fn condition_of(alloc: Global, world: &World, iso: &Iso, number: u32) -> Result<Sequent, Memory>
    requires { IsSome (item (iso_conditions iso.now) number) }
    ensures { IfOk result (λ s. item (iso_conditions iso.now) number ≡ Some s) }
{
    let x = x(alloc)?;
    match number {
        1 => {
            let image = call(alloc, &iso.forth, x)?;
            over_x(alloc, &iso.oldp, call(alloc, &iso.newp, image)?)
        }
        2 => {
            let image = call(alloc, &iso.back, x)?;
            over_x(alloc, &iso.newp, call(alloc, &iso.oldp, image)?)
        }
        3 => {
            let image = call(alloc, &iso.forth, x.share()?)?;
            let again = call(alloc, &iso.back, image)?;
            over_x(alloc, &iso.oldp, equation(alloc, world, again, x)?)
        }
        _ => {
            let image = call(alloc, &iso.back, x.share()?)?;
            let again = call(alloc, &iso.forth, image)?;
            over_x(alloc, &iso.newp, equation(alloc, world, again, x)?)
        }
    }
}

fn iso_condition(
    alloc: Global,
    world: &World,
    name: &Symbol,
    number: u32,
) -> Result<Sequent, RuleError>
    ensures { SaysSequent (then_with (find_iso world.now.isos name.now) (λ i. item (iso_conditions i) number)) result }
{
    let Some(iso) = world.find_iso(name) else {
        return Err(RuleError::Refused);
    };
    if number < 1 || 4 < number {
        return Err(RuleError::Refused);
    }
    let sequent = condition_of(alloc, world, iso, number)?;
    Ok(sequent)
}

/// Theorem: a theorem of the world, an obligation of one of its definitions, or a condition of one of its isomorphisms.
pub(crate) fn fact_of(alloc: Global, world: &World, fact: &FactName) -> Result<Sequent, RuleError>
    ensures { SaysSequent (fact_of world.now fact.now) result }
{
    match fact {
        FactName::Theorem(name) => theorem(alloc, world, name),
        FactName::Measure(name, number) => obligation(alloc, world, name, *number),
        FactName::Isomorphism(name, number) => iso_condition(alloc, world, name, *number),
    }
}

/// The sequent with functions in the place of function variables.
fn under_pairs(
    alloc: Global,
    world: &World,
    sequent: &Sequent,
    pairs: &FunPairs,
) -> Result<Sequent, RuleError>
    ensures { SaysInMemory (under_pairs world.now pairs.now sequent.now) result }
{
    let terms = terms_of(alloc, sequent)?;
    match instance_map(alloc, world, &terms, pairs) {
        Ok(map) => Ok(renamed(alloc, sequent, &map)?),
        Err(SoftError::Refused { .. }) => Err(RuleError::Refused),
        Err(SoftError::Memory) => Err(RuleError::Memory),
    }
}

/// Instance: a theorem of the world or an obligation of one of its definitions, with functions in the place of function
/// variables.
pub(crate) fn fact_instance(
    alloc: Global,
    world: &World,
    fact: &FactName,
    pairs: &FunPairs,
) -> Result<Sequent, RuleError>
    ensures { SaysInMemory (fact_instance world.now pairs.now fact.now) result }
{
    match fact {
        FactName::Theorem(_) | FactName::Measure(_, _) => {
            let sequent = fact_of(alloc, world, fact)?;
            under_pairs(alloc, world, &sequent, pairs)
        }
        FactName::Isomorphism(_, _) => Err(RuleError::Refused),
    }
}

/// The same name, with one more owner.
pub(crate) fn shared(fact: &FactName) -> Result<FactName, Memory>
    ensures { IfOk result (λ f. f ≡ fact.now) }
{
    let fact = match fact {
        FactName::Theorem(name) => FactName::Theorem(name.share()?),
        FactName::Measure(name, number) => FactName::Measure(name.share()?, *number),
        FactName::Isomorphism(name, number) => FactName::Isomorphism(name.share()?, *number),
    };
    Ok(fact)
}
