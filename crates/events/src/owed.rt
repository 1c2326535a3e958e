//! What a definition owes, as conditions.

ghost use Rattle.std.specs.Prelude.{◌≡◌, ◌+◌, ◌++◌, ◌∷◌, [], ◌<◌, ◌^◌, false, codes, length, IfOk};
ghost use Rattle.std.specs.Fmt.{decimal};
ghost use Rattle.terms.specs.Worlds.{Distinct};
ghost use Rattle.terms.specs.Measures as measure;
ghost use Rattle.measures.specs.Calls.{CallsTake};
ghost use Rattle.events.specs.Defun as spec;

use lisp_data::{Memory, Symbol};
use measures::{MeasureError, obligations};
use plans::{Condition, Conditions};
use std::alloc::Global;
use terms::{Definition, Sequent};

/// The condition that the measure is a natural number.
#[tactic(auto, unfolding(lisp_data::specs::SymbolText::is_symbol_text, lisp_data::specs::Atoms::leaf, lisp_data::specs::Atoms::in_atom, lisp_data::specs::Atoms::is_delimiter, lisp_data::specs::Atoms::is_sign))]
fn natural(alloc: Global, sequent: &Sequent) -> Result<Condition, Memory>
    ensures { IfOk result (λ c. c ≡ spec.natural sequent.now) }
{
    let name = Symbol::named(alloc, ":MEASURE-NATP")?;
    let sequent = sequent.copy(alloc)?;
    Ok(Condition { name, sequent })
}

/// The condition that the measure falls at a recursive call; the calls are counted from 1.
#[tactic(auto, using(crate::proofs::ConditionNames::condition_names))]
fn decrease(alloc: Global, call: usize, sequent: &Sequent) -> Result<Condition, Memory>
    ensures { IfOk result (λ c. c ≡ spec.decrease call sequent.now) }
{
    let name = format!(in alloc; ":MEASURE-DECREASES-{call}")?;
    let name = Symbol::named(alloc, &name)?;
    let sequent = sequent.copy(alloc)?;
    Ok(Condition { name, sequent })
}

/// What a definition owes, under the names of conditions.
#[tactic(auto, using(crate::proofs::OwedLemmas::decreasing))]
fn named(alloc: Global, owed: &[Sequent]) -> Result<Conditions, Memory>
    ensures { IfOk result (λ cs. cs ≡ spec.measure_conditions owed.now) }
{
    let mut conditions = Conditions::new(alloc);
    let [first, rest @ ..] = owed else {
        return Ok(conditions);
    };
    conditions.push(natural(alloc, first)?)?;
    for (i, sequent) in rest.iter().enumerate() {
        conditions.push(decrease(alloc, i + 1, sequent)?)?;
    }
    Ok(conditions)
}

/// The conditions of a definition: what its measure owes (docs/EVENTS.md, "defun").
pub(crate) fn measure_conditions(
    alloc: Global,
    definition: &Definition,
) -> Result<Conditions, Memory>
    requires distinct { Distinct definition.now.formals }
    requires arity { CallsTake definition.now.name (length definition.now.formals) definition.now.body }
    requires flat { measure.is_nested definition.now.name definition.now.body ≡ false }
    ensures { IfOk result (λ cs. cs ≡ spec.measure_conditions (measure.obligations definition.now)) }
{
    match obligations(alloc, definition) {
        Ok(owed) => named(alloc, owed.as_slice()),
        Err(error) => match error {
            MeasureError::Nested | MeasureError::NoMeasure => unreachable!(),
            MeasureError::Memory => Err(Memory),
        },
    }
}
