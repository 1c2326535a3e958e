//! Conditions that are named by a word and a number.

ghost use Rattle.std.specs.Prelude.{◌≡◌, ◌+◌, ◌++◌, ◌∷◌, [], ◌<◌, ◌^◌, length, IfOk};
ghost use Rattle.std.specs.Fmt.{decimal};
ghost use Rattle.plan_checks.specs.Numbered as spec;
ghost use Rattle.plan_checks.specs.Numbered.{IsConditionWord};

use lisp_data::{Memory, Symbol};
use plans::{Condition, Conditions};
use std::alloc::Global;
use terms::Sequent;

/// A condition by its word and its number.
#[tactic(auto, using(crate::proofs::NumberedNames::numbered_names))]
fn condition(
    alloc: Global,
    word: &str,
    number: usize,
    sequent: &Sequent,
) -> Result<Condition, Memory>
    requires { IsConditionWord word.now }
    ensures { IfOk result (λ c. c ≡ spec.condition word.now number sequent.now) }
{
    let name = format!(in alloc; "{word}{number}")?;
    let name = Symbol::named(alloc, &name)?;
    let sequent = sequent.copy(alloc)?;
    Ok(Condition { name, sequent })
}

/// Sequents as conditions, each named by the word and its number, which are counted from 1 (docs/TRANSFORMATIONS.md).
#[tactic(auto, using(crate::proofs::NumberedLists::numbered_lists))]
pub fn numbered(alloc: Global, word: &str, sequents: &[Sequent]) -> Result<Conditions, Memory>
    requires { IsConditionWord word.now }
    ensures { IfOk result (λ cs. cs ≡ spec.numbered word.now sequents.now) }
{
    let mut conditions = Conditions::new(alloc);
    for (i, sequent) in sequents.iter().enumerate() {
        conditions.push(condition(alloc, word, i + 1, sequent)?)?;
    }
    Ok(conditions)
}
