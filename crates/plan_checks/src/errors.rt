//! Why the parts of a transformation give no plan.

use lisp_data::{Code, Detail, Memory, Symbol};
use lists::Text;
use soft_vars::SoftError;
use std::alloc::Global;
use term_forms::TermError;

/// Why the parts of a transformation give no plan.
#[derive(Drop)]
pub enum PlanError {
    /// A part is refused (docs/TRANSFORMATIONS.md).
    Refused { code: Code, detail: Detail },
    Memory,
}

impl PlanError {
    ghost use Rattle.lisp_data.specs.declared.detail.Detail.TheVariants.{Name, Word};
    ghost use Rattle.plan_checks.specs.Answers.{IsError};

    /// A name is refused, by its code.
    pub fn named(code: Code, name: &Symbol) -> PlanError
        ensures { IsError code (Name name.now) result }
    {
        match name.share() {
            Ok(name) => PlanError::Refused {
                code,
                detail: Detail::Name(name),
            },
            Err(Memory) => PlanError::Memory,
        }
    }

    /// A word is refused, by its code.
    pub fn word(alloc: Global, code: Code, word: &str) -> PlanError
        ensures { IsError code (Word word.now) result }
    {
        match Text::from_slice(alloc, word.as_bytes()) {
            Ok(word) => PlanError::Refused {
                code,
                detail: Detail::Word(word),
            },
            Err(Memory) => PlanError::Memory,
        }
    }
}

impl From<Memory> for PlanError {
    ghost use Rattle.std.specs.Prelude.{◌≡◌};
    ghost use Rattle.plan_checks.specs.declared.errors.PlanError.TheVariants.{Memory as OutOfMemory};

    ghost from_gives = { λ _ e. e ≡ OutOfMemory };

    fn from(_error: Memory) -> PlanError {
        PlanError::Memory
    }
}

impl From<TermError> for PlanError {
    ghost use Rattle.plan_checks.specs.Answers.{IsFromTerm};

    ghost from_gives = { λ t e. IsFromTerm t e };

    fn from(error: TermError) -> PlanError {
        match error {
            TermError::Refused { code, detail } => PlanError::Refused { code, detail },
            TermError::Memory => PlanError::Memory,
        }
    }
}

impl From<SoftError> for PlanError {
    ghost use Rattle.plan_checks.specs.Answers.{IsFromSoft};

    ghost from_gives = { λ t e. IsFromSoft t e };

    fn from(error: SoftError) -> PlanError {
        match error {
            SoftError::Refused { code, detail } => PlanError::Refused { code, detail },
            SoftError::Memory => PlanError::Memory,
        }
    }
}
