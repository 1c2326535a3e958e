//! Why a text is no hint.

use lisp_data::{Code, Detail, Memory, Symbol};
use soft_vars::SoftError;
use std::alloc::Global;
use term_forms::TermError;

/// Why a text is no hint.
#[derive(Drop)]
pub enum HintError {
    /// The text is refused.
    Refused { code: Code, detail: Detail },
    Memory,
}

impl HintError {
    ghost use Rattle.std.specs.Prelude.{codes};
    ghost use Rattle.lisp_data.specs.declared.code.Code.TheVariants.{BadForm, UnknownName, WrongArity, NotAFunction};
    ghost use Rattle.lisp_data.specs.declared.detail.Detail.TheVariants.{Name};
    ghost use Rattle.hints.specs.Refused.{IsError};

    fn with_name(code: Code, name: &Symbol) -> HintError
        ensures { IsError code (Name name.now) result }
    {
        match name.share() {
            Ok(name) => HintError::Refused {
                code,
                detail: Detail::Name(name),
            },
            Err(Memory) => HintError::Memory,
        }
    }

    /// The step has another shape.
    #[tactic(auto, unfolding(lisp_data::specs::SymbolText::is_symbol_text, lisp_data::specs::Atoms::leaf, lisp_data::specs::Atoms::in_atom, lisp_data::specs::Atoms::is_delimiter, lisp_data::specs::Atoms::is_sign))]
    pub(crate) fn bad_hint(alloc: Global) -> HintError
        ensures { IsError BadForm (Name (codes ":HOW")) result }
    {
        match Symbol::named(alloc, ":HOW") {
            Ok(key) => HintError::with_name(Code::BadForm, &key),
            Err(Memory) => HintError::Memory,
        }
    }

    /// Nothing of this name is there.
    pub(crate) fn unknown_name(name: &Symbol) -> HintError
        ensures { IsError UnknownName (Name name.now) result }
    {
        HintError::with_name(Code::UnknownName, name)
    }

    /// The name is of another kind.
    pub(crate) fn wrong_kind(name: &Symbol) -> HintError
        ensures { IsError NotAFunction (Name name.now) result }
    {
        HintError::with_name(Code::NotAFunction, name)
    }

    /// The function takes another number of arguments.
    pub(crate) fn wrong_arity(name: &Symbol) -> HintError
        ensures { IsError WrongArity (Name name.now) result }
    {
        HintError::with_name(Code::WrongArity, name)
    }
}

impl From<Memory> for HintError {
    ghost use Rattle.std.specs.Prelude.{◌≡◌};
    ghost use Rattle.hints.specs.declared.errors.HintError.TheVariants.{Memory as OutOfMemory};

    ghost from_gives = { λ _ e. e ≡ OutOfMemory };

    fn from(_error: Memory) -> HintError {
        HintError::Memory
    }
}

impl From<TermError> for HintError {
    ghost use Rattle.hints.specs.Refused.{IsFrom};

    ghost from_gives = { λ t e. IsFrom t e };

    fn from(error: TermError) -> HintError {
        match error {
            TermError::Refused { code, detail } => HintError::Refused { code, detail },
            TermError::Memory => HintError::Memory,
        }
    }
}

impl From<SoftError> for HintError {
    ghost use Rattle.hints.specs.Refused.{IsFromPairs};

    ghost from_gives = { λ s e. IsFromPairs s e };

    fn from(error: SoftError) -> HintError {
        match error {
            SoftError::Refused { code, detail } => HintError::Refused { code, detail },
            SoftError::Memory => HintError::Memory,
        }
    }
}
