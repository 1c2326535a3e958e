//! Why functions can't stand for function variables.

use lisp_data::{Code, Detail, Memory, Symbol};

/// Why some pairs give no map.
#[derive(Drop)]
pub enum SoftError {
    /// The pairs are refused, or a function has no recorded instance for them (docs/MODEL.md, "Function variables and
    /// instances").
    Refused { code: Code, detail: Detail },
    Memory,
}

impl SoftError {
    ghost use Rattle.lisp_data.specs.declared.code.Code.TheVariants.{UnknownName, WrongArity, RepeatedFormal, NotAFunction, NoInstance};
    ghost use Rattle.lisp_data.specs.declared.detail.Detail.TheVariants.{Name};
    ghost use Rattle.soft_vars.specs.Answers.{IsError};

    fn with_name(code: Code, name: &Symbol) -> SoftError
        ensures { IsError code (Name name.now) result }
    {
        match name.share() {
            Ok(name) => SoftError::Refused {
                code,
                detail: Detail::Name(name),
            },
            Err(Memory) => SoftError::Memory,
        }
    }

    /// Nothing of this name is there.
    pub(crate) fn unknown_name(name: &Symbol) -> SoftError
        ensures { IsError UnknownName (Name name.now) result }
    {
        SoftError::with_name(Code::UnknownName, name)
    }

    /// The name is that of something else.
    pub(crate) fn wrong_kind(name: &Symbol) -> SoftError
        ensures { IsError NotAFunction (Name name.now) result }
    {
        SoftError::with_name(Code::NotAFunction, name)
    }

    /// The function takes another number of arguments than its variable.
    pub(crate) fn wrong_arity(name: &Symbol) -> SoftError
        ensures { IsError WrongArity (Name name.now) result }
    {
        SoftError::with_name(Code::WrongArity, name)
    }

    /// The variable stands in an earlier pair.
    pub(crate) fn repeated(name: &Symbol) -> SoftError
        ensures { IsError RepeatedFormal (Name name.now) result }
    {
        SoftError::with_name(Code::RepeatedFormal, name)
    }

    /// No instance of the function is recorded.
    pub(crate) fn no_instance(name: &Symbol) -> SoftError
        ensures { IsError NoInstance (Name name.now) result }
    {
        SoftError::with_name(Code::NoInstance, name)
    }
}

impl From<Memory> for SoftError {
    ghost use Rattle.std.specs.Prelude.{◌≡◌};
    ghost use Rattle.soft_vars.specs.declared.errors.SoftError.TheVariants.{Memory as OutOfMemory};

    ghost from_gives = { λ _ e. e ≡ OutOfMemory };

    fn from(_error: Memory) -> SoftError {
        SoftError::Memory
    }
}
