//! Why a text is no proof.

use lisp_data::{Code, Detail, Memory, Symbol, SymbolError};
use std::alloc::Global;
use term_forms::TermError;

/// Why a text is no proof (docs/SYNTAX.md, "Texts of proofs").
#[derive(Drop)]
pub enum ProofError {
    /// The text is refused (docs/SYNTAX.md, "Texts of proofs").
    Refused { code: Code, detail: Detail },
    Memory,
}

impl ProofError {
    ghost use Rattle.std.specs.Prelude.{codes};
    ghost use Rattle.lisp_data.specs.declared.code.Code.TheVariants.{BadForm, UnknownName};
    ghost use Rattle.lisp_data.specs.declared.detail.Detail.TheVariants.{Name};
    ghost use Rattle.proof_texts.specs.Refused.{IsError};

    fn with_name(code: Code, name: &Symbol) -> ProofError
        ensures { IsError code (Name name.now) result }
    {
        match name.share() {
            Ok(name) => ProofError::Refused {
                code,
                detail: Detail::Name(name),
            },
            Err(Memory) => ProofError::Memory,
        }
    }

    /// The text has another shape than a proof's.
    pub(crate) fn bad_proof(alloc: Global) -> ProofError
        ensures { IsError BadForm (Name (codes ":PROOF")) result }
    {
        match Symbol::new(alloc, ":PROOF") {
            Ok(key) => ProofError::with_name(Code::BadForm, &key),
            Err(SymbolError::BadText) => unreachable!(),
            Err(SymbolError::Memory) => ProofError::Memory,
        }
    }

    /// Nothing of this name is there.
    pub(crate) fn unknown_name(name: &Symbol) -> ProofError
        ensures { IsError UnknownName (Name name.now) result }
    {
        ProofError::with_name(Code::UnknownName, name)
    }
}

impl From<Memory> for ProofError {
    ghost use Rattle.std.specs.Prelude.{◌≡◌};
    ghost use Rattle.proof_texts.specs.declared.errors.ProofError.TheVariants.{Memory as OutOfMemory};

    ghost from_gives = { λ _ e. e ≡ OutOfMemory };

    fn from(_error: Memory) -> ProofError {
        ProofError::Memory
    }
}

impl From<TermError> for ProofError {
    ghost use Rattle.proof_texts.specs.view.ErrorView.{IsFrom};

    ghost from_gives = { λ t e. IsFrom t e };

    fn from(error: TermError) -> ProofError {
        match error {
            TermError::Refused { code, detail } => ProofError::Refused { code, detail },
            TermError::Memory => ProofError::Memory,
        }
    }
}
