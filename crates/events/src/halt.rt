//! What ends the handling of an event.

use crate::refusal::Refusal;
use evaluator::EvalError;
use event_forms::EventError;
use hints::HintError;
use lisp_data::{Code, Detail, Symbol};
use lists::{Memory, Text};
use plan_checks::PlanError;
use proof_texts::ProofError;
use soft_vars::SoftError;
use std::alloc::Global;
use term_forms::TermError;

/// What ends the handling of an event.
#[derive(Drop)]
pub enum Halt {
    Refused(Refusal),
    Memory,
}

impl Halt {
    ghost use Rattle.lisp_data.specs.declared.detail.Detail.TheVariants.{Absent, Name, Word};
    ghost use Rattle.lisp_data.specs.declared.code.Code.TheVariants.{NotAnEvent, BadForm};
    ghost use Rattle.std.specs.Prelude.{◌≡◌};
    ghost use Rattle.events.specs.declared.halt.Halt.TheVariants.{Refused};
    ghost use Rattle.events.specs.declared.refusal.Refusal.TheVariants.{Coded};
    ghost use Rattle.events.specs.view.Halts.{IsCoded};

    /// A code says it all.
    fn without_detail(code: Code) -> Halt
        ensures { result ≡ Refused (Coded code Absent) }
    {
        Halt::Refused(Refusal::Coded {
            code,
            detail: Detail::Absent,
        })
    }

    /// The event isn't there yet.
    pub(crate) fn not_an_event() -> Halt
        ensures { IsCoded NotAnEvent Absent result }
    {
        Halt::without_detail(Code::NotAnEvent)
    }

    /// A word is refused, by its code.
    pub(crate) fn word(alloc: Global, code: Code, word: &str) -> Halt
        ensures { IsCoded code (Word word.now) result }
    {
        match Text::from_slice(alloc, word.as_bytes()) {
            Ok(word) => Halt::Refused(Refusal::Coded {
                code,
                detail: Detail::Word(word),
            }),
            Err(Memory) => Halt::Memory,
        }
    }

    /// A part of an event has another shape.
    pub(crate) fn bad_part(alloc: Global, word: &str) -> Halt
        ensures { IsCoded BadForm (Word word.now) result }
    {
        Halt::word(alloc, Code::BadForm, word)
    }

    /// A name is refused, by its code.
    pub(crate) fn named(code: Code, name: &Symbol) -> Halt
        ensures { IsCoded code (Name name.now) result }
    {
        match name.share() {
            Ok(name) => Halt::Refused(Refusal::Coded {
                code,
                detail: Detail::Name(name),
            }),
            Err(Memory) => Halt::Memory,
        }
    }
}

impl From<Memory> for Halt {
    ghost use Rattle.std.specs.Prelude.{◌≡◌};
    ghost use Rattle.events.specs.declared.halt.Halt.TheVariants.{Memory as OutOfMemory};

    ghost from_gives = { λ _ e. e ≡ OutOfMemory };

    fn from(_error: Memory) -> Halt {
        Halt::Memory
    }
}

impl From<EventError> for Halt {
    ghost use Rattle.events.specs.view.Halts.{IsFromEvent};

    ghost from_gives = { λ t e. IsFromEvent t e };

    fn from(error: EventError) -> Halt {
        match error {
            EventError::Refused { code, detail } => {
                Halt::Refused(Refusal::Coded { code, detail })
            }
            EventError::Memory => Halt::Memory,
        }
    }
}

impl From<ProofError> for Halt {
    ghost use Rattle.events.specs.view.Halts.{IsFromProof};

    ghost from_gives = { λ t e. IsFromProof t e };

    fn from(error: ProofError) -> Halt {
        match error {
            ProofError::Refused { code, detail } => {
                Halt::Refused(Refusal::Coded { code, detail })
            }
            ProofError::Memory => Halt::Memory,
        }
    }
}

impl From<HintError> for Halt {
    ghost use Rattle.events.specs.view.Halts.{IsFromHint};

    ghost from_gives = { λ t e. IsFromHint t e };

    fn from(error: HintError) -> Halt {
        match error {
            HintError::Refused { code, detail } => Halt::Refused(Refusal::Coded { code, detail }),
            HintError::Memory => Halt::Memory,
        }
    }
}

impl From<TermError> for Halt {
    ghost use Rattle.events.specs.view.Halts.{IsFromTerm};

    ghost from_gives = { λ t e. IsFromTerm t e };

    fn from(error: TermError) -> Halt {
        match error {
            TermError::Refused { code, detail } => Halt::Refused(Refusal::Coded { code, detail }),
            TermError::Memory => Halt::Memory,
        }
    }
}

impl From<SoftError> for Halt {
    ghost use Rattle.events.specs.view.Halts.{IsFromSoft};

    ghost from_gives = { λ t e. IsFromSoft t e };

    fn from(error: SoftError) -> Halt {
        match error {
            SoftError::Refused { code, detail } => Halt::Refused(Refusal::Coded { code, detail }),
            SoftError::Memory => Halt::Memory,
        }
    }
}

impl From<PlanError> for Halt {
    ghost use Rattle.events.specs.view.Halts.{IsFromPlan};

    ghost from_gives = { λ t e. IsFromPlan t e };

    fn from(error: PlanError) -> Halt {
        match error {
            PlanError::Refused { code, detail } => Halt::Refused(Refusal::Coded { code, detail }),
            PlanError::Memory => Halt::Memory,
        }
    }
}

impl From<EvalError> for Halt {
    ghost use Rattle.events.specs.view.Halts.{IsFromEvaluation};

    ghost from_gives = { λ t e. IsFromEvaluation t e };

    fn from(error: EvalError) -> Halt {
        match error {
            EvalError::HasFunctionVariables(name) => Halt::Refused(Refusal::Coded {
                code: Code::HasFunctionVariables,
                detail: Detail::Name(name),
            }),
            EvalError::TooManyCalls => Halt::without_detail(Code::EvalTooManyCalls),
            EvalError::TooWide => Halt::without_detail(Code::EvalTooWide),
            EvalError::TooLarge => Halt::without_detail(Code::EvalTooLarge),
            EvalError::Memory => Halt::Memory,
        }
    }
}
