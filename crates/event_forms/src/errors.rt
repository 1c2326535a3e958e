//! Why a form is no event.

use lisp_data::{Code, Detail, Memory, Symbol, Text};
use std::alloc::Global;

/// Why a form is no event (docs/EVENTS.md).
#[derive(Drop)]
pub enum EventError {
    /// The form is refused (docs/EVENTS.md).
    Refused { code: Code, detail: Detail },
    Memory,
}

impl EventError {
    ghost use Rattle.lisp_data.specs.declared.code.Code.TheVariants.{NotAnEvent, BadForm, KeyNotKnown, BookNotKnown};
    ghost use Rattle.lisp_data.specs.declared.detail.Detail.TheVariants.{Absent, Name, Word};
    ghost use Rattle.event_forms.specs.Refused.{IsError};

    /// The form is no event, or one that isn't there yet.
    pub(crate) fn not_an_event() -> EventError
        ensures { IsError NotAnEvent Absent result }
    {
        EventError::Refused {
            code: Code::NotAnEvent,
            detail: Detail::Absent,
        }
    }

    fn with_text(alloc: Global, code: Code, text: &[u8]) -> EventError
        ensures { IsError code (Word text.now) result }
    {
        match Text::from_slice(alloc, text) {
            Ok(text) => EventError::Refused {
                code,
                detail: Detail::Word(text),
            },
            Err(Memory) => EventError::Memory,
        }
    }

    /// A part of an event has another shape.
    pub(crate) fn bad_part(alloc: Global, word: &str) -> EventError
        ensures { IsError BadForm (Word word.now) result }
    {
        EventError::with_text(alloc, Code::BadForm, word.as_bytes())
    }

    fn with_name(code: Code, name: &Symbol) -> EventError
        ensures { IsError code (Name name.now) result }
    {
        match name.share() {
            Ok(name) => EventError::Refused {
                code,
                detail: Detail::Name(name),
            },
            Err(Memory) => EventError::Memory,
        }
    }

    /// A key is given a second time, or its value is wrong or absent.
    pub(crate) fn bad_key(key: &Symbol) -> EventError
        ensures { IsError BadForm (Name key.now) result }
    {
        EventError::with_name(Code::BadForm, key)
    }

    pub(crate) fn unknown_key(key: &Symbol) -> EventError
        ensures { IsError KeyNotKnown (Name key.now) result }
    {
        EventError::with_name(Code::KeyNotKnown, key)
    }

    pub(crate) fn unknown_book(alloc: Global, text: &[u8]) -> EventError
        ensures { IsError BookNotKnown (Word text.now) result }
    {
        EventError::with_text(alloc, Code::BookNotKnown, text)
    }
}

impl From<Memory> for EventError {
    ghost use Rattle.std.specs.Prelude.{◌≡◌};
    ghost use Rattle.event_forms.specs.declared.errors.EventError.TheVariants.{Memory as OutOfMemory};

    ghost from_gives = { λ _ e. e ≡ OutOfMemory };

    fn from(_error: Memory) -> EventError {
        EventError::Memory
    }
}
