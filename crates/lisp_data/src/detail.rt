//! What the line of a refusal names.

ghost use Rattle.std.specs.Prelude.{◌≡◌, ◌++◌, IfOk, OnOk, OnErr};
ghost use Rattle.lisp_data.specs.Details.{detail_text};

use crate::symbol::Symbol;
use lists::{Memory, Text};
use std::alloc::Global;

/// What a refusal names after its word (docs/REPORT.md, "Refusals").
pub enum Detail {
    Absent,
    /// A name, or a key.
    Name(Symbol),
    /// A word in lower case.
    Word(Text),
    Number(u64),
}

impl Drop for Detail {
    fn drop(self) {
        match self {
            Detail::Absent => {}
            Detail::Name(_) => {}
            Detail::Word(_) => {}
            Detail::Number(_) => {}
        }
    }
}

impl Detail {
    /// The same detail.
    pub fn copy(&self, alloc: Global) -> Result<Detail, Memory>
        ensures { IfOk result (λ d. d ≡ self.now) }
    {
        match self {
            Detail::Absent => Ok(Detail::Absent),
            Detail::Name(name) => Ok(Detail::Name(name.share()?)),
            Detail::Word(word) => Ok(Detail::Word(word.copy(alloc)?)),
            Detail::Number(number) => Ok(Detail::Number(*number)),
        }
    }

    /// Writes the detail at the end of a text. Where there is no memory the text is as before.
    pub fn write(&self, alloc: Global, out: &mut Text) -> Result<(), Memory>
        ensures ok { OnOk result (out.new ≡ out.old ++ detail_text self.now) }
        ensures err { OnErr result (out.new ≡ out.old) }
    {
        match self {
            Detail::Absent => Ok(()),
            Detail::Name(name) => out.extend(name.text().as_bytes()),
            Detail::Word(word) => out.extend(word.as_slice()),
            Detail::Number(number) => {
                let text = format!(in alloc; "{number}")?;
                out.extend(text.as_bytes())
            }
        }
    }
}
