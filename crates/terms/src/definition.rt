//! Definitions of functions (docs/MODEL.md, "Definitions and worlds").

ghost use Rattle.std.specs.Prelude.{◌≡◌, IfOk};

use crate::term::Term;
use lisp_data::{Memory, Symbol, Symbols};
use std::alloc::Global;

/// A function: its name, its distinct formals, its body, and its measure where it is recursive.
pub struct Definition {
    pub name: Symbol,
    pub formals: Symbols,
    pub body: Term,
    pub measure: Option<Term>,
}

impl Drop for Definition {
    fn drop(self) {
        let Definition {
            name: _,
            formals: _,
            body: _,
            measure: _,
        } = self;
    }
}

impl Definition {
    /// An equal definition, with its terms shared.
    pub fn copy(&self, alloc: Global) -> Result<Definition, Memory>
        ensures { IfOk result (λ d. d ≡ self.now) }
    {
        let name = self.name.share()?;
        let formals = self.formals.copy(alloc)?;
        let body = self.body.share()?;
        let measure = shared_measure(&self.measure)?;
        Ok(Definition {
            name,
            formals,
            body,
            measure,
        })
    }
}

fn shared_measure(measure: &Option<Term>) -> Result<Option<Term>, Memory>
    ensures { IfOk result (λ m. m ≡ measure.now) }
{
    match measure {
        None => Ok(None),
        Some(measure) => {
            let measure = measure.share()?;
            Ok(Some(measure))
        }
    }
}
