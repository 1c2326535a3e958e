//! Sequents (docs/MODEL.md, "Sequents, and what holds").

ghost use Rattle.std.specs.Prelude.{◌≡◌, IfOk};

use crate::term::{Term, Terms};
use lisp_data::Memory;
use std::alloc::Global;

/// Universals, hypotheses and a goal.
pub struct Sequent {
    pub universals: Terms,
    pub hyps: Terms,
    pub goal: Term,
}

impl Drop for Sequent {
    fn drop(self) {
        let Sequent {
            universals: _,
            hyps: _,
            goal: _,
        } = self;
    }
}

impl Sequent {
    /// An equal sequent, with its terms shared.
    pub fn copy(&self, alloc: Global) -> Result<Sequent, Memory>
        ensures { IfOk result (λ s. s ≡ self.now) }
    {
        let universals = self.universals.copy(alloc)?;
        let hyps = self.hyps.copy(alloc)?;
        let goal = self.goal.share()?;
        Ok(Sequent {
            universals,
            hyps,
            goal,
        })
    }
}
