//! The proofs of what a plan claims.

use kernel::Proved;
use lisp_data::Seq;
use std::alloc::Global;

/// A list of proved sequents, in order.
pub type ProvedList = Seq<Proved>;

/// Proofs of what a plan claims, one for each sequent, in order (docs/ARCHITECTURE.md, "Glossary"). An event makes them of the proofs of its
/// conditions.
pub struct Claims {
    /// In the world before the event.
    pub before: ProvedList,
    /// In the world with the functions that the event makes.
    pub after: ProvedList,
}

impl Drop for Claims {
    fn drop(self) {
        let Claims {
            before: _,
            after: _,
        } = self;
    }
}

impl Claims {
    ghost use Rattle.std.specs.Prelude.{◌≡◌};
    ghost use Rattle.plans.specs.Proving.{no_claims};

    /// No proofs: nothing is claimed.
    pub fn new(alloc: Global) -> Claims
        ensures { result ≡ no_claims }
    {
        Claims {
            before: ProvedList::new(alloc),
            after: ProvedList::new(alloc),
        }
    }

    /// Its two lists of proofs.
    pub fn into_parts(self) -> (ProvedList, ProvedList)
        ensures { result ≡ (self.before, self.after) }
    {
        let Claims { before, after } = self;
        (before, after)
    }
}
