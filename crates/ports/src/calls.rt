//! Which calls of a port fail, by their numbers.

ghost use Rattle.std.specs.Prelude.{◌≡◌, ◌≤◌, IsTrue};
ghost use Rattle.ports.specs.Causes.{Rose};
ghost use Rattle.ports.specs.Calls.{uncalled, next_fails, failures, after_call};

use lists::Seq;
use std::marker::Model;

/// The numbers of the calls that fail, from 1.
pub type Calls = Seq<u64>;

/// Calls that are numbered from 1, of which the listed ones fail.
#[derive(Drop)]
pub(crate) struct Numbered {
    failing: Calls,
    made: u64,
}

impl Model for Numbered {
    ghost use Rattle.ports.specs.Calls.{NumberedCalls};

    ghost Value = { NumberedCalls };

    ghost view = { λ s. record { failing = s.failing; made = s.made } };
}

impl Numbered {
    pub(crate) fn new(failing: Calls) -> Numbered
        ensures { result ≡ uncalled failing }
    {
        Numbered { failing, made: 0 }
    }

    #[tactic(auto, using(crate::proofs::Failures::failure_steps))]
    /// Counts a call, and answers whether it fails.
    pub(crate) fn call_fails(&mut self) -> bool
        ensures fails { result ≡ next_fails self.old }
        ensures later { failures self.old ≤ failures self.new }
        ensures rose { IsTrue result → Rose (failures self.old) (failures self.new) }
        ensures after { self.new ≡ after_call self.old }
    {
        if self.made == u64::MAX {
            return false;
        }
        self.made += 1;
        self.failing.as_slice().contains(&self.made)
    }
}
