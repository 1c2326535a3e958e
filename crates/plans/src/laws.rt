//! Laws of plans, each the contract of a function that does nothing.

ghost use Rattle.plans.specs.Laws.{EntriesKeepSound, ProvedConditionsHold};

/// A sound world that can take entries is sound with them.
pub fn entries_keep_sound()
    ensures { EntriesKeepSound }
{}

/// What proofs prove in a sound world holds there.
pub fn proved_conditions_hold()
    ensures { ProvedConditionsHold }
{}
