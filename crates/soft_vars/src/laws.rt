//! Laws of pairs and of the maps that they give, each the contract of a function that does nothing.

ghost use Rattle.soft_vars.specs.Laws.{PairsFit, MapsGiveInstances, CallsAreCalled};

/// Pairs that are accepted fit one by one, and no variable stands twice.
pub fn pairs_fit()
    ensures { PairsFit }
{}

/// A map gives each function that it was made for what is recorded for it.
pub fn maps_give_instances()
    ensures { MapsGiveInstances }
{}

/// A map that is made for some terms is made for each call of theirs.
pub fn calls_are_called()
    ensures { CallsAreCalled }
{}
