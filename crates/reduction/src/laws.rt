//! Laws of the reduction, each the contract of a function that does nothing.

ghost use Rattle.reduction.specs.Laws.{LeavesStuck, FoundStands};

/// No kind of step applies at a leaf that is answered.
pub fn leaves_are_stuck()
    ensures { LeavesStuck }
{}

/// What is found in a term stands at its path, and another part can be put there.
pub fn found_stands()
    ensures { FoundStands }
{}
