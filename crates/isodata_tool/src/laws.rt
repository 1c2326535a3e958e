//! Laws of functions on another representation, each the contract of a function that does nothing.

ghost use Rattle.isodata_tool.specs.Laws.{BodiesAreAlike, CallsAgree, IsomorphicOwes, TransfersAreLawful, TurningProves, UnfoldingProves};

/// At a recursive call the old and the new function agree, where a proof says that its arguments are in the old
/// representation.
pub fn calls_agree()
    ensures { CallsAgree }
{}

/// The old body and the one with the new function's calls are alike but for these.
pub fn bodies_are_alike()
    ensures { BodiesAreAlike }
{}

/// Where the bodies are the same, the functions are.
pub fn unfolding_proves()
    ensures { UnfoldingProves }
{}

/// The theorem from the old function to the new one proves the one from the new function to the old one.
pub fn turning_proves()
    ensures { TurningProves }
{}

/// What the new function owes follows from what the old one does, and from the conditions.
pub fn isomorphic_owes()
    ensures { IsomorphicOwes }
{}

/// A plan does what it claims.
pub fn transfers_are_lawful()
    ensures { TransfersAreLawful }
{}
