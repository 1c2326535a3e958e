//! Laws of restrictions, each the contract of a function that does nothing.

ghost use Rattle.restrict_tool.specs.Laws.{CallsAgree, BodiesAreAlike, UnfoldingProves, RestrictionOwes, RestrictionsAreLawful};

/// At a recursive call the old and the new function agree, where a proof says that its arguments meet the restriction.
pub fn calls_agree()
    ensures { CallsAgree }
{}

/// The old and the new body are alike but for the recursive calls.
pub fn bodies_are_alike()
    ensures { BodiesAreAlike }
{}

/// Where the bodies are the same, the functions are.
pub fn unfolding_proves()
    ensures { UnfoldingProves }
{}

/// What the new function owes follows from what the old one does.
pub fn restriction_owes()
    ensures { RestrictionOwes }
{}

/// A plan does what it claims.
pub fn restrictions_are_lawful()
    ensures { RestrictionsAreLawful }
{}
