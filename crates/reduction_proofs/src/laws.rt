//! Laws of the way back, each the contract of a function that does nothing.

ghost use Rattle.reduction_proofs.specs.Laws.{HintsFit, StepsProve, ReductionsProve};

/// Hints that are read fit the world and the condition's universals.
pub fn hints_fit()
    ensures { HintsFit }
{}

/// Where all subgoals close, the way back has a proof of each.
pub fn steps_prove()
    ensures { StepsProve }
{}

/// Where the reduction of a well-formed condition closes, the way back proves the condition.
pub fn reductions_prove()
    ensures { ReductionsProve }
{}
