//! Laws of the model, each the contract of a function that does nothing.

ghost use Rattle.terms.specs.Laws.{ValuesStay, SubstitutionLaw, LaterDefinitions, StaysTotal, StaysTotalFlat, WorldsGrow, LaterWorldsKeep, SoundWorldsKeepInitial};

/// A value at some depth is the value at each larger depth.
pub fn values_stay()
    ensures { ValuesStay }
{}

/// Evaluation under a substitution is evaluation in the changed environment.
pub fn substitution()
    ensures { SubstitutionLaw }
{}

/// A definition that is added later changes no value.
pub fn later_definitions()
    ensures { LaterDefinitions }
{}

/// A definition whose obligations hold leaves the world total.
pub fn definitions_stay_total()
    ensures { StaysTotal }
{}

/// A definition that isn't recursive leaves the world total.
pub fn flat_definitions_stay_total()
    ensures { StaysTotalFlat }
{}

/// The world that each book begins with is sound, and a sound world stays so as it grows.
pub fn worlds_grow()
    ensures { WorldsGrow }
{}

/// What the names of a sound world are stays in each later sound world.
pub fn later_worlds_keep()
    ensures { LaterWorldsKeep }
{}

/// What each book begins with is in each sound world, and depends on no function variable.
pub fn sound_worlds_keep_initial()
    ensures { SoundWorldsKeepInitial }
{}
