//! Laws of derived rules, of the congruence of bodies and of induction on calls, each the contract of a function that does nothing.

ghost use Rattle.proof_builders.specs.Laws.{SymmetryProves, TransitivityProves, EqualOutProves, ExFalsoProves, AndInProves, AndOutProves, AndInAllProves, CutAllProves, BodyCongruenceProves, AmongProves, InductOnCallsProves, ConditionsProved};

/// An equation's sides may be swapped.
pub fn symmetry_proves()
    ensures { SymmetryProves }
{}

/// What two equations with a common side say together.
pub fn transitivity_proves()
    ensures { TransitivityProves }
{}

/// What equals a proved goal is proved.
pub fn equal_out_proves()
    ensures { EqualOutProves }
{}

/// A proof of `'nil` proves any well-formed goal.
pub fn ex_falso_proves()
    ensures { ExFalsoProves }
{}

/// Two goals prove their conjunction.
pub fn and_in_proves()
    ensures { AndInProves }
{}

/// A conjunction proves both of its parts.
pub fn and_out_proves()
    ensures { AndOutProves }
{}

/// Terms as hypotheses prove their conjunction.
pub fn and_in_all_proves()
    ensures { AndInAllProves }
{}

/// A proof of a conjunction does away with its terms as hypotheses.
pub fn cut_all_proves()
    ensures { CutAllProves }
{}

/// Two terms that are the same but for calls of one function are equal where those calls are.
pub fn body_congruence_proves()
    ensures { BodyCongruenceProves }
{}

/// Proved sequents that prove the differences have a proof of each.
pub fn among_proves()
    ensures { AmongProves }
{}

/// What follows from the hypotheses of a function's own scheme is proved without them.
pub fn induct_on_calls_proves()
    ensures { InductOnCallsProves }
{}

/// A proof proves a condition where it proves its goal, under its universals and hypotheses, and only there.
pub fn conditions_proved()
    ensures { ConditionsProved }
{}
