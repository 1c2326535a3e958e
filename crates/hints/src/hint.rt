//! What hint steps ask for.

use lisp_data::{Seq, Symbol, Symbols};
use reduction::How;
use terms::{FunPairs, Subst, Term};

/// Induction by the recursive definition of a function, on variables.
#[derive(Drop)]
pub struct Scheme {
    pub function: Symbol,
    pub over: Symbols,
}

/// What a step `:use` names.
#[derive(Drop)]
pub enum Fact {
    /// The axiom with this number.
    Axiom(u32),
    Theorem(Symbol),
    /// A theorem with functions in the place of function variables.
    Instance(Symbol, FunPairs),
    /// The matrix of a specification, which is a universal of the condition.
    Assumed(Term),
}

/// A fact and what it says.
#[derive(Drop)]
pub(crate) struct Cited {
    pub(crate) fact: Fact,
    pub(crate) formula: Term,
}

/// A fact under a substitution, and the hypothesis that it gives.
#[derive(Drop)]
pub struct Use {
    pub fact: Fact,
    pub s: Subst,
    pub hyp: Term,
}

/// Facts, in the order of their steps.
pub type Uses = Seq<Use>;

/// What hint steps ask for.
#[derive(Drop)]
pub struct Hints {
    pub induct: Option<Scheme>,
    pub uses: Uses,
    pub how: How,
}
