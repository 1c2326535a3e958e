//! What is found at a part of a term.

ghost use Rattle.std.specs.Prelude.{◌≡◌, IfOk};

use lisp_data::{Memory, Symbol};
use terms::{Path, Subst, Term};

/// Where a rule comes from.
#[derive(Drop)]
pub enum Source {
    /// The axiom with this number.
    Axiom(u32),
    Theorem(Symbol),
}

impl Source {
    /// The same, with one more owner.
    pub fn share(&self) -> Result<Source, Memory>
        ensures { IfOk result (λ s. s ≡ self.now) }
    {
        match self {
            Source::Axiom(number) => Ok(Source::Axiom(*number)),
            Source::Theorem(name) => Ok(Source::Theorem(name.share()?)),
        }
    }
}

/// Why a term may become another.
#[derive(Drop)]
pub enum Reason {
    /// The test of an `if` is a hypothesis or a quoted value other than NIL.
    ByTrue,
    /// The test of an `if` is `'nil`, or a hypothesis denies it.
    ByFalse,
    /// A hypothesis denies the call.
    Refuted,
    /// The value of a call on quoted arguments.
    Valued,
    /// The body of the call's function.
    Opened,
    /// This hypothesis is an equation that has the term as a side.
    Equated(Term),
    /// By a rule, under a substitution.
    Ruled(Source, Subst),
    /// The sides of the equation are the same polynomial.
    SamePolynomial,
    /// The test of an `if`, to split on.
    Tested,
}

/// What a term becomes, and why.
#[derive(Drop)]
pub struct Found {
    pub term: Term,
    pub reason: Reason,
}

/// What is found at a part of a term: the path to the part, and the part.
#[derive(Drop)]
pub struct At {
    pub path: Path,
    pub part: Term,
    pub found: Found,
}
