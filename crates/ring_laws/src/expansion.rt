//! Terms multiplied out, within the limits.

ghost use Rattle.std.specs.Prelude.{◌≡◌, ◌+◌, ◌*◌, ◌-◌, ◌^◌, ◌≤◌, [], ◌∷◌, ◌++◌, pos, nat_abs, IfOk};
ghost use Rattle.ring_laws.specs.Expressions.{expression};
ghost use Rattle.ring_laws.specs.FormalSums.{negated, products};
ghost use Rattle.ring_laws.specs.view.Held.{held, numbers, together, HasAtoms};
ghost use Rattle.ring_laws.specs.view.Expansions.{SaysSum, SaysExpansion};
ghost use Rattle.ring_laws.specs.declared.limits.TheConstants.{MAX_NORM};

use crate::atoms::{Atoms, numbers_of};
use crate::errors::RingError;
use crate::limits::{MAX_MONOMIALS, MAX_NORM};
use crate::polynomial::Polynomial;
use crate::shape::{Reading, read};
use std::alloc::Global;
use terms::Term;

/// A term multiplied out, with its norm.
pub(crate) struct Expansion {
    pub(crate) polynomial: Polynomial,
    norm: u128,
}

impl Drop for Expansion {
    fn drop(self) {
        let Expansion {
            polynomial: _,
            norm: _,
        } = self;
    }
}

/// The polynomial, where it has no more monomials than the limit.
fn small(polynomial: Polynomial, norm: u128) -> Result<Expansion, RingError>
    requires { norm ≤ MAX_NORM }
    ensures { SaysSum result norm (held polynomial.terms.entries) }
{
    if polynomial.size() > MAX_MONOMIALS {
        return Err(RingError::TooLarge);
    }
    Ok(Expansion { polynomial, norm })
}

#[tactic(auto, using(crate::proofs::Expansions::expansions))]
fn literal(alloc: Global, number: i128) -> Result<Expansion, RingError>
    ensures { SaysSum result (nat_abs number) (([], number) ∷ []) }
{
    let norm = number.unsigned_abs();
    if norm > MAX_NORM {
        return Err(RingError::TooWide);
    }
    let mut polynomial = Polynomial::zero(alloc);
    polynomial.add(Vec::new(alloc), number)?;
    small(polynomial, norm)
}

#[tactic(auto, using(crate::proofs::Expansions::expansions))]
fn atom(alloc: Global, term: &Term, atoms: &Atoms) -> Result<Expansion, RingError>
    ensures { SaysSum result 1 ((numbers atoms.now.keys (term.now ∷ []), pos 1) ∷ []) }
{
    let mut polynomial = Polynomial::zero(alloc);
    polynomial.add(numbers_of(alloc, term, atoms)?, 1)?;
    small(polynomial, 1)
}

impl Expansion {
    #[tactic(auto, using(crate::proofs::Expansions::expansions))]
    fn plus(self, alloc: Global, other: Expansion) -> Result<Expansion, RingError>
        ensures { SaysSum result (self.norm + other.norm) (held self.polynomial.terms.entries ++ held other.polynomial.terms.entries) }
    {
        let Some(norm) = self.norm.checked_add(other.norm) else {
            return Err(RingError::TooWide);
        };
        if norm > MAX_NORM {
            return Err(RingError::TooWide);
        }
        let Expansion {
            polynomial: a,
            norm: _,
        } = self;
        let Expansion {
            polynomial: b,
            norm: _,
        } = other;
        let polynomial = a.plus(alloc, b)?;
        small(polynomial, norm)
    }

    #[tactic(auto, using(crate::proofs::Expansions::expansions))]
    fn times(&self, alloc: Global, other: &Expansion) -> Result<Expansion, RingError>
        ensures { SaysSum result (self.now.norm * other.now.norm) (products together (held self.now.polynomial.terms.entries) (held other.now.polynomial.terms.entries)) }
    {
        let Some(norm) = self.norm.checked_mul(other.norm) else {
            return Err(RingError::TooWide);
        };
        if norm > MAX_NORM {
            return Err(RingError::TooWide);
        }
        let polynomial = self.polynomial.times(alloc, &other.polynomial)?;
        small(polynomial, norm)
    }

    #[tactic(auto, using(crate::proofs::Expansions::expansions))]
    fn negated(&self, alloc: Global) -> Result<Expansion, RingError>
        requires { self.now.norm ≤ MAX_NORM }
        ensures { SaysSum result self.now.norm (negated (held self.now.polynomial.terms.entries)) }
    {
        let polynomial = self.polynomial.negated(alloc)?;
        small(polynomial, self.norm)
    }
}

/// The term multiplied out, or the first limit that it passes.
#[tactic(auto, using(crate::proofs::Expansions::expansions))]
pub(crate) fn expand(alloc: Global, term: &Term, atoms: &Atoms) -> Result<Expansion, RingError>
    requires { HasAtoms atoms.now.keys (expression term.now) }
    ensures { SaysExpansion result atoms.now.keys (expression term.now) }
{
    match read(term) {
        Reading::Literal(number) => literal(alloc, number),
        Reading::Atom => atom(alloc, term, atoms),
        Reading::Sum(a, b) => {
            let a = expand(alloc, a, atoms)?;
            let b = expand(alloc, b, atoms)?;
            a.plus(alloc, b)
        }
        Reading::Product(a, b) => {
            let a = expand(alloc, a, atoms)?;
            let b = expand(alloc, b, atoms)?;
            a.times(alloc, &b)
        }
        Reading::Negation(a) => {
            let a = expand(alloc, a, atoms)?;
            a.negated(alloc)
        }
    }
}
