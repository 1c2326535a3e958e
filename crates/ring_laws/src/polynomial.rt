//! Polynomials: monomials by the numbers of their atoms, with coefficients.

ghost use Rattle.std.specs.Prelude.{◌≡◌, [], ◌∷◌, ◌++◌, pos, length, not, IfOk, OnOk, bytes_eq};
ghost use Rattle.std.specs.List.{list_all, filter};
ghost use Rattle.std.specs.BTreeMap.{values};
ghost use Rattle.std.specs.Ordering.{int_eq};
ghost use Rattle.ring_laws.specs.FormalSums.{coefficient, coefficients_agree, support, negated, times_each, products};
ghost use Rattle.ring_laws.specs.view.Held.{held, together, SameSum};

use crate::atoms::together;
use lists::Memory;
use std::alloc::Global;
use std::collections::BTreeMap;

/// Monomials by the numbers of their atoms in order, with their coefficients, some of which may be 0.
pub(crate) struct Polynomial {
    terms: BTreeMap<Vec<usize>, i128>,
}

impl Drop for Polynomial {
    fn drop(self) {
        let Polynomial { terms: _ } = self;
    }
}

impl Polynomial {
    pub(crate) fn zero(alloc: Global) -> Polynomial
        ensures { held result.terms.entries ≡ [] }
    {
        Polynomial {
            terms: BTreeMap::new(alloc),
        }
    }

    /// The coefficient at this monomial.
    #[tactic(auto, using(crate::proofs::Maps::maps))]
    fn coefficient(&self, monomial: &Vec<usize>) -> i128
        ensures { result ≡ coefficient bytes_eq (held self.now.terms.entries) monomial.now.items }
    {
        let _entries = self.terms.len();
        match self.terms.get(monomial) {
            Some(factor) => *factor,
            None => 0,
        }
    }

    /// Adds a monomial. `Memory` comes also where the sum doesn't fit, which no sum within a norm does.
    pub(crate) fn add(&mut self, monomial: Vec<usize>, factor: i128) -> Result<(), Memory>
        ensures { OnOk result (SameSum (held self.new.terms.entries) ((monomial.items, factor) ∷ held self.old.terms.entries)) }
    {
        if factor == 0 {
            return Ok(());
        }
        let Some(sum) = self.coefficient(&monomial).checked_add(factor) else {
            return Err(Memory);
        };
        let _entries = self.terms.len();
        self.terms.insert(monomial, sum)?;
        Ok(())
    }

    /// Adds another polynomial, times a monomial.
    fn add_times(
        &mut self,
        alloc: Global,
        monomial: &[usize],
        factor: &i128,
        other: &Polynomial,
    ) -> Result<(), Memory>
        ensures { OnOk result (SameSum (held self.new.terms.entries) (held self.old.terms.entries ++ times_each together (monomial.now, factor.now) (held other.now.terms.entries))) }
    {
        for (others, other_factor) in &other.terms {
            let Some(product) = factor.checked_mul(*other_factor) else {
                return Err(Memory);
            };
            self.add(together(alloc, monomial, others.as_slice())?, product)?;
        }
        Ok(())
    }

    fn with(mut self, alloc: Global, other: &Polynomial) -> Result<Polynomial, Memory>
        ensures { IfOk result (λ p. SameSum (held p.terms.entries) (held self.terms.entries ++ held other.now.terms.entries)) }
    {
        self.add_times(alloc, &[], &1, other)?;
        Ok(self)
    }

    /// The sum of the two.
    pub(crate) fn plus(self, alloc: Global, other: Polynomial) -> Result<Polynomial, Memory>
        ensures { IfOk result (λ p. SameSum (held p.terms.entries) (held self.terms.entries ++ held other.terms.entries)) }
    {
        if self.terms.len() < other.terms.len() {
            other.with(alloc, &self)
        } else {
            self.with(alloc, &other)
        }
    }

    pub(crate) fn negated(&self, alloc: Global) -> Result<Polynomial, Memory>
        ensures { IfOk result (λ p. SameSum (held p.terms.entries) (negated (held self.now.terms.entries))) }
    {
        let mut opposite = Polynomial::zero(alloc);
        opposite.add_times(alloc, &[], &-1, self)?;
        Ok(opposite)
    }

    pub(crate) fn times(&self, alloc: Global, other: &Polynomial) -> Result<Polynomial, Memory>
        ensures { IfOk result (λ p. SameSum (held p.terms.entries) (products together (held self.now.terms.entries) (held other.now.terms.entries))) }
    {
        let mut product = Polynomial::zero(alloc);
        for (monomial, factor) in &self.terms {
            product.add_times(alloc, monomial.as_slice(), factor, other)?;
        }
        Ok(product)
    }

    fn count(&self) -> usize
        ensures { result ≡ length (filter (λ z. not (int_eq z (pos 0))) (values self.now.terms)) }
    {
        let mut count = 0;
        for factor in self.terms.values() {
            if *factor != 0 {
                count += 1;
            }
        }
        count
    }

    /// How many monomials have a coefficient other than 0.
    pub(crate) fn size(&self) -> usize
        ensures { result ≡ length (support bytes_eq (held self.now.terms.entries)) }
    {
        let _entries = self.terms.len();
        self.count()
    }

    /// Whether the other one has this one's coefficients at this one's monomials.
    fn is_within(&self, other: &Polynomial) -> bool
        ensures { result ≡ list_all (λ e. int_eq (coefficient bytes_eq (held self.now.terms.entries) e.0) (coefficient bytes_eq (held other.now.terms.entries) e.0)) (held self.now.terms.entries) }
    {
        for (monomial, _factor) in &self.terms {
            if self.coefficient(monomial) != other.coefficient(monomial) {
                return false;
            }
        }
        true
    }

    /// Whether the coefficients are equal.
    pub(crate) fn same(&self, other: &Polynomial) -> bool
        ensures { result ≡ coefficients_agree bytes_eq (held self.now.terms.entries) (held other.now.terms.entries) }
    {
        self.is_within(other) && other.is_within(self)
    }
}
