//! Laws of ring comparison, each the contract of a function that does nothing.

ghost use Rattle.ring_laws.specs.Laws.{SameDecides, RingLaw};

/// Two terms are compared at every monomial where they are compared at their own.
pub fn own_monomials_decide()
    ensures { SameDecides }
{}

/// Arithmetic terms with the same coefficients are equal in each sound world.
pub fn same_polynomials_are_equal()
    ensures { RingLaw }
{}
