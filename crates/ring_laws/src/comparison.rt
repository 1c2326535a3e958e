//! The comparison of two terms.

ghost use Rattle.std.specs.Prelude.{◌≡◌, ◌↔◌, true, IsTrue, IfOk};
ghost use Rattle.ring_laws.specs.Expressions.{is_arithmetic};
ghost use Rattle.ring_laws.specs.Polynomials.{SamePolynomial, same_polynomial};
ghost use Rattle.ring_laws.specs.Limits.{excess_of};
ghost use Rattle.ring_laws.specs.view.Expansions.{SaysLimit};

use crate::atoms::{Atoms, collect};
use crate::errors::RingError;
use crate::expansion::expand;
use std::alloc::Global;
use terms::Term;

/// Whether two arithmetic terms have the same coefficients, or the first limit that one of them passes.
#[tactic(auto, using(crate::proofs::Expansions::expansions))]
pub fn same_polynomial(alloc: Global, a: &Term, b: &Term) -> Result<bool, RingError>
    requires left { is_arithmetic a.now ≡ true }
    requires right { is_arithmetic b.now ≡ true }
    ensures value { IfOk result (λ same. same ≡ same_polynomial a.now b.now) }
    ensures same { IfOk result (λ same. IsTrue same ↔ SamePolynomial a.now b.now) }
    ensures limit { SaysLimit result (excess_of a.now b.now) }
{
    let mut atoms = Atoms::new(alloc);
    collect(a, &mut atoms)?;
    collect(b, &mut atoms)?;
    let p = expand(alloc, a, &atoms)?;
    let q = expand(alloc, b, &atoms)?;
    Ok(p.polynomial.same(&q.polynomial))
}
