//! Comparison of terms as polynomials over the integers.
#![tactic(auto)]

mod atom;
mod atoms;
mod comparison;
mod errors;
mod expansion;
mod laws;
mod limits;
mod polynomial;
mod shape;

pub use comparison::same_polynomial;
pub use errors::RingError;
pub use laws::{own_monomials_decide, same_polynomials_are_equal};
pub use limits::{MAX_MONOMIALS, MAX_NORM};
pub use shape::is_arithmetic;
