//! Why two terms can't be compared.

use lists::Memory;

/// Why two terms can't be compared.
#[derive(Clone, Copy, Debug, PartialEq, Eq)]
pub enum RingError {
    /// A norm is over 2^127 - 1.
    TooWide,
    /// More monomials than `MAX_MONOMIALS` have a coefficient other than 0.
    TooLarge,
    Memory,
}

impl From<Memory> for RingError {
    ghost use Rattle.std.specs.Prelude.{◌≡◌};
    ghost use Rattle.ring_laws.specs.declared.errors.RingError.TheVariants.{Memory as OutOfMemory};

    ghost from_gives = { λ _ e. e ≡ OutOfMemory };

    fn from(_error: Memory) -> RingError {
        RingError::Memory
    }
}
