//! Why a definition has no recursive calls, no measure or no obligations.

use lisp_data::Memory;

/// Why there is no answer (docs/MODEL.md, "Recursive calls and obligations").
#[derive(Clone, Copy, Debug, PartialEq, Eq)]
pub enum MeasureError {
    /// An argument of a recursive call calls the function.
    Nested,
    /// No formal is changed by every recursive call.
    NoMeasure,
    Memory,
}

impl From<Memory> for MeasureError {
    ghost use Rattle.std.specs.Prelude.{◌≡◌};
    ghost use Rattle.measures.specs.declared.errors.MeasureError.TheVariants.{Memory as OutOfMemory};

    ghost from_gives = { λ _ e. e ≡ OutOfMemory };

    fn from(_error: Memory) -> MeasureError {
        MeasureError::Memory
    }
}
