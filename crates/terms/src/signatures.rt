//! What functions there are.

ghost use Rattle.std.specs.Prelude.{◌≡◌, ℕ, List, Option};

use lisp_data::Symbol;

/// What functions there are.
pub trait Signatures {
    /// How many arguments each function takes.
    ghost arity_of: { Self → List ℕ → Option ℕ };

    /// How many arguments the function of this name takes, if there is one.
    fn arity(&self, name: &Symbol) -> Option<usize>
        ensures { result ≡ arity_of self.now name.now };
}
