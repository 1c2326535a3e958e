//! Laws of atoms.

ghost use Rattle.std.specs.Prelude.{◌≡◌, ◌++◌, List, ℕ, true};
ghost use Rattle.lisp_data.specs.Numbers.{is_number, begins_number};

/// A text that goes on to a number, by whatever bytes, is one with a zero after it (docs/SYNTAX.md).
#[tactic(auto, using(crate::proofs::NumberForms::numbers))]
pub fn numbers_begin()
    ensures { (r t : List ℕ) → is_number (r ++ t) ≡ true → begins_number r ≡ true }
{}
