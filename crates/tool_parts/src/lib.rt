//! Parts of plans and proofs that transformations share: formulas, and the recursive calls of the old function.
#![tactic(auto)]

mod calls;
mod formulas;
mod proved;
#[cfg(test)]
mod tests;

pub use calls::{calls_of, owed_by};
pub use formulas::{alone, at_variables, followed};
pub use proved::all_hold;
