//! The transformation `restrict`: a function restricted to arguments that meet a restriction, and the theorem that it is
//! the old function there (docs/TRANSFORMATIONS.md, "restrict").
#![tactic(auto)]

mod finishing;
mod formulas;
mod laws;
mod parts;
mod planning;
mod trees;

pub use finishing::finish;
pub use laws::{
    bodies_are_alike, calls_agree, restriction_owes, restrictions_are_lawful, unfolding_proves,
};
pub use planning::{Request, plan};
