//! The transformation `isodata`: a function on another representation of some of its arguments, and the theorems that lead
//! from the one to the other by isomorphisms (docs/TRANSFORMATIONS.md, "isodata").
#![tactic(auto)]

mod finishing;
mod formulas;
mod laws;
mod maps;
mod parts;
mod planning;
mod trees;

pub use finishing::finish;
pub use laws::{
    bodies_are_alike, calls_agree, isomorphic_owes, transfers_are_lawful, turning_proves,
    unfolding_proves,
};
pub use planning::{Request, plan};
