//! Terms as shared trees, and the standard model: what terms mean, and which sequents hold in a world.
#![tactic(auto)]

mod definition;
mod entries;
mod laws;
mod path;
mod sequent;
mod signatures;
mod subst;
mod term;
#[cfg(test)]
mod tests;

pub use definition::Definition;
pub use entries::{FactName, FunPair, FunPairs, Iso, IsoUse, IsoUses, Link, Specification};
pub use laws::{
    definitions_stay_total, flat_definitions_stay_total, later_definitions, later_worlds_keep,
    sound_worlds_keep_initial, substitution, values_stay, worlds_grow,
};
pub use path::{Path, at_path, put_at};
pub use sequent::Sequent;
pub use signatures::Signatures;
pub use subst::{Subst, substitute, variables};
pub use term::{Node, Term, Terms};
