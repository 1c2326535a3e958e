//! Function variables: on which ones terms and functions depend, and terms and functions with functions in place of
//! them.
#![tactic(auto)]

mod errors;
mod instances;
mod laws;
mod map;
mod pairs;
mod walk;

pub use errors::SoftError;
pub use instances::{dependent_pairs, instance_map, instantiate_function};
pub use laws::{calls_are_called, maps_give_instances, pairs_fit};
pub use map::{NameMap, instantiate_term};
pub use walk::{variables_in, variables_of};
