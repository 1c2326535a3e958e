//! Laws of instances: what terms, sequents and definitions mean with functions in place of function variables.
#![tactic(auto)]

mod laws;

pub use laws::{
    instances_have_values, instances_hold, instances_owe, maps_are_part, maps_stay, records_stay,
    worlds_grow_by_instances,
};
