//! Checks that the plans of transformations share, and the names of their conditions.
#![tactic(auto)]

mod checks;
mod conditions;
mod errors;
#[cfg(test)]
mod tests;

pub use checks::{first_order_definition, first_order_term};
pub use conditions::numbered;
pub use errors::PlanError;
