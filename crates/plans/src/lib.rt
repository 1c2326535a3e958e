//! Plans of events: what they add to a world, what has to be proved for it, and the world with what was added.
#![tactic(auto)]

mod claims;
mod entries;
mod laws;
mod plan;
mod proving;
#[cfg(test)]
mod tests;

pub use claims::{Claims, ProvedList};
pub use entries::{install, install_functions};
pub use laws::{entries_keep_sound, proved_conditions_hold};
pub use plan::{Condition, Conditions, Entries, Entry, Plan, Sequents};
pub use proving::proves;
