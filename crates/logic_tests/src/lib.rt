//! Tests of the public calls of the crates that say what is true: each once where there is memory.
#![tactic(auto)]

#[cfg(test)]
mod hint_prover_calls;
#[cfg(test)]
mod kernel_calls;
#[cfg(test)]
mod reduction_calls;
#[cfg(test)]
mod ring_laws_calls;
#[cfg(test)]
mod soft_vars_calls;
#[cfg(test)]
mod worlds_calls;
