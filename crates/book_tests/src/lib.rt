//! Runs of the whole command that the files of rows can't say: reads and writes that fail; and the calls of `events`, each once.
#![tactic(auto)]

#[cfg(test)]
mod events_calls;
#[cfg(test)]
mod faults;
