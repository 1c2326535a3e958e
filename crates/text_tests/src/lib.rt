//! Tests of the public calls of the crates that read and print text: each once where there is memory.
#![tactic(auto)]

#[cfg(test)]
mod event_forms_calls;
#[cfg(test)]
mod hints_calls;
#[cfg(test)]
mod lisp_reader_calls;
#[cfg(test)]
mod proof_texts_calls;
#[cfg(test)]
mod term_forms_calls;
