//! Derived rules of proofs, the congruence of bodies and induction on calls, and what they prove as laws.
#![tactic(auto)]

mod congruence;
mod derived;
mod hypotheses;
mod induction;
mod laws;

pub use congruence::{body_congruence, each_replaced};
pub use derived::{both, chained, first_of_both, gathered, scattered, second_of_both};
pub use hypotheses::{at_call, hypothesis, scheme};
pub use induction::induct_on_calls;
pub use laws::{
    among_proves, and_in_all_proves, and_in_proves, and_out_proves, body_congruence_proves,
    conditions_proved, cut_all_proves, equal_out_proves, ex_falso_proves, induct_on_calls_proves,
    symmetry_proves, transitivity_proves,
};
