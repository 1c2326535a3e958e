//! The reduction of a condition: which step is next, what it leaves of a subgoal, and the whole run.
#![tactic(auto)]

mod finders;
mod found;
mod hyps;
mod kinds;
mod laws;
mod moves;
mod next;
mod openings;
mod paths;
mod polynomials;
mod rules;
mod run;
mod seek;
mod shapes;
mod steps;
mod values;

pub use found::{At, Found, Reason, Source};
pub use hyps::has;
pub use kinds::How;
pub use laws::{found_stands, leaves_are_stuck};
pub use moves::{Closing, Move, Remains, Subgoal, after, put_new, without};
pub use polynomials::side;
pub use rules::{Rule, Rules};
pub use run::{Made, Outcome, Task, reduce};
pub use shapes::{
    is_quoted_nil, is_true_quote, mentions, negation, of_one, of_three, of_two, quoted_nil,
};
pub use steps::occurs;
