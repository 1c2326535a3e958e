//! The forms of events: their shapes.
#![tactic(auto)]

mod clauses;
mod constants;
mod declarations;
mod errors;
mod instances;
mod isomorphisms;
mod keys;
mod limits;
mod places;
mod representations;
mod second_order;
mod shapes;
mod transformations;

pub use clauses::{ClauseKind, clause, hint_clause};
pub use errors::EventError;
pub use instances::{InstanceParts, read_pairs};
pub use isomorphisms::IsoParts;
pub use keys::Keyed;
pub use limits::MAX_FORMALS;
pub use representations::{IsodataParts, read_maps};
pub use second_order::{SpecificationParts, VariableParts};
pub use shapes::{Event, FunctionParts, TheoremParts, read_event};
pub use transformations::{RestrictParts, undefined};
