// The caller's particulars (02 §4): the types of TS-1022 section 10 as tables, and the lowest fault of a value that has to be of one.
// Proved: every answer equals a definition of specs/ that is read from the same tables; all faults of a value are there at once, and the lowest place answers.
// Any bytes will do: the rules of the three fields ask nothing of them, and the other exports no more than where an object opens, or that a value's bytes end with it.
#![tactic(auto)]

mod fields;
mod gathering;
mod leaves;
mod lowest;
mod objects;
mod types;

pub use fields::{caller_fault, live_fault, locations_fault};
pub use gathering::values_of;
pub use leaves::{is_metres, provider_of};
pub use types::{Call, Kind};
