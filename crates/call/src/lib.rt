// The rule of one call (01 Events): its record or none, an event and the time, to an answer and what becomes of the record.
// Every function is proved equal to its line of specs/, on any numbers.
// No table and no text is in it: whoever keeps the records says which one an event names, and whether its parties agree.
#![tactic(auto)]

mod deciding;
mod events;
mod records;
mod requests;
mod responses;
mod ticks;

pub use deciding::decide;
pub use events::{Event, Method, Request, Response, Side};
pub use records::{After, Call, Highest, Outcome};
