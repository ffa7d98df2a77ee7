// A message of TS-1022 as document 01 reads it (01 Reading): any bytes to the message's facts, or to a refusal with number and place.
// `read_and_count` is proved equal to document 01's rows 2 to 10 and document 02's 11, tried in their order, under any ceiling of JSON values, with the
// number of those visited; each field's rule sees the bytes of its own value alone.
// A caller may count on every place of a message that is read, and gets the texts that name its call here alone.
#![tactic(auto)]

mod checking;
mod disagreeing;
mod envelopes;
mod facts;
mod gathering;
mod parties;
mod placing;
mod reading;
mod refusals;
mod settings;
mod shapes;
mod walking;

pub use facts::Message;
pub use parties::{call_id, callee_address, callee_fire, caller_address, caller_fire, user};
pub use placing::places;
pub use reading::{AMPLE, Reading, Report, read, read_and_count};
pub use refusals::Refusal;
