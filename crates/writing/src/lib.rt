// Writing (document 01): the reply to a request, our Via entry added to a request or taken off a response, the next host,
// and the text of a part of a message.
// Proved: answer and output are what specs/ says, byte for byte; what is written is read back; taking our entry off undoes adding it.
// A caller may hand over any bytes and any room: on a refusal the output is as it was, and bytes past the result always stay.
#![tactic(auto)]

mod answers;
mod edits;
mod objects;
mod paths;
mod putting;
mod replies;
mod texts;

pub use answers::{Refusal, Taken};
pub use edits::{add, next_hop, remove};
pub use paths::Path;
pub use replies::reply;
pub use texts::text;
