// The positions of an accepted message (02 §4): of each of Locations in order, of a Live-Location, and the home.
// Proved: every answer equals a definition of specs/.
// A caller may hand over any bytes: `accept` reads them as a message, and the positions are asked of what it accepts.
#![tactic(auto)]

mod messages;
mod objects;

pub use messages::{Accepted, accept, count, home, position};
pub use objects::{Home, Position};
