// The text of a JSON string (RFC 7159, section 7; 02 §2): its escapes decoded, into a lent buffer or while it is compared or measured; and where its
// letters are spelled (02 §12).
// Proved: every answer and every lent byte equals a definition of specs/, on any bytes.
// A caller may count on it: a string without a backslash is its own text, no text is longer than its spelling, and what good UTF-8 spells is good
// UTF-8 where it is not broken (proofs/PlainLaws.antt, LengthLaws.antt, Utf8Laws.antt).
#![tactic(auto)]

mod comparing;
mod decoding;
mod measuring;
mod placing;
mod reading;
mod storing;

pub use comparing::{is_escaped, spells};
pub use decoding::{Decoded, decode};
pub use measuring::{Measured, measure};
pub use placing::place_of;
