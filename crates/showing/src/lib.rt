// What the probe shows of messages alone, by its commands `read`, `positions`, `reply`, `add`, `remove` and `text`; the words of its lines, and how numbers and
// bytes are shown. Each answer is put whole at the front of a lent buffer, and equals a definition of specs/ byte for byte.
// A caller lends room for the longest answer, and words no longer than a line; their bytes may be any.
#![tactic(auto)]

mod asking;
mod located;
mod readings;
mod shown;
mod words;
mod writers;

pub use asking::ask;
pub use shown::{put_hex, put_number, put_unknown};
pub use words::{first, has_space, is_hex_to, number, number_to, rest, take_bytes};
