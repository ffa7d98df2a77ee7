// The table image of document 01: a flat image that the caller lends, a header and 160 bytes a call.
// Proved: what is blank, well-formed, found and read equals a definition of specs/; a store replaces one record and no other byte.
// `blank` and `well_formed` take any bytes. Readers and writers of a record ask for a place below the table's size.
#![tactic(auto)]

mod blanking;
mod layout;
mod marks;
mod numbers;
mod records;
mod searching;
mod soundness;
mod texts;

pub use blanking::{Misfit, blank};
pub use numbers::Fields;
pub use records::{fields_at, open, release, same_parties, store};
pub use searching::{find, free_place};
pub use soundness::well_formed;
