// How many letters of a text begin what a field's rule allows (02 §12): of a text that breaks the rule, the place of its bad letter.
// Proved: every answer equals a definition of specs/inner/, which is the bad letter's place in the words of specs/BadLetter.antt
// (proofs/Theorems.antt). Any bytes will do. It takes longer than to ask whether a text keeps its rule, which is asked first.
#![tactic(auto)]

mod pieces;
mod values;

pub use values::{address_reach, call_id_reach, date_reach, sequence_reach};
