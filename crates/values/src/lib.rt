// A value by its own bytes: what kind it is, how a string is spelled, where that spelling stands, and what is told of the text that it spells.
// Proved: every answer equals a definition of specs/, on any bytes.
// A caller may count on it: a value's own bytes end with it, and a text that keeps a rule may be asked as it is spelled (proofs/SpellingLaws.antt, SpelledLaws.antt).
#![tactic(auto)]

mod spans;
mod texts;
mod values;

pub use spans::{Span, part_at, spelling_span};
pub use texts::of_text;
pub use values::{
    is_array, is_object, is_string, own_spelling, spelling_at, spelling_of, value_at,
};
