// Bytes: comparing, finding and copying them, their classes, and the numbers that they spell.
// Every contract is an equation with a definition of specs/ that decides the answer and each lent byte; that of `past` goes by the test that it is handed.
// Functions that read take any text, and but for `find`, `past` and `number_at` any place; those that write want room, and say so.
#![tactic(auto)]

mod classes;
mod copying;
mod decimals;
mod numbers;
mod texts;

pub use classes::{among, is_alnum, is_digit, is_digits, is_lower};
pub use copying::put;
pub use decimals::{decimal, put_decimal};
pub use numbers::{number_at, put_number, wide};
pub use texts::{byte, find, past, same, stands_at};
