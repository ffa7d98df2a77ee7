// The program's lines (01 Writing, the last paragraph): what a line says, the answer's line, and a splitter of input that comes
// in pieces. Each contract is an equation with a definition of specs/ on any bytes, and no function wants anything of its caller.
// A caller may count on the same lines wherever the input is cut, and on a line cut to 32,790 bytes saying what the whole says.
#![tactic(auto)]

mod answering;
mod reading;
mod splitting;

pub use answering::{NoRoom, write_answer, write_bad};
pub use reading::{Line, read};
pub use splitting::{Next, next_line};
