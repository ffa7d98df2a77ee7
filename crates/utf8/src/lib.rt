// UTF-8 as RFC 3629 has it: a text is good, or its first bad sequence begins at a place.
// `check` is proved to answer the RFC's own syntax on any bytes.
// A caller may count on joined texts: what is good by itself is good behind what is good (proofs/Join.antt).
#![tactic(auto)]

mod ascii;
mod sequences;
mod threes;

ghost use Rattle.std.specs.Prelude.{◌≡◌, ◌≤◌, length};
ghost use Rattle.utf8.specs.Rfc3629.{verdict};
ghost use Rattle.utf8.specs.inner.Passed.{Passed};

use ascii::past_ascii;
use sequences::sequence;
use threes::past_threes;

// Past the characters that mostly follow one of n bytes: behind ASCII more of it, then three-byte ones; behind three bytes more of these.
fn past_alike(s: &[u8], at: usize, n: usize) -> usize
    requires { at ≤ length s.now }
    ensures { Passed s.now at result }
{
    match n {
        1 => past_threes(s, past_ascii(s, at)),
        3 => past_threes(s, at),
        _ => at,
    }
}

// Whether a text is good; the error is the place where its first bad sequence begins. The place is counted, since a turn passes a
// character and all that are like it.
pub fn check(s: &[u8]) -> Result<(), usize>
    ensures { result ≡ verdict s.now }
{
    let mut i: usize = 0;
    while i < s.len() {
        let Some(n) = sequence(s, i) else {
            return Err(i);
        };
        i = past_alike(s, i + n, n);
    }
    Ok(())
}
