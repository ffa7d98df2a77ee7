// The lines of a piece of the input.
ghost use Rattle.std.specs.Prelude.{true, ◌≡◌, ◌+◌, ◌<◌, ◌≤◌, drop, length, take};
ghost use Rattle.keep.specs.Log.{line_done};
ghost use Rattle.lines.specs.inner.Running.{Works};
ghost use Rattle.octets.specs.Splice.{splice};
ghost use Rattle.table.specs.WellFormed.{well_formed};

use crate::answering::answer;
use lines::Next;

// How many bytes of an open line are kept, the place in the piece that was reached, and how many bytes of answers there are.
#[derive(Drop)]
pub struct Worked {
    pub len: usize,
    pub next: usize,
    pub end: usize,
}

// A line that is kept at the buffer's front.
pub fn answer_kept(table: &mut [u8], line: &[u8], n: usize, out: &mut [u8], at: usize) -> usize
    requires { (well_formed table.old ≡ true) × (at + 64 ≤ length out.old) × (n ≤ length line.now) }
    ensures { (result ≡ at + length (line_done table.old (take n line.now)).text)
        × (out.new ≡ splice out.old at (line_done table.old (take n line.now)).text)
        × (table.new ≡ (line_done table.old (take n line.now)).held)
        × (well_formed table.new ≡ true)
        × (result ≤ at + 64) }
{
    answer(table, &line[0..n], out, at)
}

// Answers the lines of a piece from a place on, where `len0` bytes of an open line are kept, up to its end or until the output
// buffer has no room for another answer.
pub fn work(
    table: &mut [u8],
    line: &mut [u8],
    len0: usize,
    s: &[u8],
    from0: usize,
    out: &mut [u8],
) -> Worked
    requires { (well_formed table.old ≡ true) × (32790 ≤ length line.old) × (len0 ≤ length line.old) × (64 ≤ length out.old) × (from0 < length s.now) }
    ensures { Works line_done (length line.old) table.old (take len0 line.old) (drop from0 s.now) table.new (take result.len line.new) (drop result.next s.now) (take result.end out.new)
        × (well_formed table.new ≡ true)
        × (result.end ≤ length out.old)
        × (result.len ≤ length line.old)
        × (from0 < result.next)
        × (result.next ≤ length s.now)
        × (result.next < length s.now → length out.old < result.end + 64) }
{
    let mut len = len0;
    let mut from = from0;
    let mut at: usize = 0;
    while 64 <= out.len() - at {
        match lines::next_line(line, len, s, from) {
            Next::Here(e) => {
                at = answer(table, &s[from..e], out, at);
                from = e + 1;
                len = 0;
            }
            Next::Buffered(n, next) => {
                at = answer_kept(table, line, n, out, at);
                from = next;
                len = 0;
            }
            Next::Pending(n) => {
                return Worked {
                    len: n,
                    next: s.len(),
                    end: at,
                };
            }
        }
    }
    Worked {
        len: len,
        next: from,
        end: at,
    }
}
