// Lines out of an input that comes in pieces. A line that lies whole in a piece is shown where it lies; of one that does not,
// a lent buffer keeps as many of the first bytes as it has room for.
ghost use Rattle.std.specs.Prelude.{◌++◌, ◌≡◌, length, take};
ghost use Rattle.lines.specs.inner.Splitting.{buffer_after, first_bytes, next_line};
ghost use Rattle.octets.specs.Splice.{written};

use octets::{find, put};

#[derive(Drop)]
pub enum Next {
    // A whole line stands in the piece from where it was asked for; its line feed stands at this place.
    Here(usize),
    // A whole line stands at the buffer's front: so many bytes of it are kept, and the next line begins at this place.
    Buffered(usize, usize),
    // The piece is used up; so many bytes of a line without its line feed are kept.
    Pending(usize),
}

// Keeps a further part of the line whose first `len` bytes are kept, and answers how many are kept then.
fn keep_part(line: &mut [u8], len: usize, part: &[u8]) -> usize
    ensures { (result ≡ length (first_bytes line.old (take len line.old ++ part.now))) × (line.new ≡ written line.old (first_bytes line.old (take len line.old ++ part.now))) }
{
    if line.len() <= len {
        return line.len();
    }
    let room = line.len() - len;
    if part.len() <= room {
        put(line, len, part)
    } else {
        put(line, len, &part[0..room])
    }
}

// The next line of a piece, from a place of it on, where the buffer's first `len` bytes are what is kept of the line so far.
pub fn next_line(line: &mut [u8], len: usize, s: &[u8], from: usize) -> Next
    ensures { (result ≡ next_line line.old len s.now from) × (line.new ≡ buffer_after line.old len s.now from) }
{
    if s.len() <= from {
        return Next::Pending(keep_part(line, len, b""));
    }
    let e = find(s, from, b'\n');
    if s.len() <= e {
        return Next::Pending(keep_part(line, len, &s[from..]));
    }
    if len == 0 {
        return Next::Here(e);
    }
    Next::Buffered(keep_part(line, len, &s[from..e]), e + 1)
}
