// What a line says: a time, and a message or a tick.
ghost use Rattle.std.specs.Prelude.{◌≡◌, take};
ghost use Rattle.lines.specs.Program.{line_of};
ghost use Rattle.octets.specs.Text.{before};

use octets::{decimal, find, stands_at};

#[derive(Drop)]
pub enum Line {
    // Without a 64-bit time of 1 to 20 digits and a space.
    Bad,
    // More than 32,768 bytes after the time's space; how many digits the time has.
    Long(usize),
    // The time's digits and its number; the Call-ID begins six bytes behind the digits.
    Tick(usize, u64),
    // The time's digits and its number; the message begins one byte behind the digits.
    Message(usize, u64),
}

// How many bytes stand before the first space, if at most 20 do; else 21, or all of a shorter line.
fn time_length(s: &[u8]) -> usize
    ensures { result ≡ before 32 (take 21 s.now) }
{
    if s.len() < 21 {
        find(s, 0, 32)
    } else {
        find(&s[0..21], 0, 32)
    }
}

// What a line without its line feed says; any bytes will do.
pub fn read(s: &[u8]) -> Line
    ensures { result ≡ line_of s.now }
{
    let n = time_length(s);
    if s.len() <= n {
        return Line::Bad;
    }
    let Some(time) = decimal(&s[0..n]) else {
        return Line::Bad;
    };
    if 32768 < s.len() - (n + 1) {
        return Line::Long(n);
    }
    if stands_at(s, n + 1, b"tick ") {
        Line::Tick(n, time)
    } else {
        Line::Message(n, time)
    }
}
