// Runs of ASCII, passed 32 and eight bytes at a time.
ghost use Rattle.std.specs.Prelude.{true, ◌≡◌, ◌+◌, ◌≤◌, length};
ghost use Rattle.std.specs.Str.{IsAscii};
ghost use Rattle.utf8.specs.inner.Passed.{Passed};

use octets::past;

// Whether every byte of a run is ASCII. No early exit, so that a run of eight or 32 is judged by a few instructions on whole registers.
fn is_ascii(run: &[u8]) -> bool
    ensures { result ≡ true → IsAscii run.now }
{
    run.iter().fold(0, |bits, b| bits | *b) < 0x80
}

// Past as many runs of 32 as stand there.
fn past_32(s: &[u8], at: usize) -> usize
    requires { at ≤ length s.now }
    ensures { Passed s.now at result }
{
    let mut i = at;
    while 32 <= s.len() - i && is_ascii(&s[i..i + 32]) {
        i += 32;
    }
    i
}

// Past the ASCII from `at` on. 32 are tried only behind eight that were taken, so that a short run costs no such test. The place is
// counted, since a turn passes eight bytes and then as many runs of 32 as follow.
pub fn past_ascii(s: &[u8], at: usize) -> usize
    requires { at ≤ length s.now }
    ensures { Passed s.now at result }
{
    let mut i = at;
    while 8 <= s.len() - i && is_ascii(&s[i..i + 8]) {
        i = past_32(s, i + 8);
    }
    past(s, i, |b| b < 0x80)
}
