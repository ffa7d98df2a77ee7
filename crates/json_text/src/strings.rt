// Strings. Bytes that stand for themselves are passed in runs of 32.
ghost use Rattle.std.specs.Prelude.{◌≡◌, ◌+◌, ◌≤◌, length};
ghost use Rattle.json_text.specs.inner.Machine.{Leaf, Pass, closed, esc, hexes, is_esc, is_hex_digit, is_plain, str};
ghost use Rattle.json_text.specs.inner.Runs.{Run, least, rank};

use crate::Fault;
use octets::{among, is_digit, past};

#[tactic(auto, unfolding(crate::specs::inner::Machine::is_hex_digit))]
fn is_hex_digit(b: u8) -> bool
    ensures { result ≡ is_hex_digit b }
{
    is_digit(b) || among(b'A', b'F', b) || among(b'a', b'f', b)
}

// What may follow a backslash, u aside.
#[tactic(auto, unfolding(crate::specs::inner::Machine::is_esc))]
fn is_escaped(b: u8) -> bool
    ensures { result ≡ is_esc b }
{
    matches!(b, b'"' | b'\\' | b'/' | b'b' | b'f' | b'n' | b'r' | b't')
}

// Four hex digits.
fn four_hex(s: &[u8], at: usize) -> Result<usize, Fault>
    requires { at ≤ length s.now }
    ensures { Leaf s.now at (λ w. hexes w 4) str result }
{
    for n in 0..4 {
        let i = at + n;
        if s.len() <= i {
            return Err(Fault::Bad(i));
        }
        if !is_hex_digit(s[i]) {
            return Err(Fault::Bad(i));
        }
    }
    Ok(at + 4)
}

// What follows a backslash.
fn escaped(s: &[u8], at: usize) -> Result<usize, Fault>
    requires { at ≤ length s.now }
    ensures { Leaf s.now at esc str result }
{
    if s.len() <= at {
        return Err(Fault::Bad(at));
    }
    let b = s[at];
    if is_escaped(b) {
        return Ok(at + 1);
    }
    if b == b'u' {
        return four_hex(s, at + 1);
    }
    Err(Fault::Bad(at))
}

// Whether b stands for itself in a string.
#[tactic(auto, unfolding(crate::specs::inner::Machine::is_plain))]
fn is_plain(b: u8) -> bool
    ensures { result ≡ is_plain b }
{
    (b != b'"') & (b != b'\\') & (32 <= b)
}

// 32 where b stands for itself, else k.
fn rank_of(b: u8, k: u8) -> u8
    ensures { result ≡ rank b k }
{
    if is_plain(b) { 32 } else { k }
}

fn least_of(a: u8, b: u8) -> u8
    ensures { result ≡ least a b }
{
    if b < a { b } else { a }
}

// How many of the 32 bytes from `at` on stand for themselves before the first that does not. No early
// exit, so that it is made of a few instructions on whole registers.
pub fn plain_of_32(s: &[u8], at: usize) -> u8
    requires { at + 32 ≤ length s.now }
    ensures { Run s.now at 32 result }
{
    let mut m: u8 = 32;
    for k in 0..32 {
        m = least_of(m, rank_of(s[at + k], k as u8));
    }
    m
}

// The first byte from `at` on that does not stand for itself, or the length. The place is counted, since the last run may pass fewer
// than 32.
fn past_plain(s: &[u8], at: usize) -> usize
    requires { at ≤ length s.now }
    ensures { Pass is_plain s.now at result }
{
    let mut i = at;
    while 32 <= s.len() - i {
        let n = plain_of_32(s, i) as usize;
        i += n;
        if n < 32 {
            return i;
        }
    }
    past(s, i, |b| is_plain(b))
}

// A string, from behind its opening quote.
pub fn string(s: &[u8], at: usize) -> Result<usize, Fault>
    requires { at ≤ length s.now }
    ensures { Leaf s.now at str closed result }
{
    let mut i = at;
    loop {
        let j = past_plain(s, i);
        if s.len() <= j {
            return Err(Fault::Bad(j));
        }
        let b = s[j];
        if b == b'"' {
            return Ok(j + 1);
        }
        if b != b'\\' {
            return Err(Fault::Bad(j));
        }
        i = escaped(s, j + 1)?;
    }
}
