// One sequence of RFC 3629's section 4: how many bytes the character at a place takes, if one stands there.
ghost use Rattle.std.specs.Prelude.{[], ◌∷◌, ◌≡◌, ◌+◌, ◌<◌, ◌≤◌, drop, get_or, length};
ghost use Rattle.octets.specs.Class.{among};
ghost use Rattle.utf8.specs.Rfc3629.{◌to◌, begins, char_at, char_of, counted, goes_on, tail};
ghost use Rattle.utf8.specs.inner.Sized.{sized};

use octets::{among, byte};

// Whether the byte at i is there and in a range, which begins above 0.
fn next(s: &[u8], i: usize, lo: u8, hi: u8) -> bool
    ensures { result ≡ among lo hi (get_or s.now i 0) }
{
    among(lo, hi, byte(s, i))
}

// UTF8-2, from its first byte.
fn two(s: &[u8], at: usize) -> Option<usize>
    requires { at < length s.now }
    ensures { result ≡ sized (counted (goes_on (tail ∷ []) (drop (at + 1) s.now)) 2) }
{
    next(s, at + 1, 0x80, 0xBF).then_some(2)
}

// A row of UTF8-3, by the range of its second byte.
fn three(s: &[u8], at: usize, lo: u8, hi: u8) -> Option<usize>
    requires { (at < length s.now) × (0 < lo) }
    ensures { result ≡ sized (counted (goes_on ((lo to hi) ∷ tail ∷ []) (drop (at + 1) s.now)) 3) }
{
    if !next(s, at + 1, lo, hi) {
        return None;
    }
    next(s, at + 2, 0x80, 0xBF).then_some(3)
}

// A row of UTF8-4, by the range of its second byte.
fn four(s: &[u8], at: usize, lo: u8, hi: u8) -> Option<usize>
    requires { (at < length s.now) × (0 < lo) }
    ensures { result ≡ sized (counted (goes_on ((lo to hi) ∷ tail ∷ tail ∷ []) (drop (at + 1) s.now)) 4) }
{
    if !next(s, at + 1, lo, hi) {
        return None;
    }
    if !next(s, at + 2, 0x80, 0xBF) {
        return None;
    }
    next(s, at + 3, 0x80, 0xBF).then_some(4)
}

// The rows of UTF8-4, for a first byte b from F0 on.
fn long(s: &[u8], at: usize, b: u8) -> Option<usize>
    requires { (at < length s.now) × (0xF0 ≤ b) }
    ensures { result ≡ sized (char_of (begins b) (drop (at + 1) s.now)) }
{
    if b == 0xF0 {
        return four(s, at, 0x90, 0xBF);
    }
    if b < 0xF4 {
        return four(s, at, 0x80, 0xBF);
    }
    if b == 0xF4 {
        return four(s, at, 0x80, 0x8F);
    }
    None
}

// How many bytes the character at `at` takes, if one stands there.
pub fn sequence(s: &[u8], at: usize) -> Option<usize>
    requires { at < length s.now }
    ensures { result ≡ sized (char_at (drop at s.now)) }
{
    let b = s[at];
    if b < 0x80 {
        return Some(1);
    }
    if b < 0xC2 {
        return None;
    }
    if b < 0xE0 {
        return two(s, at);
    }
    if b == 0xE0 {
        return three(s, at, 0xA0, 0xBF);
    }
    if b == 0xED {
        return three(s, at, 0x80, 0x9F);
    }
    if b < 0xF0 {
        return three(s, at, 0x80, 0xBF);
    }
    long(s, at, b)
}
