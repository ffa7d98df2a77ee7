// The pieces that the rules are made of, each read at a place of the text. Straight code over these
// needs no test of the text's length: past the end stands no piece.
ghost use Rattle.std.specs.Prelude.{cond, [], ◌∷◌, ◌≡◌, ◌+◌, ◌-◌, ◌≤◌, ◌<◌, drop, length};
ghost use Rattle.octets.specs.Class.{among};
ghost use Rattle.octets.specs.Text.{same, stands_at};
ghost use Rattle.rules.specs.Pieces.{digits, has_piece, number, reads, run, run_length, decimal_at, within};

use crate::classes::{Class, holds};
use octets::{byte, is_digit, past, same};

// Where the bytes of a class that stand from `at` on end.
pub fn run_end(s: &[u8], at: usize, class: Class) -> usize
    ensures { (result ≡ at + run_length class (drop at s.now)) × ((at ≤ result) × (result ≤ at + (length s.now - at))) }
{
    if s.len() < at {
        return at;
    }
    past(s, at, |b| holds(class, b))
}

// Whether lo to hi bytes stand from `at` to `end`, the first and the last of a class.
pub fn within(s: &[u8], at: usize, end: usize, lo: usize, hi: usize, edge: Class) -> bool
    requires { at ≤ end }
    ensures { result ≡ within lo hi edge s.now at end }
{
    let n = end - at;
    let first = byte(s, at);
    let last = byte(s, end.saturating_sub(1));
    lo <= n && n <= hi && holds(edge, first) && holds(edge, last)
}

// Whether a whole text is one run: lo to hi bytes of a class, the first and the last of another.
pub fn is_run(s: &[u8], lo: usize, hi: usize, class: Class, edge: Class) -> bool
    ensures { result ≡ reads (run lo hi class edge ∷ []) s.now 0 }
{
    let end = run_end(s, 0, class);
    within(s, 0, end, lo, hi, edge) && end == s.len()
}

// Whether the byte b stands at a place.
pub fn mark(s: &[u8], at: usize, b: u8) -> bool
    requires { 0 < b }
    ensures { result ≡ stands_at s.now at (b ∷ []) }
{
    byte(s, at) == b
}

// What a digit stands for. Other bytes are told apart by `has_digits`.
pub fn worth(b: u8) -> u64
    ensures { (result ≡ b - 48) × (result ≤ 207) }
{
    u64::from(b.saturating_sub(b'0'))
}

// Whether n digits stand from `at` on.
fn has_digits(s: &[u8], at: usize, n: usize) -> bool
    requires { (at ≤ 64) × (n ≤ 4) }
    ensures { result ≡ digits n s.now at }
{
    (0..n).all(|i| is_digit(byte(s, at + i)))
}

// The number that n digits from `at` on are.
pub fn number_at(s: &[u8], at: usize, n: usize) -> u64
    requires { (at ≤ 64) × (n ≤ 4) }
    ensures { result ≡ decimal_at n s.now at }
{
    let mut v: u64 = 0;
    for i in 0..n {
        v = v * 10 + worth(byte(s, at + i));
    }
    v
}

// Whether n digits stand from `at` on that are a number from lo to hi.
pub fn is_number(s: &[u8], at: usize, n: usize, lo: u64, hi: u64) -> bool
    requires { (at ≤ 64) × (n ≤ 4) }
    ensures { result ≡ has_piece (number n lo hi) s.now at }
{
    let v = number_at(s, at, n);
    has_digits(s, at, n) && lo <= v && v <= hi
}

// The number that the n bytes at the start are as digits; None where it is not from 1 to hi.
pub fn count(s: &[u8], n: usize, hi: u64) -> Option<u64>
    requires { (n ≤ length s.now) × (hi < 18446744073709551) }
    ensures { result ≡ cond (among 1 hi (decimal_at n s.now 0)) (Some (decimal_at n s.now 0)) None }
{
    let mut v: u64 = 0;
    for b in &s[..n] {
        v = v * 10 + worth(*b);
        if hi < v {
            return None;
        }
    }
    (0 < v).then_some(v)
}

// The number k where a text is the word w, else the number it has among other words: straight code over a list of words.
// A `match` on byte strings was tried in its place: each word's arm asks what each byte that can differ tells, and the check took nine minutes.
pub fn word_or(s: &[u8], w: &[u8], k: u8, others: u8) -> u8
    ensures { result ≡ cond (same s.now w.now) k others }
{
    if same(s, w) { k } else { others }
}
