// Numbers: whole part, fraction, exponent. A number ends where it can't go on; what follows is its caller's.
ghost use Rattle.std.specs.Prelude.{◌≡◌, ◌≤◌, length};
ghost use Rattle.octets.specs.Class.{is_digit};
ghost use Rattle.json_text.specs.inner.Machine.{Leaf, Pass, Tail, after, exp, expo, is_sign, minus, point};

use crate::Fault;
use octets::{is_digit, past};

// The first byte from `at` on that is no digit, or the length.
fn past_digits(s: &[u8], at: usize) -> usize
    requires { at ≤ length s.now }
    ensures { Pass is_digit s.now at result }
{
    past(s, at, |b| is_digit(b))
}

#[tactic(auto, unfolding(crate::specs::inner::Machine::is_sign))]
fn is_sign(b: u8) -> bool
    ensures { result ≡ is_sign b }
{
    matches!(b, b'+' | b'-')
}

// An exponent, from behind its e.
fn power(s: &[u8], at: usize) -> Result<usize, Fault>
    requires { at ≤ length s.now }
    ensures { Leaf s.now at (λ _. exp) (λ _. after) result }
{
    if s.len() <= at {
        return Err(Fault::Bad(at));
    }
    let b = s[at];
    if is_digit(b) {
        return Ok(past_digits(s, at + 1));
    }
    if is_sign(b) {
        let j = at + 1;
        if s.len() <= j {
            return Err(Fault::Bad(j));
        }
        if is_digit(s[j]) {
            return Ok(past_digits(s, j + 1));
        }
        return Err(Fault::Bad(j));
    }
    Err(Fault::Bad(at))
}

// The end of a number, or its exponent.
fn exponent(s: &[u8], at: usize) -> Result<usize, Fault>
    requires { at ≤ length s.now }
    ensures { Tail s.now at expo result }
{
    if s.len() <= at {
        return Ok(at);
    }
    let b = s[at];
    if b == b'e' {
        return power(s, at + 1);
    }
    if b == b'E' {
        return power(s, at + 1);
    }
    Ok(at)
}

// The end of a number, or its fraction and its exponent.
fn fraction(s: &[u8], at: usize) -> Result<usize, Fault>
    requires { at ≤ length s.now }
    ensures { Tail s.now at point result }
{
    if s.len() <= at {
        return Ok(at);
    }
    if s[at] == b'.' {
        let j = at + 1;
        if s.len() <= j {
            return Err(Fault::Bad(j));
        }
        if is_digit(s[j]) {
            let e = past_digits(s, j + 1);
            return exponent(s, e);
        }
        return Err(Fault::Bad(j));
    }
    exponent(s, at)
}

// A number, its minus sign aside: a leading 0 stands alone.
pub fn unsigned(s: &[u8], at: usize) -> Result<usize, Fault>
    requires { at ≤ length s.now }
    ensures { Leaf s.now at (λ _. minus) (λ _. after) result }
{
    if s.len() <= at {
        return Err(Fault::Bad(at));
    }
    let b = s[at];
    if b == b'0' {
        return fraction(s, at + 1);
    }
    if is_digit(b) {
        let e = past_digits(s, at + 1);
        return fraction(s, e);
    }
    Err(Fault::Bad(at))
}
