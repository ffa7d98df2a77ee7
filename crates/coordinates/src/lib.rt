// Coordinates (02 §4): a JSON number's own bytes to whole millionths of a degree.
// Proved: the answer equals a definition of specs/, which gives a number exactly where one is written so, digit by digit (proofs/Written.antt).
// Any bytes and any bound will do; what breaks the rule is None.
#![tactic(auto)]

ghost use Rattle.std.specs.Prelude.{MatchOption, cond, ◌≡◌, ◌-◌, ◌≤◌, ◌<◌, ◌^◌, get_or, length};
ghost use Rattle.octets.specs.Decimal.{tens};
ghost use Rattle.coordinates.specs.Coordinate.{coordinate_of, is_spelled, millionths_of, to_six, unsigned};

use octets::{byte, decimal, find, is_digits, wide};

// What the digit at i is worth. Past the end `byte` is 0, which is worth as little as the digit 0.
fn worth(f: &[u8], i: usize) -> u64
    ensures { (result ≡ get_or f.now i 0 - 48) × (result ≤ 207) }
{
    wide(byte(f, i).saturating_sub(b'0'))
}

// The number that is written in `whole`'s digits and behind them in f's, with zeros to six.
fn with_decimals(whole: u64, f: &[u8]) -> u64
    requires { whole < 1000 }
    ensures is { length f.now ≤ 6 → result ≡ tens whole (to_six f.now) }
    ensures small { result < 2 ^ 31 }
{
    whole * 1_000_000
        + worth(f, 0) * 100_000
        + worth(f, 1) * 10_000
        + worth(f, 2) * 1_000
        + worth(f, 3) * 100
        + worth(f, 4) * 10
        + worth(f, 5)
}

// The millionths of a number without a minus; None where it is not spelled as a coordinate is.
fn millionths(b: &[u8]) -> Option<u64>
    ensures is { result ≡ cond (is_spelled b.now) (Some (millionths_of b.now)) None }
    ensures small { MatchOption result Unit (λ m. m < 2 ^ 31) }
{
    let point = find(b, 0, b'.');
    if 3 < point {
        return None;
    }
    let whole = decimal(&b[..point])?;
    let decimals = &b[(point + 1).min(b.len())..];
    if point < b.len() && !is_digits(decimals, 1, 6) {
        return None;
    }
    Some(with_decimals(whole, decimals))
}

// A number without its minus.
fn unsigned(v: &[u8]) -> &[u8]
    ensures { result.now ≡ unsigned v.now }
{
    if byte(v, 0) == b'-' { &v[1..] } else { v }
}

// The coordinate that a number is, within so many degrees; None where it is none.
pub fn coordinate_of(v: &[u8], degrees: u32) -> Option<i32>
    ensures { result ≡ coordinate_of degrees v.now }
{
    let m = millionths(unsigned(v))?;
    if u64::from(degrees) * 1_000_000 < m {
        return None;
    }
    let m = m as i32;
    Some(if byte(v, 0) == b'-' { -m } else { m })
}
