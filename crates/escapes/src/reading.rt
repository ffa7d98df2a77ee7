// One escape (RFC 7159, section 7): the number that it spells, and how many bytes it is.
ghost use Rattle.std.specs.Prelude.{ℕ, ◌≡◌, ◌<◌, ◌≤◌, drop, length};
ghost use Rattle.escapes.specs.Rfc7159.{escape_of, is_high, is_low, is_surrogate, joined, nibble, none, short, unit};
ghost use Rattle.escapes.specs.inner.Reading.{Below};

// What an escape spells, and how many bytes it is.
#[derive(Drop)]
pub struct Escape {
    pub code: u32,
    pub took: usize,
}

// What the byte behind a backslash spells, if anything.
#[tactic(auto, unfolding(crate::specs::Rfc7159::short))]
fn short(b: u8) -> Option<u32>
    ensures { Below none result (short b) }
{
    match b {
        b'"' => Some(0x22),
        b'\\' => Some(0x5C),
        b'/' => Some(0x2F),
        b'b' => Some(0x08),
        b'f' => Some(0x0C),
        b'n' => Some(0x0A),
        b'r' => Some(0x0D),
        b't' => Some(0x09),
        _ => None,
    }
}

// The value of a hex digit.
#[tactic(auto, unfolding(crate::specs::Rfc7159::nibble, octets::specs::Class::is_digit, octets::specs::Class::among))]
fn nibble(b: u8) -> Option<u32>
    ensures { Below 16 result (nibble b) }
{
    match b {
        b'0'..=b'9' => Some((b - b'0') as u32),
        b'A'..=b'F' => Some((b - b'A' + 10) as u32),
        b'a'..=b'f' => Some((b - b'a' + 10) as u32),
        _ => None,
    }
}

// The code unit that \uXXXX at a place spells, if it stands there.
fn unit_at(s: &[u8], at: usize) -> Option<u32>
    requires { at ≤ length s.now }
    ensures { Below none result (unit (drop at s.now)) }
{
    if s.len() - at < 6 {
        return None;
    }
    if s[at] != b'\\' {
        return None;
    }
    if s[at + 1] != b'u' {
        return None;
    }
    let a = nibble(s[at + 2])?;
    let b = nibble(s[at + 3])?;
    let c = nibble(s[at + 4])?;
    let d = nibble(s[at + 5])?;
    Some(a * 4096 + b * 256 + c * 16 + d)
}

// The halves of a pair, the first and the second, and either.

#[tactic(auto, unfolding(crate::specs::Rfc7159::is_high, octets::specs::Class::among))]
fn is_high(u: u32) -> bool
    ensures { result ≡ is_high u }
{
    matches!(u, 0xD800..=0xDBFF)
}

#[tactic(auto, unfolding(crate::specs::Rfc7159::is_low, octets::specs::Class::among))]
fn is_low(u: u32) -> bool
    ensures { result ≡ is_low u }
{
    matches!(u, 0xDC00..=0xDFFF)
}

#[tactic(auto, unfolding(crate::specs::Rfc7159::is_surrogate, octets::specs::Class::among))]
pub fn is_surrogate(u: u32) -> bool
    ensures { result ≡ is_surrogate u }
{
    matches!(u, 0xD800..=0xDFFF)
}

// The unit u with the one behind it, if any: two halves are one number.
fn joined(u: u32, v: Option<u32>) -> Escape
    ensures { (n : ℕ) → Below none v n → result ≡ joined u n }
{
    if let Some(v) = v {
        if is_high(u) && is_low(v) {
            return Escape {
                code: 0x10000 + (u - 0xD800) * 1024 + (v - 0xDC00),
                took: 12,
            };
        }
    }
    Escape { code: u, took: 6 }
}

// The escape whose backslash stands at a place.
pub fn escape_at(s: &[u8], at: usize) -> Escape
    requires { at < length s.now }
    ensures { result ≡ escape_of (drop at s.now) }
{
    if s.len() - at < 2 {
        return Escape {
            code: 0x5C,
            took: 1,
        };
    }
    if let Some(code) = short(s[at + 1]) {
        return Escape { code, took: 2 };
    }
    if let Some(u) = unit_at(s, at) {
        return joined(u, unit_at(s, at + 6));
    }
    Escape {
        code: 0x5C,
        took: 1,
    }
}
