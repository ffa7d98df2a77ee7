// A text measured without a buffer: how many bytes and code points it has, and whether it is broken or has a line break.
ghost use Rattle.std.specs.Prelude.{eqb, false, [], ◌∷◌, ◌≡◌, ◌+◌, ◌<◌, ◌||◌, length};
ghost use Rattle.escapes.specs.Encoding.{encoded};
ghost use Rattle.escapes.specs.Rfc7159.{is_surrogate};
ghost use Rattle.escapes.specs.Text.{measure_of};
ghost use Rattle.escapes.specs.inner.Measuring.{added};
ghost use Rattle.rules.specs.Texts.{points};

use crate::reading::{escape_at, is_surrogate};
use octets::among;

// Bytes and code points of a text; whether a lone surrogate is in it; whether a line break, U+000A or U+000D, is.
#[derive(Default, Drop)]
pub struct Measured {
    pub length: usize,
    pub points: usize,
    pub broken: bool,
    pub breaks: bool,
}

// How many bytes the UTF-8 of a number is.
pub fn width(c: u32) -> usize
    ensures { result ≡ length (encoded c) }
{
    if c < 0x80 {
        return 1;
    }
    if c < 0x800 {
        return 2;
    }
    if c < 0x10000 {
        return 3;
    }
    4
}

// How many code points a byte begins: none where it goes on with one.
fn begun(b: u8) -> usize
    ensures { result ≡ points (b ∷ []) }
{
    if among(128, 191, b) { 0 } else { 1 }
}

// Whether a character is a line break, U+000A or U+000D.
fn is_break(c: u32) -> bool
    ensures { result ≡ (eqb c 10 || eqb c 13) }
{
    c == 10 || c == 13
}

// The measure m with a byte that stands for itself.
fn with_byte(m: Measured, b: u8) -> Measured
    requires { (m.length + 1 < 0x10000000000000000) × (m.points + 1 < 0x10000000000000000) }
    ensures { result ≡ added m (b ∷ []) false }
{
    Measured {
        length: m.length + 1,
        points: m.points + begun(b),
        breaks: m.breaks || is_break(b as u32),
        ..m
    }
}

// And with the number that an escape spells.
fn with_code(m: Measured, c: u32) -> Measured
    requires { (m.length + length (encoded c) < 0x10000000000000000) × (m.points + 1 < 0x10000000000000000) }
    ensures { result ≡ added m (encoded c) (is_surrogate c) }
{
    Measured {
        length: m.length + width(c),
        points: m.points + 1,
        broken: m.broken || is_surrogate(c),
        breaks: m.breaks || is_break(c),
    }
}

// The measure of the text that raw spells.
pub fn measure(raw: &[u8]) -> Measured
    ensures { result ≡ measure_of raw.now }
{
    let mut m = Measured::default();
    let mut i: usize = 0;
    while i < raw.len() {
        let b = raw[i];
        if b == b'\\' {
            let e = escape_at(raw, i);
            m = with_code(m, e.code);
            i += e.took;
        } else {
            m = with_byte(m, b);
            i += 1;
        }
    }
    m
}
