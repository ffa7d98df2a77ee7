// Whether a string is spelled with escapes, and whether it spells a given text: without a buffer.
ghost use Rattle.std.specs.Prelude.{cond, false, ◌≡◌, ◌+◌, ◌<◌, ◌≤◌, length};
ghost use Rattle.escapes.specs.Encoding.{encoded};
ghost use Rattle.escapes.specs.Rfc7159.{spells};
ghost use Rattle.escapes.specs.Text.{escaped};
ghost use Rattle.octets.specs.Text.{stands_at};

use crate::reading::{escape_at, is_surrogate};
use crate::storing::put_code;
use octets::{same, stands_at};

// Whether a backslash is among the bytes.
pub fn is_escaped(s: &[u8]) -> bool
    ensures { result ≡ escaped s.now }
{
    octets::find(s, 0, b'\\') < s.len()
}

// How many bytes the UTF-8 of a number is, where it stands at a place; else 0.
fn code_stands(s: &[u8], at: usize, c: u32) -> usize
    requires { c < 0x110000 }
    ensures { result ≡ cond (stands_at s.now at (encoded c)) (length (encoded c)) 0 }
{
    let mut w: [u8; 4] = [0; 4];
    let n = put_code(&mut w, 0, c);
    let t: &[u8] = &w;
    if stands_at(s, at, &t[0..n]) { n } else { 0 }
}

// Whether the text of the string whose bytes between the quotes are raw is w, without a buffer.
fn spells_slowly(raw: &[u8], w: &[u8]) -> bool
    ensures { result ≡ spells raw.now w.now }
{
    let mut i: usize = 0;
    let mut j: usize = 0;
    while i < raw.len() {
        let b = raw[i];
        if b == b'\\' {
            let e = escape_at(raw, i);
            if is_surrogate(e.code) {
                return false;
            }
            let n = code_stands(w, j, e.code);
            if n == 0 {
                return false;
            }
            i += e.took;
            j += n;
        } else {
            if w.len() <= j {
                return false;
            }
            if w[j] != b {
                return false;
            }
            i += 1;
            j += 1;
        }
    }
    j == w.len()
}

// Whether the text of the string whose bytes between the quotes are raw is w: without a backslash a comparison of bytes.
pub fn spells(raw: &[u8], w: &[u8]) -> bool
    ensures { result ≡ spells raw.now w.now }
{
    if is_escaped(raw) {
        return spells_slowly(raw, w);
    }
    same(raw, w)
}
