// Where in a spelling an octet of its text stands.
ghost use Rattle.std.specs.Prelude.{◌≡◌};
ghost use Rattle.escapes.specs.Placing.{place_of};

use crate::measuring::width;
use crate::reading::escape_at;

// The place in raw of the letter that octet k of its text belongs to; raw's length where the text has no such octet.
pub fn place_of(raw: &[u8], k: usize) -> usize
    ensures { result ≡ place_of raw.now k }
{
    let mut i: usize = 0;
    let mut n = k;
    while i < raw.len() {
        if raw[i] == b'\\' {
            let e = escape_at(raw, i);
            let w = width(e.code);
            if n < w {
                return i;
            }
            n -= w;
            i += e.took;
        } else {
            if n == 0 {
                return i;
            }
            n -= 1;
            i += 1;
        }
    }
    i
}
