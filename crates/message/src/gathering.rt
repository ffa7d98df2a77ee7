// Gathering the fields of the message's object in one walk over its members (01 Reading, rows 7 and 8).
ghost use Rattle.std.specs.Prelude.{◌&&◌, cond, ◌≡◌, ◌<◌, eqb, ltb, get_or, length, set};
ghost use Rattle.message.specs.inner.Shaping.{gathered};

use crate::refusals::Refusal;
use json_text::{member_at, part, skip};
use octets::byte;

// Whether number k has a place already.
pub fn is_noted(at: &[usize; 27], k: usize) -> bool
    requires { k < 27 }
    ensures { result ≡ (ltb 0 k && ltb 0 (get_or at.now k 0)) }
{
    0 < k && 0 < at[k]
}

// Puts v at number k; 0 is no number.
pub fn note(at: &mut [usize; 27], k: usize, v: usize)
    requires { k < 27 }
    ensures { at.new ≡ cond (eqb k 0) at.old (set at.old k v) }
{
    if k != 0 {
        at[k] = v;
    }
}

// The place of each field of the object that opens at o, 0 where there is none; a known name that stands twice refuses, at its second opening quote.
pub fn gather(s: &[u8], o: usize) -> Result<[usize; 27], Refusal>
    requires { o < length s.now }
    ensures { result ≡ gathered s.now o }
{
    let mut at = [0usize; 27];
    let mut p = o + 1;
    for _ in 0..s.len() {
        let q = skip(s, p);
        if byte(s, q) != b'"' {
            return Ok(at);
        }
        let m = member_at(s, q);
        let name = m.name;
        let k = fields::field(part(s, q + 1, name - 1));
        if is_noted(&at, k) {
            return Err(Refusal::Twice(q));
        }
        note(&mut at, k, m.value);
        let then = m.then;
        if byte(s, then) != b',' {
            return Ok(at);
        }
        p = then + 1;
    }
    Ok(at)
}
