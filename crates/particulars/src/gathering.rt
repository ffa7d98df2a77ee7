// One walk over the members of an object: of each name of its type the place of the first value and where it ends, and the lowest repeat.
ghost use Rattle.std.specs.Prelude.{◌&&◌, ◌≡◌, ◌<◌, cond, length, ltb, set, None, Some};
ghost use Rattle.particulars.specs.Lowest.{lower};
ghost use Rattle.particulars.specs.Members.{values_of};
ghost use Rattle.particulars.specs.Types.{names_of};
ghost use Rattle.particulars.specs.inner.Gathering.{Gathered, is_noted};
ghost use Rattle.rules.specs.Pieces.{word_number};
ghost use Rattle.values.specs.Value.{word_spelled};

use crate::lowest::lower;
use crate::types::{Kind, entries};
use escapes::is_escaped;
use json_text::{Member, member_at, part, skip};
use octets::{byte, same};
use values::of_text;

// By number the place of each first value, 0 where there is none, and where it ends; and the opening quote of the lowest repeat.
#[derive(Drop)]
pub struct Found {
    pub again: Option<usize>,
    pub at: [usize; 9],
    pub end: [usize; 9],
}

// The number of a name in a type, 0 for any other text.
fn number_of(t: Kind, x: &[u8]) -> usize
    ensures { (result ≡ word_number (names_of t) x.now) × (result < 9) }
{
    let es = entries(t);
    for k in 0..es.len() {
        if same(x, es[k].name) {
            return k + 1;
        }
    }
    0
}

// The number of the name that w spells. Unknown names are common: one without a backslash is not tried twice.
fn number_spelled(t: Kind, w: &[u8]) -> usize
    ensures { (result ≡ word_spelled (names_of t) w.now) × (result < 9) }
{
    match number_of(t, w) {
        0 if is_escaped(w) => of_text(w, |x| number_of(t, x)),
        k => k,
    }
}

// Notes the member whose name opens at q, under its name's number k, if it is the first of its name; of a name that the type has any other is a repeat.
fn note(f: &mut Found, k: usize, q: usize, m: Member)
    requires { k < 9 }
    ensures again { f.new.again ≡ lower f.old.again (cond (ltb 0 k && is_noted f.old.at k) (Some q) None) }
    ensures at { f.new.at ≡ cond (is_noted f.old.at k) f.old.at (set f.old.at k m.value) }
    ensures end { f.new.end ≡ cond (is_noted f.old.at k) f.old.end (set f.old.end k m.end) }
{
    if f.at[k] == 0 {
        f.at[k] = m.value;
        f.end[k] = m.end;
    } else if 0 < k {
        f.again = lower(f.again, Some(q));
    }
}

// The members of the object of type t that opens at o.
pub fn gather(s: &[u8], o: usize, t: Kind) -> Found
    requires { o < length s.now }
    ensures { Gathered t s.now o result.again result.at result.end }
{
    let mut f = Found {
        again: None,
        at: [0; 9],
        end: [0; 9],
    };
    let mut p = o + 1;
    for _ in 0..s.len() {
        let q = skip(s, p);
        if byte(s, q) != b'"' {
            return f;
        }
        let m = member_at(s, q);
        let name = m.name;
        let k = number_spelled(t, part(s, q + 1, name - 1));
        note(&mut f, k, q, m);
        let then = m.then;
        if byte(s, then) != b',' {
            return f;
        }
        p = then + 1;
    }
    f
}

// The places of the first values alone.
pub fn values_of(s: &[u8], o: usize, t: Kind) -> [usize; 9]
    requires { o < length s.now }
    ensures { result ≡ values_of t s.now o }
{
    gather(s, o, t).at
}
