// One walk over a text of the usual shape, an array of a tag and an object (01 Reading, rows 4 to 7 and 11): it judges the JSON, counts its values and
// gathers the places and the ends of the known fields at once. Any other text is left to the plain reader and the rows by themselves.
ghost use Rattle.std.specs.Prelude.{MatchOption, false, ℕ, ◌≡◌, ◌<◌, get_or, length};
ghost use Rattle.message.specs.inner.Walk.{Begun, Listed, Usual, is_listed, is_usual};

use crate::gathering::{is_noted, note};
use crate::shapes::Shape;
use json_text::{part, pass_member, pass_string, skip};
use octets::byte;

// The text up to its object's brace.
fn begin(s: &[u8]) -> Option<Shape>
    ensures { MatchOption result ((c : ℕ) → is_usual c s.now ≡ false) (λ b. (0 < b.tag) × Begun s.now b.tag b.object) }
{
    let o = skip(s, 0);
    if byte(s, o) != b'[' {
        return None;
    }
    let x = skip(s, o + 1);
    if byte(s, x) != b'"' {
        return None;
    }
    let e = pass_string(s, x)?;
    let c = skip(s, e);
    if byte(s, c) != b',' {
        return None;
    }
    let y = skip(s, c + 1);
    if byte(s, y) != b'{' {
        return None;
    }
    let tag = fields::tag(part(s, x + 1, e - 1));
    if tag == 0 {
        return None;
    }
    Some(Shape { tag, object: y })
}

// The place behind the object; how many values there is room for behind it; and the places and the ends of the known fields' values, 0 where there is none.
#[derive(Drop)]
struct Fields {
    shut: usize,
    room: usize,
    at: [usize; 27],
    end: [usize; 27],
}

// The members of the object that opens at o, with room for so many values behind its brace.
fn walk_fields(s: &[u8], o: usize, room: usize) -> Option<Fields>
    requires { (o < length s.now) × (get_or s.now o 0 ≡ 123) }
    ensures { MatchOption result (is_listed s.now o room ≡ false) (λ f. Listed s.now o room f.shut f.room f.at f.end) }
{
    let mut at = [0usize; 27];
    let mut ends = [0usize; 27];
    let mut p = o + 1;
    let mut spare = room;
    if byte(s, skip(s, p)) != b'"' {
        return None;
    }
    for _ in 0..s.len() {
        let q = skip(s, p);
        if byte(s, q) != b'"' {
            return None;
        }
        let v = pass_member(s, q, 6, spare)?;
        let m = v.member;
        let name = m.name;
        let then = m.then;
        let k = fields::field(part(s, q + 1, name - 1));
        if is_noted(&at, k) {
            return None;
        }
        note(&mut at, k, m.value);
        note(&mut ends, k, m.end);
        spare = v.room;
        let b = byte(s, then);
        if b == b'}' {
            return Some(Fields {
                shut: then + 1,
                room: spare,
                at,
                end: ends,
            });
        }
        if b != b',' {
            return None;
        }
        p = then + 1;
    }
    None
}

// The tag; how many values there is room for behind the text; and the places and the ends of the known fields' values, 0 where there is none.
#[derive(Drop)]
pub struct Walk {
    pub tag: u8,
    pub room: usize,
    pub at: [usize; 27],
    pub end: [usize; 27],
}

// The whole text, if it has the usual shape, with room for so many values: the array, its tag and its object are three.
pub fn walk_text(s: &[u8], ceiling: usize) -> Option<Walk>
    ensures { MatchOption result (is_usual ceiling s.now ≡ false) (λ w. Usual ceiling s.now w.tag w.room w.at w.end) }
{
    if ceiling < 3 {
        return None;
    }
    let b = begin(s)?;
    let f = walk_fields(s, b.object, ceiling - 3)?;
    let z = skip(s, f.shut);
    if byte(s, z) != b']' {
        return None;
    }
    if skip(s, z + 1) < s.len() {
        return None;
    }
    let at = f.at;
    let end = f.end;
    Some(Walk {
        tag: b.tag,
        room: f.room,
        at,
        end,
    })
}
