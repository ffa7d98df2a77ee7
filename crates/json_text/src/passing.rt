// Readers for a caller that walks an array or an object himself: a string, and a member, judged and passed in one walk over its bytes.
ghost use Rattle.std.specs.Prelude.{◌≡◌, ◌<◌, get_or, length};
ghost use Rattle.json_text.specs.inner.Passing.{is_next, passed, passed_member};

use crate::places::Member;
use crate::spaces::skip;
use crate::strings::string;
use crate::values::value;
use octets::byte;

// The place behind the string that opens at q, if one does.
pub fn pass_string(s: &[u8], q: usize) -> Option<usize>
    requires { (q < length s.now) × (get_or s.now q 0 ≡ 34) }
    ensures { result ≡ passed s.now q }
{
    string(s, q + 1).ok()
}

// A member judged and passed: where it stands, and how many values there is room for behind it.
#[derive(Clone, Copy)]
pub struct Visit {
    pub member: Member,
    pub room: usize,
}

// What may follow a member: a comma or the closing brace.
fn is_next(b: u8) -> bool
    ensures { result ≡ is_next b }
{
    matches!(b, b',' | b'}')
}

// The member whose name opens at q, with `left` levels left in its object and room for so many values, if it is one and followed as a
// member is.
pub fn pass_member(s: &[u8], q: usize, left: usize, room: usize) -> Option<Visit>
    requires { (q < length s.now) × (get_or s.now q 0 ≡ 34) }
    ensures { result ≡ passed_member left room s.now q }
{
    let e = string(s, q + 1).ok()?;
    let c = skip(s, e);
    if byte(s, c) != b':' {
        return None;
    }
    let v = skip(s, c + 1);
    let (w, more) = value(s, v, left, room).ok()?;
    let t = skip(s, w);
    if is_next(byte(s, t)) {
        return Some(Visit {
            member: Member {
                name: e,
                value: v,
                end: w,
                then: t,
            },
            room: more,
        });
    }
    None
}
