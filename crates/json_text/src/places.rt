// Where things stand in a text: values, members, elements. Any bytes and any place will
// do, so nobody has to know that a text is JSON to walk it; a walk passes each byte once.
ghost use Rattle.std.specs.Prelude.{◌≡◌, ◌+◌, ◌≤◌, ◌<◌, drop, length};
ghost use Rattle.json_text.specs.Places.{behind, bytes, closing, is_mark, is_open, is_shut, left, next, outside, part, past, quoted, raw, unmarked};
ghost use Rattle.json_text.specs.inner.Landing.{Cell, Lands, Row};

use crate::spaces::{is_space, skip};
use crate::strings::plain_of_32;
use octets::past;

// A bracket that opens.
#[tactic(auto, unfolding(crate::specs::Places::is_open))]
fn is_open(b: u8) -> bool
    ensures { result ≡ is_open b }
{
    matches!(b, b'[' | b'{')
}

// A bracket that closes.
#[tactic(auto, unfolding(crate::specs::Places::is_shut))]
fn is_shut(b: u8) -> bool
    ensures { result ≡ is_shut b }
{
    matches!(b, b']' | b'}')
}

// What ends a number or a literal.
#[tactic(auto, unfolding(crate::specs::Places::is_mark))]
fn is_mark(b: u8) -> bool
    ensures { result ≡ is_mark b }
{
    is_space(b) || b == b',' || is_shut(b)
}

// Behind the string of which a is the first byte after its opening quote, or any later one that stands
// outside an escape: byte by byte. The place is counted here and in the two loops below, since a turn
// passes one byte, two, a run or a string.
fn string_tail(s: &[u8], a: usize) -> usize
    requires { a ≤ length s.now }
    ensures { (result ≡ a + left (drop a s.now) quoted 0) × (a ≤ result) × (result ≤ length s.now) }
{
    let mut i = a;
    while i < s.len() {
        let b = s[i];
        if b == b'"' {
            return i + 1;
        }
        if b == b'\\' {
            if s.len() - i < 2 {
                return s.len();
            }
            i += 2;
        } else {
            i += 1;
        }
    }
    i
}

// The same, with bytes that stand for themselves passed in runs of 32 while there are so many.
fn string_end(s: &[u8], a: usize) -> usize
    requires { a ≤ length s.now }
    ensures { (result ≡ a + left (drop a s.now) quoted 0) × (a ≤ result) × (result ≤ length s.now) }
{
    let mut i = a;
    while 32 <= s.len() - i {
        let n = plain_of_32(s, i) as usize;
        let j = i + n;
        if 32 <= n {
            i = j;
        } else {
            let b = s[j];
            if b == b'"' {
                return j + 1;
            }
            if b == b'\\' {
                if s.len() - j < 2 {
                    return s.len();
                }
                i = j + 2;
            } else {
                i = j + 1;
            }
        }
    }
    string_tail(s, i)
}

// Behind the array or the object of which a is the first byte after its opening bracket. Brackets in
// strings do not count.
fn nest_end(s: &[u8], a: usize) -> usize
    requires { (0 < a) × (a ≤ length s.now) }
    ensures { (result ≡ a + left (drop a s.now) outside 1) × (a ≤ result) × (result ≤ length s.now) }
{
    let mut i = a;
    let mut n: usize = 1;
    while i < s.len() {
        let b = s[i];
        if b == b'"' {
            i = string_end(s, i + 1);
        } else if is_open(b) {
            n += 1;
            i += 1;
        } else if is_shut(b) {
            if n == 1 {
                return i + 1;
            }
            n -= 1;
            i += 1;
        } else {
            i += 1;
        }
    }
    i
}

// Behind the number or the literal at a.
fn plain_end(s: &[u8], a: usize) -> usize
    requires { a ≤ length s.now }
    ensures { (result ≡ a + unmarked (drop a s.now)) × (a ≤ result) × (result ≤ length s.now) }
{
    past(s, a, |b| !is_mark(b))
}

// Behind the value that begins at a.
fn behind(s: &[u8], a: usize) -> usize
    ensures { Lands s.now a (behind s.now a) result }
{
    if s.len() <= a {
        return a;
    }
    let b = s[a];
    if b == b'"' {
        return string_end(s, a + 1);
    }
    if is_open(b) {
        return nest_end(s, a + 1);
    }
    plain_end(s, a)
}

// The quote that closes the string that opens at q.
fn closing(s: &[u8], q: usize) -> usize
    ensures { result ≡ closing s.now q }
{
    let e = behind(s, q);
    if e == 0 { 0 } else { e - 1 }
}

// One byte further, if there is one.
fn next(s: &[u8], p: usize) -> usize
    ensures { Lands s.now p (next s.now p) result }
{
    if p < s.len() { p + 1 } else { p }
}

// The value of a member, from behind its name: past the colon and white space.
fn past_colon(s: &[u8], e: usize) -> usize
    ensures { Lands s.now e (past s.now (next s.now (past s.now e))) result }
{
    let c = skip(s, e);
    let d = next(s, c);
    skip(s, d)
}

// A member by its places: where its name ends (behind the closing quote), where its value begins,
// where that ends, and what follows it: in an accepted text a comma or the closing brace.
#[derive(Clone, Copy)]
pub struct Member {
    pub name: usize,
    pub value: usize,
    pub end: usize,
    pub then: usize,
}

// The member whose name opens at q, in one walk over its bytes.
pub fn member_at(s: &[u8], q: usize) -> Member
    ensures { Row s.now q result.name result.value result.end result.then }
{
    let e = behind(s, q);
    let v = past_colon(s, e);
    let w = behind(s, v);
    let t = skip(s, w);
    Member {
        name: e,
        value: v,
        end: w,
        then: t,
    }
}

// An element by its places: where it ends, and what follows it.
#[derive(Drop)]
pub struct Element {
    pub end: usize,
    pub then: usize,
}

// The element that begins at v.
pub fn element_at(s: &[u8], v: usize) -> Element
    ensures { Cell s.now v result.end result.then }
{
    let w = behind(s, v);
    let t = skip(s, w);
    Element { end: w, then: t }
}

// The bytes from a up to e, as far as there are any.
pub fn part(s: &[u8], a: usize, e: usize) -> &[u8]
    ensures { result.now ≡ part s.now a e }
{
    if e <= a {
        return &s[0..0];
    }
    if s.len() <= a {
        return &s[0..0];
    }
    if s.len() < e {
        return &s[a..];
    }
    &s[a..e]
}

// The bytes of the value that begins at v.
pub fn value_part(s: &[u8], v: usize) -> &[u8]
    ensures { result.now ≡ bytes s.now v }
{
    let e = behind(s, v);
    part(s, v, e)
}

// The bytes between the quotes of the string that opens at q.
pub fn name_part(s: &[u8], q: usize) -> &[u8]
    ensures { result.now ≡ raw s.now q }
{
    if s.len() <= q {
        return &s[0..0];
    }
    let e = closing(s, q);
    part(s, q + 1, e)
}
