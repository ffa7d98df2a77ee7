// Values, with room for so many (02 §9). The readers of a value, an array and an object call each other: a level is taken off for each bracket
// that opens, and the bytes left fall. Elements and members are read by loops, so that the stack grows with the nesting alone.
ghost use Rattle.std.specs.Prelude.{◌≡◌, ◌≤◌, length};
ghost use Rattle.json_text.specs.inner.Machine.{Leaf, Scalar, after, arr, first, name, name₁, obj, value};
ghost use Rattle.json_text.specs.inner.Tour.{Calm, Tally, started, taken};

use crate::Fault;
use crate::literals::literal;
use crate::numbers::unsigned;
use crate::spaces::past_spaces;
use crate::strings::string;

// A value began at i, and its reader answered r.
fn taking(r: Result<usize, Fault>, i: usize, room: usize) -> Result<(usize, usize), Fault>
    ensures { result ≡ taken i room r }
{
    if room == 0 {
        return Err(Fault::Many(i));
    }
    Ok((r?, room - 1))
}

// The same of a literal or a number, which may have begun none: then its reader stopped at i.
fn starting(r: Result<usize, Fault>, i: usize, room: usize) -> Result<(usize, usize), Fault>
    ensures { result ≡ started i room r }
{
    match r {
        Err(Fault::Bad(p)) if p == i => Err(Fault::Bad(p)),
        _ => taking(r, i, room),
    }
}

// A member's name and the colon after it.
fn label(s: &[u8], at: usize) -> Result<usize, Fault>
    requires { at ≤ length s.now }
    ensures { Calm s.now at name value result }
{
    let i = past_spaces(s, at);
    if s.len() <= i {
        return Err(Fault::Bad(i));
    }
    if s[i] != b'"' {
        return Err(Fault::Bad(i));
    }
    let e = string(s, i + 1)?;
    let j = past_spaces(s, e);
    if s.len() <= j {
        return Err(Fault::Bad(j));
    }
    if s[j] == b':' {
        return Ok(j + 1);
    }
    Err(Fault::Bad(j))
}

// A literal name or a number; or what starts no value.
fn scalar(s: &[u8], at: usize) -> Result<usize, Fault>
    requires { Scalar s.now at }
    ensures { Leaf s.now at (λ _. value) (λ _. after) result }
{
    let b = s[at];
    let j = at + 1;
    if b == b't' {
        return literal(s, j, b"rue");
    }
    if b == b'f' {
        return literal(s, j, b"alse");
    }
    if b == b'n' {
        return literal(s, j, b"ull");
    }
    if b == b'-' {
        return unsigned(s, j);
    }
    unsigned(s, at)
}

// A value, with `left` levels left to open.
#[cycle(array_object_value)]
pub fn value(s: &[u8], at: usize, left: usize, room: usize) -> Result<(usize, usize), Fault>
    requires { at ≤ length s.now }
    ensures { Tally s.now at left room value (λ k. k) result }
{
    let i = past_spaces(s, at);
    if s.len() <= i {
        return Err(Fault::Bad(i));
    }
    let b = s[i];
    if b == b'"' {
        return taking(string(s, i + 1), i, room);
    }
    if b == b'[' {
        if left == 0 {
            return Err(Fault::Deep(i));
        }
        if room == 0 {
            return Err(Fault::Many(i));
        }
        return array(s, i + 1, left - 1, room - 1);
    }
    if b == b'{' {
        if left == 0 {
            return Err(Fault::Deep(i));
        }
        if room == 0 {
            return Err(Fault::Many(i));
        }
        return object(s, i + 1, left - 1, room - 1);
    }
    starting(scalar(s, i), i, room)
}

// An array, from behind its bracket, which is open.
#[cycle(array_object_value)]
fn array(s: &[u8], at: usize, left: usize, room: usize) -> Result<(usize, usize), Fault>
    requires { at ≤ length s.now }
    ensures { Tally s.now at left room first arr result }
{
    let i = past_spaces(s, at);
    if s.len() <= i {
        return Err(Fault::Bad(i));
    }
    if s[i] == b']' {
        return Ok((i + 1, room));
    }
    let mut p = i;
    let mut n = room;
    loop {
        let (e, c) = value(s, p, left, n)?;
        let j = past_spaces(s, e);
        if s.len() <= j {
            return Err(Fault::Bad(j));
        }
        let b = s[j];
        if b == b']' {
            return Ok((j + 1, c));
        }
        if b != b',' {
            return Err(Fault::Bad(j));
        }
        p = j + 1;
        n = c;
    }
}

// An object, from behind its bracket, which is open.
#[cycle(array_object_value)]
fn object(s: &[u8], at: usize, left: usize, room: usize) -> Result<(usize, usize), Fault>
    requires { at ≤ length s.now }
    ensures { Tally s.now at left room name₁ obj result }
{
    let i = past_spaces(s, at);
    if s.len() <= i {
        return Err(Fault::Bad(i));
    }
    if s[i] == b'}' {
        return Ok((i + 1, room));
    }
    let mut p = i;
    let mut n = room;
    loop {
        let a = label(s, p)?;
        let (e, c) = value(s, a, left, n)?;
        let j = past_spaces(s, e);
        if s.len() <= j {
            return Err(Fault::Bad(j));
        }
        let b = s[j];
        if b == b'}' {
            return Ok((j + 1, c));
        }
        if b != b',' {
            return Err(Fault::Bad(j));
        }
        p = j + 1;
        n = c;
    }
}
