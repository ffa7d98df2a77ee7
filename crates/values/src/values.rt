// A value by its own bytes: its kind, and how its text is spelled.
ghost use Rattle.values.specs.inner.Asked.{Own};
ghost use Rattle.std.specs.Prelude.{◌≡◌, ◌<◌};
ghost use Rattle.json_text.specs.Places.{behind, bytes};
ghost use Rattle.values.specs.Spans.{spelling_at};
ghost use Rattle.values.specs.Value.{is_array, is_object, is_string, spelling_of};

use json_text::{name_part, part, value_part};
use octets::byte;

// A value's first byte says its kind. (One function that is given the byte would be no plainer than these names.)

// Whether a value is a string.
pub fn is_string(v: &[u8]) -> bool
    ensures { result ≡ is_string v.now }
{
    byte(v, 0) == b'"'
}

// Whether a value is an array.
pub fn is_array(v: &[u8]) -> bool
    ensures { result ≡ is_array v.now }
{
    byte(v, 0) == b'['
}

// Whether a value is an object.
pub fn is_object(v: &[u8]) -> bool
    ensures { result ≡ is_object v.now }
{
    byte(v, 0) == b'{'
}

// How a string is spelled: the bytes between its quotes, as a part of it.
pub fn spelling_of(v: &[u8]) -> &[u8]
    ensures { result.now ≡ spelling_of v.now }
{
    name_part(v, 0)
}

// The same of a value's own bytes, which end with it: nothing is looked for.
pub fn own_spelling(v: &[u8]) -> &[u8]
    requires { Own v.now }
    ensures { result.now ≡ spelling_of v.now }
{
    let n = v.len();
    if n < 2 {
        return part(v, 0, 0);
    }
    let e = n - 1;
    &v[1..e]
}

// The bytes of the value at v, which end at e; e is 0 where the end is not known.
pub fn value_at(s: &[u8], v: usize, e: usize) -> &[u8]
    requires { 0 < e → e ≡ behind s.now v }
    ensures { result.now ≡ bytes s.now v }
{
    if e == 0 {
        return value_part(s, v);
    }
    part(s, v, e)
}

// How the text of the value at v is spelled, which ends at e, likewise.
pub fn spelling_at(s: &[u8], v: usize, e: usize) -> &[u8]
    requires { 0 < e → e ≡ behind s.now v }
    ensures { result.now ≡ spelling_at s.now v }
{
    own_spelling(value_at(s, v, e))
}
