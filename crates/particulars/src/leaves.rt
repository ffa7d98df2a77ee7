// Single values: whether each keeps its rule, on its own bytes.
ghost use Rattle.std.specs.Prelude.{◌≡◌};
ghost use Rattle.particulars.specs.Leaves.{accuracy_rule, filled_rule, is_blank, is_given, keeps, least_name, metres_rule, provider_of, text_rule};
ghost use Rattle.particulars.specs.inner.Telling.{characters_in, on_text};
ghost use Rattle.rules.specs.Words.{providers};
ghost use Rattle.values.specs.Value.{freely, ruled, word_spelled};
ghost use Rattle.values.specs.inner.Asked.{Own};

use crate::types::Leaf;
use coordinates::coordinate_of;
use escapes::{is_escaped, measure};
use octets::{among, byte, is_digits, same};
use values::{is_string, of_text, own_spelling};

// The number of `preset` among the providers.
pub const PRESET: u8 = 3;

// The number of the provider that w spells: the bytes are tried as they stand, and decoded only where they have an escape.
fn provider_spelled(w: &[u8]) -> u8
    ensures { result ≡ word_spelled providers w.now }
{
    match rules::provider(w) {
        0 if is_escaped(w) => of_text(w, |t| rules::provider(t)),
        k => k,
    }
}

// The number of the provider that a value tells.
pub fn provider_of(v: &[u8]) -> u8
    requires { Own v.now }
    ensures { result ≡ provider_of v.now }
{
    if !is_string(v) {
        return 0;
    }
    provider_spelled(own_spelling(v))
}

// How many characters the text of a string has; None of a broken text, and of a value that is no string.
fn characters_in(v: &[u8]) -> Option<usize>
    requires { Own v.now }
    ensures { result ≡ characters_in v.now }
{
    if !is_string(v) {
        return None;
    }
    let w = own_spelling(v);
    if !is_escaped(w) {
        return Some(rules::points(w));
    }
    let m = measure(w);
    if m.broken { None } else { Some(m.points) }
}

// Text of lo to hi characters.
fn is_text(v: &[u8], lo: usize, hi: usize) -> bool
    requires { Own v.now }
    ensures { result ≡ ruled (text_rule lo hi) v.now }
{
    match characters_in(v) {
        None => false,
        Some(n) => lo <= n && n <= hi,
    }
}

// Text that is not empty.
fn is_filled(v: &[u8]) -> bool
    requires { Own v.now }
    ensures { result ≡ ruled filled_rule v.now }
{
    match characters_in(v) {
        None => false,
        Some(n) => 0 < n,
    }
}

// Whole metres.
pub fn is_metres(v: &[u8]) -> bool
    ensures { result ≡ metres_rule v.now }
{
    same(v, b"0") || (byte(v, 0) != b'0' && is_digits(v, 1, v.len()))
}

// Whether the provider is preset or map.
fn is_given(w: u8) -> bool
    ensures { result ≡ is_given w }
{
    among(3, 4, w)
}

// Whole metres, 0 where the provider is preset or map.
fn is_accuracy(w: u8, v: &[u8]) -> bool
    ensures { result ≡ accuracy_rule w v.now }
{
    is_metres(v) && (!is_given(w) || same(v, b"0"))
}

// How many characters a location's name has at least.
fn least_name(w: u8) -> usize
    ensures { result ≡ least_name w }
{
    if w == PRESET { 1 } else { 0 }
}

// The text of a leaf that is a word, digits, a date or an identifier.
#[tactic(auto, unfolding(crate::specs::inner::Telling::on_text, values::specs::Value::one_of))]
fn is_leaf_text(l: Leaf, t: &[u8]) -> bool
    ensures { result ≡ on_text l t.now }
{
    match l {
        Leaf::Provider => 0 < rules::provider(t),
        Leaf::LiveProvider => 0 < rules::live_provider(t),
        Leaf::Sex => 0 < rules::sex(t),
        Leaf::Telephone(lo) => is_digits(t, lo, 15),
        Leaf::Date => rules::is_date(t),
        Leaf::Day => rules::is_day(t),
        Leaf::FireId => rules::is_fire_id(t),
        Leaf::UserId => rules::is_user_id(t),
        _ => false,
    }
}

// A string with such a text: tried as it is spelled, and decoded only where that fails.
fn keeps_text(l: Leaf, v: &[u8]) -> bool
    requires { Own v.now }
    ensures { result ≡ freely (on_text l) v.now }
{
    if !is_string(v) {
        return false;
    }
    let w = own_spelling(v);
    is_leaf_text(l, w) || of_text(w, |t| is_leaf_text(l, t))
}

// Whether a value keeps its rule, in an object whose provider has the number w. What it decodes into is in no frame of `objects`, which stand three deep (C is
// promised how much stack a call takes).
#[inline(never)]
pub fn keeps(w: u8, l: Leaf, v: &[u8]) -> bool
    requires { Own v.now }
    ensures { result ≡ keeps w l v.now }
{
    match l {
        Leaf::Text(lo, hi) => is_text(v, lo, hi),
        Leaf::Name(hi) => is_text(v, least_name(w), hi),
        Leaf::Filled => is_filled(v),
        Leaf::Coordinate(n) => coordinate_of(v, n).is_some(),
        Leaf::Metres => is_metres(v),
        Leaf::Accuracy => is_accuracy(w, v),
        _ => keeps_text(l, v),
    }
}

// The empty string.
pub fn is_blank(v: &[u8]) -> bool
    ensures { result ≡ is_blank v.now }
{
    same(v, b"\"\"")
}
