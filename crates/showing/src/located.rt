// `positions`.
ghost use Rattle.std.specs.Prelude.{Err, Ok, ◌≡◌, ◌+◌, ◌≤◌, length, take};
ghost use Rattle.message.specs.Placing.{places_of};
ghost use Rattle.message.specs.Reading.{ample, reading};
ghost use Rattle.octets.specs.Splice.{splice};
ghost use Rattle.showing.specs.Located.{home_text, located_text, pair_text, positions_text, signed_shown};
ghost use Rattle.showing.specs.Shown.{Puts};

use crate::shown::{put_number, put_unknown};
use crate::words::take_bytes;
use message::Refusal;
use octets::{put, put_decimal};
use positions::{Accepted, Home, accept, count, home, position};

// A number with its sign.
fn put_signed(out: &mut [u8], at: usize, z: i32) -> usize
    requires { at + 11 ≤ length out.old }
    ensures { ((result ≡ at + length (signed_shown z)) × (out.new ≡ splice out.old at (signed_shown z))) × (result ≤ at + 11) }
{
    let n = u64::from(z.unsigned_abs());
    if z < 0 {
        let digits = put(out, at, b"-");
        put_decimal(out, digits, n)
    } else {
        put_decimal(out, at, n)
    }
}

// A latitude and a longitude.
fn put_pair(out: &mut [u8], at: usize, latitude: i32, longitude: i32) -> usize
    requires { at + 24 ≤ length out.old }
    ensures { ((result ≡ at + length (pair_text latitude longitude)) × (out.new ≡ splice out.old at (pair_text latitude longitude))) × (result ≤ at + 24) }
{
    let first = put(out, at, b" ");
    let space = put_signed(out, first, latitude);
    let second = put(out, space, b" ");
    put_signed(out, second, longitude)
}

// A home, if there is one.
fn put_home(out: &mut [u8], at: usize, h: Option<Home>) -> usize
    requires { at + 29 ≤ length out.old }
    ensures { ((result ≡ at + length (home_text h)) × (out.new ≡ splice out.old at (home_text h))) × (result ≤ at + 29) }
{
    match h {
        None => at,
        Some(h) => {
            let pair = put(out, at, b" home");
            put_pair(out, pair, h.latitude, h.longitude)
        }
    }
}

// The positions of an accepted message, and its home.
fn put_located(out: &mut [u8; 800000], s: &[u8], a: &Accepted) -> usize
    requires { (reading ample s.now ≡ Ok a.now.message) × (a.now.at ≡ places_of s.now) }
    ensures { Puts out.old (located_text s.now (Ok a.now.message)) result out.new }
{
    let mut end = put(out, 0, b"ok");
    for k in 0..count(s, a) {
        if let Some(p) = position(s, a, k) {
            end = put_pair(out, end, p.latitude, p.longitude);
        }
    }
    let end = put_home(out, end, home(s, a));
    put(out, end, b"\n")
}

// A refusal's number and place.
fn put_refused(out: &mut [u8; 800000], s: &[u8], why: Refusal) -> usize
    ensures { Puts out.old (located_text s.now (Err why)) result out.new }
{
    let number = put(out, 0, b"no ");
    let place = put_number(out, number, why.number() as u64, b" ");
    put_number(out, place, why.place() as u64, b"\n")
}

// Reads the first n bytes as a message, and writes where it places its caller.
fn locate(out: &mut [u8; 800000], bytes: &[u8; 85000], n: usize) -> usize
    requires { n ≤ 85000 }
    ensures { Puts out.old (located_text (take n bytes.now) (reading ample (take n bytes.now))) result out.new }
{
    let b: &[u8] = bytes;
    let s = &b[0..n];
    match accept(s) {
        Err(why) => put_refused(out, s, why),
        Ok(a) => put_located(out, s, &a),
    }
}

// `positions HEX`.
pub fn positions(out: &mut [u8; 800000], bytes: &mut [u8; 85000], word: &[u8]) -> usize
    requires { length word.now ≤ 170000 }
    ensures { Puts out.old (positions_text word.now) result out.new }
{
    let Some(n) = take_bytes(bytes, 0, word) else {
        return put_unknown(out);
    };
    locate(out, bytes, n)
}
