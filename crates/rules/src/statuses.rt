// Status, and the status texts.
ghost use Rattle.std.specs.Prelude.{◌≡◌, ◌+◌, ◌≤◌, length};
ghost use Rattle.octets.specs.Splice.{splice};
ghost use Rattle.rules.specs.Status.{codes, index_in, listed, status_of, status_text};

use crate::pieces::{is_number, mark, number_at};
use octets::put;

// Document 01 asks for constant tables: of the codes with the offsets of their phrases here, of the days of months in dates.rt.
const CODES: [u16; 14] = [
    100, 180, 200, 202, 400, 404, 405, 481, 486, 487, 488, 500, 501, 503,
];

// Where each code's text begins in the texts one after the other, and where the last one ends.
const STARTS: [u8; 15] = [
    0, 10, 21, 27, 39, 54, 67, 89, 124, 137, 159, 182, 207, 226, 249,
];

// The code that a Status says; None where the text breaks the rule. What stands behind the space is free.
pub fn status_of(s: &[u8]) -> Option<u16>
    ensures { result ≡ status_of s.now }
{
    if is_number(s, 0, 3, 100, 699) && mark(s, 3, b' ') {
        Some(number_at(s, 0, 3) as u16)
    } else {
        None
    }
}

// The place of a code among the listed ones, and 14 where it is not there.
fn index_in(code: u16) -> usize
    ensures { result ≡ index_in codes code }
{
    let mut i: usize = 0;
    while i < 14 {
        if CODES[i] == code {
            return i;
        }
        i += 1;
    }
    14
}

// Whether a code is listed.
pub fn is_listed(code: u16) -> bool
    ensures { result ≡ listed code }
{
    index_in(code) < 14
}

// How long the text of a code is; 0 where it is not listed.
pub fn status_length(code: u16) -> usize
    ensures { (result ≡ length (status_text code)) × (result ≤ 35) }
{
    let i = index_in(code);
    if i < 14 {
        (STARTS[i + 1] - STARTS[i]) as usize
    } else {
        0
    }
}

// Writes a code with its phrase from `at` on, and answers the index behind it; nothing where the code
// is not listed.
pub fn put_status(out: &mut [u8], at: usize, code: u16) -> usize
    requires { at + length (status_text code) ≤ length out.old }
    ensures { (result ≡ at + length (status_text code)) × (out.new ≡ splice out.old at (status_text code)) }
{
    let t: &[u8] =
        b"100 Trying180 Ringing200 OK202 Accepted400 Bad Request404 Not Found405 Method Not Allowed481 Call/Transaction Does Not Exist486 Busy Here487 Request Terminated488 Not Acceptable Here500 Server Internal Error501 Not Implemented503 Service Unavailable";
    let i = index_in(code);
    if i < 14 {
        let a = STARTS[i] as usize;
        let e = STARTS[i + 1] as usize;
        put(out, at, &t[a..e])
    } else {
        put(out, at, &t[0..0])
    }
}
