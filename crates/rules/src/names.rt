// Tags, methods, the known fields and the members of an object of Via: fixed byte strings to numbers.
ghost use Rattle.std.specs.Prelude.{◌≡◌, ◌<◌, drop};
ghost use Rattle.octets.specs.Text.{same};
ghost use Rattle.rules.specs.Names.{field_name, fields, hop_members, methods, tags};
ghost use Rattle.rules.specs.Pieces.{word_number_from, word_number};

use crate::numbers::{
    ACK, BYE, CALLBACK, CANCEL, INVITE, MESSAGE, NOTIFY, PING, PONG, REFER, REQUEST, RESPONSE,
};
use crate::pieces::word_or;
use octets::{byte, same};

// By a number made of a name's length and its first and last byte, the one known field it can be.
const GUESSES: [u8; 64] = [
    0, 26, 21, 23, 0, 0, 0, 24, 0, 10, 0, 0, 0, 0, 0, 11, 0, 0, 0, 20, 19, 25, 7, 4, 16, 13, 17, 0,
    0, 14, 0, 0, 6, 0, 0, 0, 0, 0, 0, 0, 0, 0, 0, 15, 18, 0, 0, 0, 0, 0, 0, 0, 0, 0, 1, 22, 0, 3,
    9, 2, 12, 0, 5, 8,
];

// The name of each field; field 0 has none.
const NAMES: [&[u8]; 27] = [
    b"",
    b"CSeq",
    b"To",
    b"From",
    b"Date",
    b"Call-ID",
    b"Via",
    b"Status",
    b"Message-ID",
    b"Content-Type",
    b"Body",
    b"Refer-To",
    b"Referred-By",
    b"Refer-Memo",
    b"Session-ID",
    b"Call-Mode",
    b"Call-Test",
    b"Secure-Call",
    b"Rescuee",
    b"Request-Service",
    b"Language",
    b"Locations",
    b"User-Agent",
    b"Caller",
    b"Options",
    b"Destination",
    b"Responded-By",
];

// The number of a tag.
pub fn tag(s: &[u8]) -> u8
    ensures { result ≡ word_number tags s.now }
{
    word_or(
        s,
        b"request",
        REQUEST,
        word_or(
            s,
            b"response",
            RESPONSE,
            word_or(s, b"ping", PING, word_or(s, b"pong", PONG, 0)),
        ),
    )
}

// The code of a method from MESSAGE on.
fn later_method(s: &[u8]) -> u8
    ensures { result ≡ word_number_from (drop 4 methods) 5 s.now }
{
    word_or(
        s,
        b"MESSAGE",
        MESSAGE,
        word_or(
            s,
            b"CALLBACK",
            CALLBACK,
            word_or(s, b"REFER", REFER, word_or(s, b"NOTIFY", NOTIFY, 0)),
        ),
    )
}

// The code of a method.
pub fn method(s: &[u8]) -> u8
    ensures { result ≡ word_number methods s.now }
{
    word_or(
        s,
        b"INVITE",
        INVITE,
        word_or(
            s,
            b"BYE",
            BYE,
            word_or(
                s,
                b"CANCEL",
                CANCEL,
                word_or(s, b"ACK", ACK, later_method(s)),
            ),
        ),
    )
}

// The number of a member of an object of Via: host, destination, organization.
pub fn hop_member(s: &[u8]) -> u8
    ensures { result ≡ word_number hop_members s.now }
{
    word_or(
        s,
        b"host",
        1,
        word_or(s, b"destination", 2, word_or(s, b"organization", 3, 0)),
    )
}

// Whether a text is the name of field k.
pub fn is_field(k: usize, s: &[u8]) -> bool
    requires { k < 27 }
    ensures { result ≡ same s.now (field_name k) }
{
    same(s, NAMES[k])
}

// The number of a known field, and 0 for any other name. One name at most is compared.
pub fn field(s: &[u8]) -> usize
    ensures { (result ≡ word_number fields s.now) × (result < 27) }
{
    let n = s.len();
    let first = byte(s, 0) as usize;
    let last = byte(s, n.saturating_sub(1)) as usize;
    let k = GUESSES[(n % 16 * 5 + first * 5 + last * 3) % 64] as usize;
    if is_field(k, s) { k } else { 0 }
}
