// CSeq.
ghost use Rattle.std.specs.Prelude.{◌≡◌};
ghost use Rattle.rules.specs.Sequence.{sequence_of};

use crate::classes::Class;
use crate::names::method;
use crate::pieces::{count, mark, run_end};
use octets::byte;

// The number and the method's code.
#[derive(Clone, Copy)]
pub struct Sequence {
    pub number: u32,
    pub method: u8,
}

// What a CSeq says; None where the text breaks the rule.
pub fn sequence_of(s: &[u8]) -> Option<Sequence>
    ensures { result ≡ sequence_of s.now }
{
    let end = run_end(s, 0, Class::Digit);
    if !mark(s, end, b' ') || byte(s, 0) == b'0' {
        return None;
    }
    let number = count(s, end, 4294967295)?;
    let method = method(&s[end + 1..]);
    if method == 0 {
        return None;
    }
    Some(Sequence {
        number: number as u32,
        method,
    })
}
