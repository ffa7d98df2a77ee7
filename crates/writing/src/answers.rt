// What the writer answers (01 Writing): `Ok` with how many bytes of the output are the result, or why there is none, and the output is as it was.
ghost use Rattle.std.specs.Prelude.{◌≡◌};
ghost use Rattle.writing.specs.Outcome.{writing_number};

use std::error::Error;
use std::fmt;
use values::Span;

// Why there is none, by the numbers of document 01; 9 is a text's alone (02 §2).
#[derive(Clone, Copy, Debug, PartialEq, Eq)]
pub enum Refusal {
    // Our own path breaks the Via rules.
    Path = 38,
    // Not an accepted request (ACK too, for a reply) or response.
    Kind = 30,
    // The code is not listed, or 202 without REFER.
    Code = 31,
    // A bad Date.
    Date = 32,
    // Our host and destination in one Via object.
    Loop = 34,
    // Sixteen objects.
    Full = 35,
    // Fewer than two.
    Few = 37,
    // The last has another host or destination.
    Foreign = 36,
    // The result is over 32,768 bytes.
    Long = 39,
    // The output is shorter than the result.
    Room = 33,
    // A lone surrogate is in the text.
    Broken = 9,
}

impl fmt::Display for Refusal {
    fn fmt<W: fmt::Write>(&self, f: &mut fmt::Formatter<W>) -> fmt::Result {
        f.write_str(match self {
            Refusal::Path => "our own path breaks the Via rules",
            Refusal::Kind => "not an accepted request or response, or a reply to an ACK",
            Refusal::Code => "the code is not listed, or 202 without REFER",
            Refusal::Date => "a bad Date",
            Refusal::Loop => "our host and destination are in one Via object",
            Refusal::Full => "sixteen Via objects",
            Refusal::Few => "fewer than two Via objects",
            Refusal::Foreign => "the last Via object has another host or destination",
            Refusal::Long => "the result is over 32,768 bytes",
            Refusal::Room => "the output is shorter than the result",
            Refusal::Broken => "a lone surrogate is in the text",
        })
    }
}

impl Error for Refusal {}

// An entry taken off: how many bytes of the output are the result, and where the next host stands in the message.
#[derive(Clone, Copy)]
pub struct Taken {
    pub length: usize,
    pub host: Span,
}

impl From<Refusal> for u8 {
    ghost from_gives = { λ r n. n ≡ writing_number r };

    fn from(r: Refusal) -> u8 {
        r as u8
    }
}
