// Why a message is refused (01 Reading, rows 2 to 10; 02 §9, row 11).
ghost use Rattle.std.specs.Prelude.{◌≡◌};
ghost use Rattle.message.specs.Refusal.{number, of_json, place};

use json_text::Fault;

// The row that refuses, and the place where it does, if the row tells one.
#[derive(Clone, Copy)]
pub enum Refusal {
    Length,
    Utf8(usize),
    Json(usize),
    Deep(usize),
    Shape,
    Twice(usize),
    // the field's number
    Missing(usize),
    Rule(usize),
    Disagree,
    Many(usize),
}

impl Refusal {
    // The row's number.
    pub fn number(self) -> u8
        ensures { result ≡ number self }
    {
        match self {
            Refusal::Length => 2,
            Refusal::Utf8(_) => 3,
            Refusal::Json(_) => 4,
            Refusal::Deep(_) => 5,
            Refusal::Shape => 6,
            Refusal::Twice(_) => 7,
            Refusal::Missing(_) => 8,
            Refusal::Rule(_) => 9,
            Refusal::Disagree => 10,
            Refusal::Many(_) => 11,
        }
    }

    // The place, 0 where the row tells none.
    pub fn place(self) -> usize
        ensures { result ≡ place self }
    {
        match self {
            Refusal::Length | Refusal::Shape | Refusal::Disagree => 0,
            Refusal::Utf8(p)
            | Refusal::Json(p)
            | Refusal::Deep(p)
            | Refusal::Twice(p)
            | Refusal::Missing(p)
            | Refusal::Rule(p)
            | Refusal::Many(p) => p,
        }
    }
}

impl From<Fault> for Refusal {
    fn from(fault: Fault) -> Refusal
        ensures { result ≡ of_json fault }
    {
        match fault {
            Fault::Bad(p) => Refusal::Json(p),
            Fault::Deep(p) => Refusal::Deep(p),
            Fault::Many(p) => Refusal::Many(p),
        }
    }
}
