// The answers as C sees them: numbers of document 01, and 0 for what is not there.
ghost use Rattle.std.specs.Prelude.{◌≡◌};
ghost use Rattle.net119.specs.Flat.{flat_answer, flat_reading, flat_home, flat_position, flat_removed, flat_report, no_home, no_position, flat_written, flat_word};

use answers::{Answer, Word};
use message::{Reading, Report};
use positions::{Home, Position};
use writing::{Refusal, Taken};

// A reading: number 0, accepted; else the number and the place of the refusal.
#[repr(C)]
#[derive(Drop)]
pub struct ReadAnswer {
    pub number: u8,
    pub place: usize,
}

// The same, and how many JSON values were visited: 0 where refused by 2 to 5 or 11.
#[repr(C)]
#[derive(Drop)]
pub struct CountAnswer {
    pub number: u8,
    pub place: usize,
    pub count: usize,
}

// An event's answer: number 0, accepted, with its word and the state shown; else the refusal's number, place and reply.
#[repr(C)]
#[derive(Drop)]
pub struct EventAnswer {
    pub number: u8,
    pub word: u8,
    pub state: u8,
    pub reply: u16,
    pub place: usize,
}

// A writing: number 0 and the result's length; else the refusal's number.
#[repr(C)]
#[derive(Drop)]
pub struct WriteAnswer {
    pub number: u8,
    pub length: usize,
}

// An entry taken off: the same, and where the next host begins and ends in the message.
#[repr(C)]
#[derive(Drop)]
pub struct RemoveAnswer {
    pub number: u8,
    pub length: usize,
    pub hoststart: usize,
    pub hostend: usize,
}

// How many positions a message has, and whether it has a home: number 0; else the number and the place of the refusal.
#[repr(C)]
#[derive(Drop)]
pub struct PositionsAnswer {
    pub number: u8,
    pub home: bool,
    pub place: usize,
    pub count: usize,
}

// A position, if there is one: its provider, its coordinates in whole millionths of a degree, and its accuracy in metres, if it has one.
#[repr(C)]
#[derive(Drop)]
pub struct PositionAnswer {
    pub number: u8,
    pub found: bool,
    pub provider: u8,
    pub hasaccuracy: bool,
    pub latitude: i32,
    pub longitude: i32,
    pub place: usize,
    pub accuracy: u64,
}

// A home, if there is one: its coordinates.
#[repr(C)]
#[derive(Drop)]
pub struct HomeAnswer {
    pub number: u8,
    pub found: bool,
    pub latitude: i32,
    pub longitude: i32,
    pub place: usize,
}

impl From<Reading> for ReadAnswer {
    ghost from_gives = { λ r a. a ≡ flat_reading r };

    fn from(r: Reading) -> ReadAnswer {
        match r {
            Err(e) => ReadAnswer {
                number: e.number(),
                place: e.place(),
            },
            Ok(_) => ReadAnswer {
                number: 0,
                place: 0,
            },
        }
    }
}

impl From<Report> for CountAnswer {
    ghost from_gives = { λ r a. a ≡ flat_report r };

    fn from(r: Report) -> CountAnswer {
        let f = ReadAnswer::from(r.reading);
        CountAnswer {
            number: f.number,
            place: f.place,
            count: r.count,
        }
    }
}

// A word's number; no `From`, since neither `Word` nor `u8` is this crate's.
fn flat_word(w: Word) -> u8
    ensures { result ≡ flat_word w }
{
    match w {
        Word::Pass => 1,
        Word::Repeat => 2,
        Word::Bye => 3,
        Word::Timeout => 4,
        Word::Idle => 5,
        Word::Freed => 6,
        Word::None => 7,
    }
}

impl From<Answer> for EventAnswer {
    ghost from_gives = { λ answer e. e ≡ flat_answer answer };

    fn from(answer: Answer) -> EventAnswer {
        match answer {
            Ok(a) => EventAnswer {
                number: 0,
                word: flat_word(a.word),
                state: answers::shown_number(a.state),
                reply: 0,
                place: 0,
            },
            Err(f) => EventAnswer {
                number: f.number(),
                word: 0,
                state: 0,
                reply: f.reply(),
                place: f.place(),
            },
        }
    }
}

impl From<Result<usize, Refusal>> for WriteAnswer {
    ghost from_gives = { λ w a. a ≡ flat_written w };

    fn from(w: Result<usize, Refusal>) -> WriteAnswer {
        match w {
            Ok(n) => WriteAnswer {
                number: 0,
                length: n,
            },
            Err(r) => WriteAnswer {
                number: r.into(),
                length: 0,
            },
        }
    }
}

impl From<Result<Taken, Refusal>> for RemoveAnswer {
    ghost from_gives = { λ w a. a ≡ flat_removed w };

    fn from(w: Result<Taken, Refusal>) -> RemoveAnswer {
        match w {
            Ok(taken) => RemoveAnswer {
                number: 0,
                length: taken.length,
                hoststart: taken.host.start,
                hostend: taken.host.end,
            },
            Err(r) => RemoveAnswer {
                number: r.into(),
                length: 0,
                hoststart: 0,
                hostend: 0,
            },
        }
    }
}

// None: the message is accepted, number and place 0, or refused.
pub fn no_position(number: u8, place: usize) -> PositionAnswer
    ensures { result ≡ no_position number place }
{
    PositionAnswer {
        number,
        found: false,
        provider: 0,
        hasaccuracy: false,
        latitude: 0,
        longitude: 0,
        place,
        accuracy: 0,
    }
}

impl From<Option<Position>> for PositionAnswer {
    ghost from_gives = { λ x a. a ≡ flat_position x };

    fn from(x: Option<Position>) -> PositionAnswer {
        match x {
            Some(p) => PositionAnswer {
                number: 0,
                found: true,
                provider: p.provider,
                hasaccuracy: p.accuracy.is_some(),
                latitude: p.latitude,
                longitude: p.longitude,
                place: 0,
                accuracy: p.accuracy.unwrap_or(0),
            },
            None => no_position(0, 0),
        }
    }
}

// The same of a home.
pub fn no_home(number: u8, place: usize) -> HomeAnswer
    ensures { result ≡ no_home number place }
{
    HomeAnswer {
        number,
        found: false,
        latitude: 0,
        longitude: 0,
        place,
    }
}

impl From<Option<Home>> for HomeAnswer {
    ghost from_gives = { λ x a. a ≡ flat_home x };

    fn from(x: Option<Home>) -> HomeAnswer {
        match x {
            Some(h) => HomeAnswer {
                number: 0,
                found: true,
                latitude: h.latitude,
                longitude: h.longitude,
                place: 0,
            },
            None => no_home(0, 0),
        }
    }
}
