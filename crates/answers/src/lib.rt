// What is answered to an event: accepted, with its word and the new state, or refused (01 Events).
// The paper's words and numbers for each case are definitions of specs/Answer.antt; every function is proved to give them.
// It knows of no call and no message: whoever only shows an answer needs nothing else.
#![tactic(auto)]

ghost use Rattle.std.specs.Prelude.{◌≡◌, ◌+◌, ◌≤◌, length};
ghost use Rattle.octets.specs.Splice.{splice};
ghost use Rattle.answers.specs.Answer.{refusal_number, refusal_place, reason_reply, refusal_reply, waiting_reply, shown_of, spelling};

use octets::put;

// The states of a call (01 Events), by their numbers.
#[derive(Clone, Copy)]
pub enum State {
    Calling = 1,
    Ringing,
    Answered,
    Talking,
    Ended,
    Cancelling,
}

// What is to be done with an event that is accepted.
#[derive(Drop)]
pub enum Word {
    Pass,
    Repeat,
    Bye,
    Timeout,
    Idle,
    Freed,
    None,
}

// Why the rule of a call refuses, by its numbers, 20 to 27.
#[derive(Clone, Copy)]
pub enum Reason {
    NoCall = 20,
    OtherParty,
    Earlier,
    WrongNumber,
    NotNow,
    NotSecure,
    TooLate,
    NoRoom,
}

// Who waits for a reply: nobody where the event is a response, a tick or an ACK.
#[derive(Clone, Copy)]
pub enum Waiting {
    Nobody,
    Requester,
    CallbackRequester,
}

#[derive(Clone, Copy)]
pub enum Refusal {
    // 1: the table is not well-formed.
    Table,
    // 2 to 11: the number that the reading gave, and its place.
    Reading(u8, usize),
    // 28: a ping or a pong.
    PingPong,
    // 20 to 27.
    Call(Reason, Waiting),
}

// An acceptance: what is to be done, and the state that the call is in; None where its record was freed.
#[derive(Drop)]
pub struct Accepted {
    pub word: Word,
    pub state: Option<State>,
}

pub type Answer = Result<Accepted, Refusal>;

// The state shown, 0 where the record was freed.
pub fn shown_number(state: Option<State>) -> u8
    ensures { result ≡ shown_of state }
{
    match state {
        Some(s) => s as u8,
        None => 0,
    }
}

fn reason_reply(twenty: u16, r: Reason) -> u16
    ensures { result ≡ reason_reply twenty r }
{
    match r {
        Reason::NoCall => twenty,
        Reason::OtherParty => 481,
        Reason::Earlier | Reason::WrongNumber => 500,
        Reason::NotNow => 400,
        Reason::NotSecure => 405,
        Reason::TooLate => 404,
        Reason::NoRoom => 486,
    }
}

fn waiting_reply(w: Waiting, r: Reason) -> u16
    ensures { result ≡ waiting_reply w r }
{
    match w {
        Waiting::Nobody => 0,
        Waiting::Requester => reason_reply(481, r),
        Waiting::CallbackRequester => reason_reply(404, r),
    }
}

impl Refusal {
    // Its number in the paper.
    pub fn number(self) -> u8
        ensures { result ≡ refusal_number self }
    {
        match self {
            Refusal::Table => 1,
            Refusal::Reading(n, _) => n,
            Refusal::PingPong => 28,
            Refusal::Call(r, _) => r as u8,
        }
    }

    // Its place: 0 but for 2 to 11.
    pub fn place(self) -> usize
        ensures { result ≡ refusal_place self }
    {
        match self {
            Refusal::Reading(_, p) => p,
            _ => 0,
        }
    }

    // Its reply, or 0.
    pub fn reply(self) -> u16
        ensures { result ≡ refusal_reply self }
    {
        match self {
            Refusal::Call(r, w) => waiting_reply(w, r),
            _ => 0,
        }
    }
}

// Writes an acceptance's word from `at` on, and answers the place behind it.
pub fn put_word(out: &mut [u8], at: usize, word: Word) -> usize
    requires { at + 7 ≤ length out.old }
    ensures { (result ≡ at + length (spelling word)) × (out.new ≡ splice out.old at (spelling word)) }
{
    match word {
        Word::Pass => put(out, at, b"pass"),
        Word::Repeat => put(out, at, b"repeat"),
        Word::Bye => put(out, at, b"bye"),
        Word::Timeout => put(out, at, b"timeout"),
        Word::Idle => put(out, at, b"idle"),
        Word::Freed => put(out, at, b"freed"),
        Word::None => put(out, at, b"none"),
    }
}
