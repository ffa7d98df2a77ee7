// A call as its rule sees it: the numbers of its record (its texts stay with the keeper), and what an event brings.
ghost use Rattle.std.specs.Prelude.{◌≡◌};
ghost use Rattle.answers.specs.Answer.{accepted};
ghost use Rattle.call.specs.Outcomes.{chat_on_entering, entered, freed, goes, heard, refused, since, stays, unchanged};

use answers::{Accepted, Answer, Reason, Refusal, State, Waiting, Word};

// The highest number of one side, and its method's code; 0 and 0 where it has sent none, as the image has it. Every number that a
// request brings is above that, so that no test asks whether there is one: an Option would be taken apart to be compared.
#[derive(Clone, Copy)]
pub struct Highest {
    pub number: u32,
    pub method: u8,
}

#[derive(Clone, Copy)]
pub struct Call {
    pub state: State,
    pub secure: bool,
    pub invite: u32,
    pub caller: Highest,
    pub callee: Highest,
    // The last time, the time the state was entered, and the chat time, in milliseconds.
    pub last: u64,
    pub entry: u64,
    pub chat: u64,
}

// What becomes of a call's record.
#[derive(Drop)]
pub enum After {
    Same,
    Set(Call),
    Free,
}

// What an event brings: the answer, and what becomes of the record.
#[derive(Drop)]
pub struct Outcome {
    pub answer: Answer,
    pub after: After,
}

// How long ago `then` was; nothing where it is yet to come.
pub fn since(now: u64, then: u64) -> u64
    ensures { result ≡ since now then }
{
    if now < then { 0 } else { now - then }
}

// The call with its last time set.
pub fn heard(now: u64, c: Call) -> Call
    ensures { result ≡ heard now c }
{
    Call { last: now, ..c }
}

// The chat time on entering state s.
fn chat_on_entering(s: State, now: u64, old: u64) -> u64
    ensures { result ≡ chat_on_entering s now old }
{
    match s {
        State::Answered => now,
        _ => old,
    }
}

// The call in state s from now on.
pub fn entered(s: State, now: u64, c: Call) -> Call
    ensures { result ≡ entered s now c }
{
    Call {
        state: s,
        last: now,
        entry: now,
        chat: chat_on_entering(s, now, c.chat),
        ..c
    }
}

// Refused: the record stays.
pub fn refused(reason: Reason, waiting: Waiting) -> Outcome
    ensures { result ≡ refused reason waiting }
{
    Outcome {
        answer: Err(Refusal::Call(reason, waiting)),
        after: After::Same,
    }
}

// Accepted: what is to be done, and the state that the call is in.
pub fn accepted(word: Word, state: Option<State>) -> Answer
    ensures { result ≡ accepted word state }
{
    Ok(Accepted { word, state })
}

// Repeat and none: the record stays.
pub fn unchanged(word: Word, c: Call) -> Outcome
    ensures { result ≡ unchanged word c }
{
    Outcome {
        answer: accepted(word, Some(c.state)),
        after: After::Same,
    }
}

// Accepted in the state it is in.
pub fn stays(word: Word, now: u64, c: Call) -> Outcome
    ensures { result ≡ stays word now c }
{
    Outcome {
        answer: accepted(word, Some(c.state)),
        after: After::Set(heard(now, c)),
    }
}

// Accepted, into state s.
pub fn goes(word: Word, s: State, now: u64, c: Call) -> Outcome
    ensures { result ≡ goes word s now c }
{
    Outcome {
        answer: accepted(word, Some(s)),
        after: After::Set(entered(s, now, c)),
    }
}

// The record is given up.
pub fn freed() -> Outcome
    ensures { result ≡ freed }
{
    Outcome {
        answer: accepted(Word::Freed, None),
        after: After::Free,
    }
}
