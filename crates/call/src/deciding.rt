// The rule, checked in the order of the table (01 Events): 20, 21, 22, then by the kind of event.
ghost use Rattle.std.specs.Prelude.{◌≡◌};
ghost use Rattle.call.specs.Rule.{decided, decided_held, request_unheld, decided_unheld, waiting};
ghost use Rattle.call.specs.Requests.{new_call};

use crate::events::{Event, Method, Request};
use crate::records::{After, Call, Highest, Outcome, accepted, refused};
use crate::requests::request;
use crate::responses::response;
use crate::ticks::tick;
use answers::{Reason, State, Waiting, Word};

// Who waits for the reply to a request.
fn waiting(m: Method) -> Waiting
    ensures { result ≡ waiting m }
{
    match m {
        Method::Ack => Waiting::Nobody,
        Method::Callback => Waiting::CallbackRequester,
        _ => Waiting::Requester,
    }
}

// The record of a new call.
fn new_call(number: u32, secure: bool, now: u64) -> Call
    ensures { result ≡ new_call number secure now }
{
    let caller = Highest {
        number,
        method: Method::Invite as u8,
    };
    let callee = Highest {
        number: 0,
        method: 0,
    };
    Call {
        state: State::Calling,
        secure,
        invite: number,
        caller,
        callee,
        last: now,
        entry: now,
        chat: now,
    }
}

// A request that names no call: an INVITE opens one, any other is 20.
fn request_unheld(r: Request, now: u64) -> Outcome
    ensures { result ≡ request_unheld r.method r now }
{
    match r.method {
        Method::Invite => Outcome {
            answer: accepted(Word::Pass, Some(State::Calling)),
            after: After::Set(new_call(r.number, r.secure, now)),
        },
        _ => refused(Reason::NoCall, waiting(r.method)),
    }
}

// An event on a call's record: 21 and 22, then what its kind says.
#[tactic(auto, unfolding(crate::specs::Rule::decided_held))]
fn decide_held(e: Event, now: u64, c: Call) -> Outcome
    ensures { result ≡ decided_held e now c }
{
    let (agrees, waits) = match &e {
        Event::Asks(r, agrees) => (*agrees, waiting(r.method)),
        Event::Replies(_, agrees) => (*agrees, Waiting::Nobody),
        Event::Tick => (true, Waiting::Nobody),
    };
    if !agrees {
        return refused(Reason::OtherParty, waits);
    }
    if now < c.last {
        return refused(Reason::Earlier, waits);
    }
    match e {
        Event::Asks(r, _) => request(r, now, c),
        Event::Replies(r, _) => response(r, now, c),
        Event::Tick => tick(now, c),
    }
}

// An event that names no call on record.
#[tactic(auto, unfolding(crate::specs::Rule::decided_unheld))]
fn decide_unheld(e: Event, now: u64) -> Outcome
    ensures { result ≡ decided_unheld e now }
{
    match e {
        Event::Asks(r, _) => request_unheld(r, now),
        Event::Replies(_, _) | Event::Tick => refused(Reason::NoCall, Waiting::Nobody),
    }
}

// What is answered to an event on a call's record, or on none, and what becomes of the record.
pub fn decide(held: Option<Call>, e: Event, now: u64) -> Outcome
    ensures { result ≡ decided held e now }
{
    match held {
        None => decide_unheld(e, now),
        Some(c) => decide_held(e, now, c),
    }
}
