// What the rule of one call is given: a record's numbers as a call, and back; a message's facts as an event.
ghost use Rattle.std.specs.Prelude.{◌≡◌};
ghost use Rattle.keeper.specs.Facts.{call_of, event_of, fields_from, method_of_code, side_of, state_of};
ghost use Rattle.keeper.specs.inner.Known.{Fitting};

use answers::State;
use call::{Call, Event, Highest, Method, Request, Response, Side};
use message::Message;
use table::Fields;

// The state of a record's number: a record in use has no other, and a conversion that may fail would want an answer for it.
#[tactic(auto, unfolding(crate::specs::Facts::state_of))]
fn state_of(n: u8) -> State
    ensures { result ≡ state_of n }
{
    match n {
        1 => State::Calling,
        2 => State::Ringing,
        3 => State::Answered,
        4 => State::Talking,
        5 => State::Ended,
        _ => State::Cancelling,
    }
}

// The method of a message's code, likewise.
#[tactic(auto, unfolding(crate::specs::Facts::method_of_code))]
fn method_of_code(n: u8) -> Method
    ensures { result ≡ method_of_code n }
{
    match n {
        1 => Method::Invite,
        2 => Method::Bye,
        3 => Method::Cancel,
        4 => Method::Ack,
        5 => Method::Message,
        6 => Method::Callback,
        7 => Method::Refer,
        _ => Method::Notify,
    }
}

fn side_of(caller: bool) -> Side
    ensures { result ≡ side_of caller }
{
    if caller { Side::Caller } else { Side::Callee }
}

// The numbers of a record in use, as a call. By their types they fit the bytes that a record has for them.
#[tactic(auto, unfolding(crate::specs::Facts::call_of))]
pub fn call_of(f: Fields) -> Call
    ensures { (result ≡ call_of f) × Fitting f }
{
    Call {
        state: state_of(f.state),
        secure: f.secure == 1,
        invite: f.invite,
        caller: Highest {
            number: f.caller,
            method: f.callermethod,
        },
        callee: Highest {
            number: f.callee,
            method: f.calleemethod,
        },
        last: f.last,
        entry: f.entry,
        chat: f.chat,
    }
}

// The numbers of a call, as a record has them.
#[tactic(auto, unfolding(crate::specs::Facts::fields_from))]
pub fn fields_from(c: Call) -> Fields
    ensures { result ≡ fields_from c }
{
    Fields {
        state: c.state as u8,
        secure: u8::from(c.secure),
        invite: c.invite,
        caller: c.caller.number,
        callermethod: c.caller.method,
        callee: c.callee.number,
        calleemethod: c.callee.method,
        last: c.last,
        entry: c.entry,
        chat: c.chat,
    }
}

// A request or a response, whose user and Fire-IDs are the record's or not.
#[tactic(auto, unfolding(crate::specs::Facts::event_of))]
pub fn event_of(m: Message, agrees: bool) -> Event
    ensures { result ≡ event_of m agrees }
{
    let method = method_of_code(m.method);
    let from = side_of(m.caller);
    if m.tag == 1 {
        let r = Request {
            method,
            number: m.number,
            from,
            secure: m.secure,
        };
        return Event::Asks(r, agrees);
    }
    let r = Response {
        method,
        number: m.number,
        from,
        status: m.status,
    };
    Event::Replies(r, agrees)
}
