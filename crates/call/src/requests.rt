// Requests on a call that has a record (01 Events).
ghost use Rattle.std.specs.Prelude.{◌≡◌};
ghost use Rattle.call.specs.Requests.{ack, admitted, bye, callback_in, cancel, chatted, highest_of, in_talk, invite, message, notify, numbered, refer, request};

use crate::events::{Method, Request, Side};
use crate::records::{Call, Highest, Outcome, goes, refused, since, stays, unchanged};
use answers::{Reason, State, Waiting, Word};

pub fn highest(side: Side, c: Call) -> Highest
    ensures { result ≡ highest_of side c }
{
    match side {
        Side::Caller => c.caller,
        Side::Callee => c.callee,
    }
}

fn numbered(side: Side, number: u32, method: u8, c: Call) -> Call
    ensures { result ≡ numbered side number method c }
{
    let h = Highest { number, method };
    match side {
        Side::Caller => Call { caller: h, ..c },
        Side::Callee => Call { callee: h, ..c },
    }
}

fn chatted(now: u64, c: Call) -> Call
    ensures { result ≡ chatted now c }
{
    Call { chat: now, ..c }
}

fn in_talk(s: State) -> bool
    ensures { result ≡ in_talk s }
{
    matches!(s, State::Answered | State::Talking)
}

// INVITE: same number repeat, else 24.
#[tactic(auto, unfolding(crate::specs::Requests::invite))]
fn invite(r: Request, c: Call) -> Outcome
    ensures { result ≡ invite r c }
{
    if r.number == c.invite {
        unchanged(Word::Repeat, c)
    } else {
        refused(Reason::NotNow, Waiting::Requester)
    }
}

// ACK: number not the INVITE's, 23.
#[tactic(auto, unfolding(crate::specs::Requests::ack))]
fn ack(r: Request, now: u64, c: Call) -> Outcome
    ensures { result ≡ ack r now c }
{
    if r.number != c.invite {
        return refused(Reason::WrongNumber, Waiting::Nobody);
    }
    match c.state {
        State::Answered => goes(Word::Pass, State::Talking, now, c),
        State::Talking => unchanged(Word::Repeat, c),
        _ => refused(Reason::NotNow, Waiting::Nobody),
    }
}

// CANCEL: number not the INVITE's, 23.
#[tactic(auto, unfolding(crate::specs::Requests::cancel))]
fn cancel(r: Request, now: u64, c: Call) -> Outcome
    ensures { result ≡ cancel r now c }
{
    if r.number != c.invite {
        return refused(Reason::WrongNumber, Waiting::Requester);
    }
    match c.state {
        State::Calling | State::Ringing => goes(Word::Pass, State::Cancelling, now, c),
        _ => unchanged(Word::Repeat, c),
    }
}

// BYE, MESSAGE, NOTIFY, REFER: the call with its side's number and method set, or what the request stops with: repeat, 23, 24.
#[tactic(auto, unfolding(crate::specs::Requests::admitted))]
fn admit(r: Request, c: Call) -> Result<Call, Outcome>
    ensures { result ≡ admitted r c }
{
    let h = highest(r.from, c);
    let m = r.method as u8;
    if r.number == h.number && m == h.method {
        return Err(unchanged(Word::Repeat, c));
    }
    if r.number <= h.number {
        return Err(refused(Reason::WrongNumber, Waiting::Requester));
    }
    if in_talk(c.state) {
        Ok(numbered(r.from, r.number, m, c))
    } else {
        Err(refused(Reason::NotNow, Waiting::Requester))
    }
}

// BYE goes to 5.
#[tactic(auto, unfolding(crate::specs::Requests::bye))]
fn bye(r: Request, now: u64, c: Call) -> Outcome
    ensures { result ≡ bye r now c }
{
    match admit(r, c) {
        Err(o) => o,
        Ok(d) => goes(Word::Pass, State::Ended, now, d),
    }
}

// MESSAGE sets the chat time.
#[tactic(auto, unfolding(crate::specs::Requests::message))]
fn message(r: Request, now: u64, c: Call) -> Outcome
    ensures { result ≡ message r now c }
{
    match admit(r, c) {
        Err(o) => o,
        Ok(d) => stays(Word::Pass, now, chatted(now, d)),
    }
}

#[tactic(auto, unfolding(crate::specs::Requests::notify))]
fn notify(r: Request, now: u64, c: Call) -> Outcome
    ensures { result ≡ notify r now c }
{
    match admit(r, c) {
        Err(o) => o,
        Ok(d) => stays(Word::Pass, now, d),
    }
}

// REFER where the call is not secure, 25.
#[tactic(auto, unfolding(crate::specs::Requests::refer))]
fn refer(r: Request, now: u64, c: Call) -> Outcome
    ensures { result ≡ refer r now c }
{
    match admit(r, c) {
        Err(o) => o,
        Ok(d) => {
            if d.secure {
                stays(Word::Pass, now, d)
            } else {
                refused(Reason::NotSecure, Waiting::Requester)
            }
        }
    }
}

// CALLBACK within the hour after the end; later 26; else 24.
fn callback(now: u64, c: Call) -> Outcome
    ensures { result ≡ callback_in c.state now c }
{
    match c.state {
        State::Ended => {
            if since(now, c.entry) <= 3600000 {
                stays(Word::Pass, now, c)
            } else {
                refused(Reason::TooLate, Waiting::CallbackRequester)
            }
        }
        _ => refused(Reason::NotNow, Waiting::CallbackRequester),
    }
}

// By the request's method.
#[tactic(auto, unfolding(crate::specs::Requests::request))]
pub fn request(r: Request, now: u64, c: Call) -> Outcome
    ensures { result ≡ request r.method r now c }
{
    match r.method {
        Method::Invite => invite(r, c),
        Method::Bye => bye(r, now, c),
        Method::Cancel => cancel(r, now, c),
        Method::Ack => ack(r, now, c),
        Method::Message => message(r, now, c),
        Method::Callback => callback(now, c),
        Method::Refer => refer(r, now, c),
        Method::Notify => notify(r, now, c),
    }
}
