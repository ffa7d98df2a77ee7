// Responses on a call that has a record (01 Events). Nobody waits for a reply to a response.
ghost use Rattle.std.specs.Prelude.{◌≡◌};
ghost use Rattle.answers.specs.declared.Reason.TheVariants.{NotNow};
ghost use Rattle.answers.specs.declared.Waiting.TheVariants.{Nobody};
ghost use Rattle.call.specs.Outcomes.{refused};
ghost use Rattle.call.specs.Responses.{failure, progress, response, response_in, success, to_callback, to_invite, to_inviting, to_within};

use crate::events::{Method, Response};
use crate::records::{Call, Outcome, goes, refused, stays};
use crate::requests::highest;
use answers::{Reason, State, Waiting, Word};

fn not_now() -> Outcome
    ensures { result ≡ refused NotNow Nobody }
{
    refused(Reason::NotNow, Waiting::Nobody)
}

// To INVITE, 1xx. 100 leaves the state and its entry time: it does not stop the 15 second limit.
fn progress(status: u16, now: u64, c: Call) -> Outcome
    ensures { result ≡ progress c.state status now c }
{
    match c.state {
        State::Calling => {
            if status == 180 {
                goes(Word::Pass, State::Ringing, now, c)
            } else {
                stays(Word::Pass, now, c)
            }
        }
        State::Ringing | State::Cancelling => stays(Word::Pass, now, c),
        _ => not_now(),
    }
}

// To INVITE, 2xx.
fn success(now: u64, c: Call) -> Outcome
    ensures { result ≡ success c.state now c }
{
    match c.state {
        State::Calling | State::Ringing => goes(Word::Pass, State::Answered, now, c),
        State::Answered | State::Talking => stays(Word::Pass, now, c),
        State::Ended => stays(Word::Bye, now, c),
        State::Cancelling => goes(Word::Bye, State::Ended, now, c),
    }
}

// To INVITE, 300 up.
fn failure(now: u64, c: Call) -> Outcome
    ensures { result ≡ failure c.state now c }
{
    match c.state {
        State::Calling | State::Ringing | State::Cancelling => goes(
            Word::Pass,
            State::Ended,
            now,
            c,
        ),
        _ => not_now(),
    }
}

// To INVITE: number differs, 23; then by the status.
#[tactic(auto, unfolding(crate::specs::Responses::to_invite))]
fn to_invite(r: Response, now: u64, c: Call) -> Outcome
    ensures { result ≡ to_invite r now c }
{
    if r.number != c.invite {
        return refused(Reason::WrongNumber, Waiting::Nobody);
    }
    if r.status < 200 {
        return progress(r.status, now, c);
    }
    if r.status < 300 {
        success(now, c)
    } else {
        failure(now, c)
    }
}

// 3, 4, 5 pass; 6 where `six`; else 24.
fn response_in(six: bool, now: u64, c: Call) -> Outcome
    ensures { result ≡ response_in c.state six now c }
{
    match c.state {
        State::Answered | State::Talking | State::Ended => stays(Word::Pass, now, c),
        State::Cancelling if six => stays(Word::Pass, now, c),
        _ => not_now(),
    }
}

// To BYE, MESSAGE, NOTIFY, REFER: number above From's highest, 23.
#[tactic(auto, unfolding(crate::specs::Responses::to_within))]
fn to_within(r: Response, now: u64, c: Call) -> Outcome
    ensures { result ≡ to_within r now c }
{
    if highest(r.from, c).number < r.number {
        refused(Reason::WrongNumber, Waiting::Nobody)
    } else {
        response_in(false, now, c)
    }
}

// To CANCEL, ACK: number not the INVITE's, 23.
#[tactic(auto, unfolding(crate::specs::Responses::to_inviting))]
fn to_inviting(six: bool, r: Response, now: u64, c: Call) -> Outcome
    ensures { result ≡ to_inviting six r now c }
{
    if r.number == c.invite {
        response_in(six, now, c)
    } else {
        refused(Reason::WrongNumber, Waiting::Nobody)
    }
}

// To CALLBACK: 5 pass, else 24.
fn to_callback(now: u64, c: Call) -> Outcome
    ensures { result ≡ to_callback c.state now c }
{
    match c.state {
        State::Ended => stays(Word::Pass, now, c),
        _ => not_now(),
    }
}

// By the method of its request.
#[tactic(auto, unfolding(crate::specs::Responses::response))]
pub fn response(r: Response, now: u64, c: Call) -> Outcome
    ensures { result ≡ response r.method r now c }
{
    match r.method {
        Method::Invite => to_invite(r, now, c),
        Method::Cancel => to_inviting(true, r, now, c),
        Method::Ack => to_inviting(false, r, now, c),
        Method::Callback => to_callback(now, c),
        Method::Bye | Method::Message | Method::Refer | Method::Notify => to_within(r, now, c),
    }
}
