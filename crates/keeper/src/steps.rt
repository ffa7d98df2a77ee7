// An event on a table that is well-formed: the same as the public entries of this crate, without the test of the whole image. For
// proved callers, who know their table to be well-formed; it is again afterwards.
ghost use Rattle.std.specs.Prelude.{true, ◌≡◌, ◌<◌};
ghost use Rattle.values.specs.Spans.{cut};
ghost use Rattle.keeper.specs.Keeping.{agrees_at, asked_at, table_after, on_message, on_tick, record_for, room_for, taken, taken_at, ticked_at};
ghost use Rattle.message.specs.inner.Named.{Named};
ghost use Rattle.message.specs.Parties.{call_id_of};
ghost use Rattle.table.specs.Image.{record_at, record_count, with_record};
ghost use Rattle.table.specs.Record.{same_parties};
ghost use Rattle.table.specs.Search.{place_named};
ghost use Rattle.table.specs.WellFormed.{well_formed};

use crate::facts::{call_of, event_of, fields_from};
use answers::{Answer, Reason, Refusal, Waiting};
use call::{After, Call, Event};
use escapes::{Decoded, is_escaped};
use message::Message;

// Leaves in record k what becomes of it.
fn leave(t: &mut [u8], k: usize, after: After)
    requires { k < record_count t.old }
    ensures { t.new ≡ table_after t.old k after }
{
    match after {
        After::Same => {}
        After::Set(c) => table::store(t, k, fields_from(c)),
        After::Free => table::release(t, k),
    }
}

// A Call-ID has at most 64 bytes, an address 45.
type Text = Decoded<64>;

// Puts a new call into record k, with the texts that its message spells.
fn open_at(t: &mut [u8], k: usize, s: &[u8], m: Message, c: Call)
    requires { (k < record_count t.old) × Named s.now m }
    ensures { t.new ≡ with_record t.old k (record_for s.now m c) }
{
    let spelled = message::call_id(s, m);
    let named = Text::of(spelled);
    let calling = Text::of(message::caller_address(s, m));
    let called = Text::of(message::callee_address(s, m));
    let id = named.text();
    let caller = calling.text();
    let callee = called.text();
    let user = message::user(caller, m);
    let caller_fire = message::caller_fire(caller, m);
    let callee_fire = message::callee_fire(callee, m);
    table::open(t, k, id, user, caller_fire, callee_fire, fields_from(c));
}

// Whether user and both Fire-IDs of a message are those of record k, by the texts of its addresses.
fn are_parties(t: &[u8], k: usize, m: Message, caller: &[u8], callee: &[u8]) -> bool
    requires { k < record_count t.now }
    ensures { result ≡ same_parties (cut caller.now m.user) (cut caller.now m.callerfire) (cut callee.now m.calleefire) (record_at t.now k) }
{
    let user = message::user(caller, m);
    let caller_fire = message::caller_fire(caller, m);
    let callee_fire = message::callee_fire(callee, m);
    table::same_parties(t, k, user, caller_fire, callee_fire)
}

// The same, the addresses decoded.
fn agrees_decoded(t: &[u8], k: usize, s: &[u8], m: Message) -> bool
    requires { (k < record_count t.now) × Named s.now m }
    ensures { result ≡ agrees_at t.now s.now m k }
{
    let calling = Text::of(message::caller_address(s, m));
    let called = Text::of(message::callee_address(s, m));
    let caller = calling.text();
    let callee = called.text();
    are_parties(t, k, m, caller, callee)
}

// The same. An address ends seven bytes behind its Fire-ID: one that is no longer as it is spelled has no escape, and is not decoded.
fn agrees_at(t: &[u8], k: usize, s: &[u8], m: Message) -> bool
    requires { (k < record_count t.now) × Named s.now m }
    ensures { result ≡ agrees_at t.now s.now m k }
{
    let caller = message::caller_address(s, m);
    let callee = message::callee_address(s, m);
    let a = m.callerfire;
    let b = m.calleefire;
    if caller.len() != a.end + 7 || callee.len() != b.end + 7 {
        return agrees_decoded(t, k, s, m);
    }
    are_parties(t, k, m, caller, callee)
}

// The record of the call that a message names. No Call-ID of a record has a backslash: the bytes are tried as they stand, and decoded only where
// they are not found.
fn find_call(t: &[u8], s: &[u8], m: Message) -> Option<usize>
    requires { (well_formed t.now ≡ true) × Named s.now m }
    ensures { result ≡ place_named (call_id_of s.now m) t.now }
{
    let w = message::call_id(s, m);
    if let Some(k) = table::find(t, w) {
        return Some(k);
    }
    if !is_escaped(w) {
        return None;
    }
    let named = Text::of(w);
    table::find(t, named.text())
}

// A new call takes the lowest free record; 27 where there is none.
fn take_at(t: &mut [u8], s: &[u8], m: Message, a: Answer, c: Call) -> Answer
    requires { Named s.now m }
    ensures { (result ≡ (taken_at t.old s.now m a c (room_for t.old m)).answer)
        × (t.new ≡ (taken_at t.old s.now m a c (room_for t.old m)).table) }
{
    match table::free_place(t) {
        Some(k) => {
            open_at(t, k, s, m, c);
            a
        }
        None => Err(Refusal::Call(Reason::NoRoom, Waiting::Requester)),
    }
}

// A message that names no call on record: what it opens, if it opens one, is taken in.
fn take(t: &mut [u8], s: &[u8], m: Message, a: Answer, after: After) -> Answer
    requires { Named s.now m }
    ensures { (result ≡ (taken t.old s.now m a after).answer)
        × (t.new ≡ (taken t.old s.now m a after).table) }
{
    match after {
        After::Set(c) => take_at(t, s, m, a, c),
        After::Same | After::Free => a,
    }
}

// A request or a response on the record of its call, or on none.
fn ask(t: &mut [u8], time: u64, s: &[u8], m: Message) -> Answer
    requires { (well_formed t.old ≡ true) × Named s.now m }
    ensures { (result ≡ (asked_at t.old time s.now m (place_named (call_id_of s.now m) t.old)).answer)
        × (t.new ≡ (asked_at t.old time s.now m (place_named (call_id_of s.now m) t.old)).table)
        × (well_formed t.new ≡ true) }
{
    match find_call(t, s, m) {
        Some(k) => {
            let agrees = agrees_at(t, k, s, m);
            let c = call_of(table::fields_at(t, k));
            let o = call::decide(Some(c), event_of(m, agrees), time);
            leave(t, k, o.after);
            o.answer
        }
        None => {
            let o = call::decide(None, event_of(m, false), time);
            take(t, s, m, o.answer, o.after)
        }
    }
}

// A message.
pub fn message_step(t: &mut [u8], time: u64, s: &[u8], ceiling: u32) -> Answer
    requires { well_formed t.old ≡ true }
    ensures { (result ≡ (on_message ceiling t.old time s.now).answer)
        × (t.new ≡ (on_message ceiling t.old time s.now).table)
        × (well_formed t.new ≡ true) }
{
    match message::read(s, ceiling) {
        Err(e) => Err(Refusal::Reading(e.number(), e.place())),
        Ok(m) => {
            if 2 < m.tag {
                return Err(Refusal::PingPong);
            }
            ask(t, time, s, m)
        }
    }
}

// A tick on the record of its call, or on none.
fn ticked(t: &mut [u8], time: u64, id: &[u8]) -> Answer
    requires { well_formed t.old ≡ true }
    ensures { (result ≡ (ticked_at t.old time (place_named id.now t.old)).answer)
        × (t.new ≡ (ticked_at t.old time (place_named id.now t.old)).table)
        × (well_formed t.new ≡ true) }
{
    match table::find(t, id) {
        Some(k) => {
            let c = call_of(table::fields_at(t, k));
            let o = call::decide(Some(c), Event::Tick, time);
            leave(t, k, o.after);
            o.answer
        }
        None => call::decide(None, Event::Tick, time).answer,
    }
}

// A tick for a Call-ID.
pub fn tick_step(t: &mut [u8], time: u64, id: &[u8]) -> Answer
    requires { well_formed t.old ≡ true }
    ensures { (result ≡ (on_tick t.old time id.now).answer)
        × (t.new ≡ (on_tick t.old time id.now).table)
        × (well_formed t.new ≡ true) }
{
    if !rules::is_call_id(id) {
        return Err(Refusal::Reading(9, 0));
    }
    ticked(t, time, id)
}
