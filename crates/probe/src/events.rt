// `msg` and `tick`.
ghost use Rattle.std.specs.Prelude.{◌≡◌, ◌≤◌, length, take, Err};
ghost use Rattle.keeper.specs.Keeping.{on_message, on_tick};
ghost use Rattle.probe.specs.Events.{accepted_text, event_done, event_on, event_text, step_done};
ghost use Rattle.probe.specs.inner.Turned.{Turned};
ghost use Rattle.showing.specs.Shown.{Puts};

use answers::{Answer, Refusal};
use octets::put;
use showing::{first, has_space, number, put_number, put_unknown, rest, take_bytes};

// An acceptance's word and state, as in the program's lines.
fn put_accepted(out: &mut [u8; 800000], a: Answer) -> usize
    ensures { Puts out.old (accepted_text a) result out.new }
{
    let behind = put(out, 0, b"ok");
    lines::write_answer(out, behind, b"", a).unwrap_or(behind)
}

// A refusal's number, place and reply.
fn put_refused(out: &mut [u8; 800000], f: Refusal) -> usize
    ensures { Puts out.old (event_text (Err f)) result out.new }
{
    let before_number = put(out, 0, b"no ");
    let before_place = put_number(out, before_number, f.number() as u64, b" ");
    let before_reply = put_number(out, before_place, f.place() as u64, b" ");
    put_number(out, before_reply, f.reply() as u64, b"\n")
}

// What an event is answered.
fn put_event(out: &mut [u8; 800000], a: Answer) -> usize
    ensures { Puts out.old (event_text a) result out.new }
{
    match a {
        Ok(_) => put_accepted(out, a),
        Err(f) => put_refused(out, f),
    }
}

// A tick on the held table of so many bytes.
fn tick_on(held: &mut [u8], size: usize, s: &[u8], time: u64) -> Answer
    requires { size ≤ length held.old }
    ensures { (result ≡ (on_tick (take size held.old) time s.now).answer) × (take size held.new ≡ (on_tick (take size held.old) time s.now).table) }
{
    keeper::tick(&mut held[0..size], time, s)
}

// A message on it, under a ceiling.
fn message_on(held: &mut [u8], size: usize, s: &[u8], time: u64, ceiling: u32) -> Answer
    requires { size ≤ length held.old }
    ensures { (result ≡ (on_message ceiling (take size held.old) time s.now).answer) × (take size held.new ≡ (on_message ceiling (take size held.old) time s.now).table) }
{
    keeper::message(&mut held[0..size], time, s, ceiling)
}

// The one or the other.
fn event(held: &mut [u8], size: usize, s: &[u8], time: u64, tick: bool, ceiling: u32) -> Answer
    requires { size ≤ length held.old }
    ensures { (result ≡ (event_on ceiling (take size held.old) tick time s.now).answer) × (take size held.new ≡ (event_on ceiling (take size held.old) tick time s.now).table) }
{
    if tick {
        tick_on(held, size, s, time)
    } else {
        message_on(held, size, s, time, ceiling)
    }
}

// An event with the first n bytes of `bytes`, and writes its answer.
fn happens(
    out: &mut [u8; 800000],
    held: &mut [u8; 65536],
    size: usize,
    bytes: &[u8; 85000],
    n: usize,
    time: u64,
    tick: bool,
    ceiling: u32,
) -> usize
    requires { (size ≤ 65536) × (n ≤ 85000) }
    ensures { Turned (step_done (event_on ceiling (take size held.old) tick time (take n bytes.now))) out.old result out.new size held.new }
{
    let s: &[u8] = bytes;
    put_event(out, event(held, size, &s[0..n], time, tick, ceiling))
}

// `msg TIME HEX` and `tick TIME HEX`.
pub fn happen(
    out: &mut [u8; 800000],
    held: &mut [u8; 65536],
    size: usize,
    bytes: &mut [u8; 85000],
    words: &[u8],
    tick: bool,
    ceiling: u32,
) -> usize
    requires { (size ≤ 65536) × (length words.now ≤ 170000) }
    ensures { Turned (event_done ceiling (take size held.old) tick words.now) out.old result out.new size held.new }
{
    if !has_space(words) {
        return put_unknown(out);
    }
    let Some(n) = take_bytes(bytes, 0, rest(words)) else {
        return put_unknown(out);
    };
    let Some(time) = number(first(words)) else {
        return put_unknown(out);
    };
    happens(out, held, size, bytes, n, time, tick, ceiling)
}
