// The public entries of the crates below, with flat answers: what the library for C hands on.
// Proved: each function answers what the entry behind it answers, and leaves in each lent buffer what that leaves.
// A caller may hand over any bytes; the exports themselves are the crate `net119_c`.
#![tactic(auto)]

mod flat;

ghost use Rattle.std.specs.Prelude.{◌≡◌, length};
ghost use Rattle.keeper.specs.Keeping.{on_message, on_tick};
ghost use Rattle.message.specs.Reading.{ample, reading, reporting};
ghost use Rattle.net119.specs.Flat.{flat_answer, flat_home_in, flat_position_in, flat_positions, flat_reading, flat_removed, flat_report, flat_written};
ghost use Rattle.table.specs.Blank.{blank_after, blank_answer, made_number};
ghost use Rattle.table.specs.WellFormed.{well_formed};
ghost use Rattle.writing.specs.Adding.{adding};
ghost use Rattle.writing.specs.Outcome.{answered, output_left};
ghost use Rattle.writing.specs.Removing.{host_in, removing, host_shown};
ghost use Rattle.writing.specs.Reply.{replying};
ghost use Rattle.writing.specs.Texting.{texting};

pub use flat::{
    CountAnswer, EventAnswer, HomeAnswer, PositionAnswer, PositionsAnswer, ReadAnswer,
    RemoveAnswer, WriteAnswer,
};
use flat::{no_home, no_position};
use message::AMPLE;
use positions::{accept, count, home, position};
use writing::Path;

// Reads a message, at the program's ceiling.
pub fn net119_read(message: &[u8]) -> ReadAnswer
    ensures { result ≡ flat_reading (reading ample message.now) }
{
    message::read(message, AMPLE).into()
}

// Reads a message under a ceiling, and tells how many JSON values were visited.
pub fn net119_read_within(message: &[u8], ceiling: u32) -> CountAnswer
    ensures { result ≡ flat_report (reporting ceiling message.now) }
{
    message::read_and_count(message, ceiling).into()
}

// Makes a blank table of so many records: 0, or 1 where count or length is wrong.
pub fn net119_blank(table: &mut [u8], count: usize) -> u8
    ensures { (result ≡ made_number (blank_answer table.old count)) × (table.new ≡ blank_after table.old count) }
{
    match table::blank(table, count) {
        Ok(()) => 0,
        Err(_) => 1,
    }
}

// Whether a table is well-formed.
pub fn net119_well_formed(table: &[u8]) -> bool
    ensures { result ≡ well_formed table.now }
{
    table::well_formed(table)
}

// A message at a time, on a table, at the program's ceiling.
pub fn net119_message(table: &mut [u8], time: u64, message: &[u8]) -> EventAnswer
    ensures { (result ≡ flat_answer (on_message ample table.old time message.now).answer)
        × (table.new ≡ (on_message ample table.old time message.now).table) }
{
    net119_message_within(table, time, message, AMPLE)
}

// The same under a ceiling.
pub fn net119_message_within(
    table: &mut [u8],
    time: u64,
    message: &[u8],
    ceiling: u32,
) -> EventAnswer
    ensures { (result ≡ flat_answer (on_message ceiling table.old time message.now).answer)
        × (table.new ≡ (on_message ceiling table.old time message.now).table) }
{
    keeper::message(table, time, message, ceiling).into()
}

// A tick for a Call-ID at a time, on a table.
pub fn net119_tick(table: &mut [u8], time: u64, call_id: &[u8]) -> EventAnswer
    ensures { (result ≡ flat_answer (on_tick table.old time call_id.now).answer)
        × (table.new ≡ (on_tick table.old time call_id.now).table) }
{
    keeper::tick(table, time, call_id).into()
}

// Writes the reply to a request.
pub fn net119_reply(out: &mut [u8], message: &[u8], code: u16, date: &[u8]) -> WriteAnswer
    ensures { (result ≡ flat_written (answered (length out.old) (replying message.now code date.now)))
        × (out.new ≡ output_left out.old (replying message.now code date.now)) }
{
    writing::reply(out, message, code, date).into()
}

// Writes a request with our Via entry added.
pub fn net119_add(
    out: &mut [u8],
    message: &[u8],
    host: &[u8],
    destination: &[u8],
    organization: &[u8],
) -> WriteAnswer
    ensures { (result ≡ flat_written (answered (length out.old) (adding message.now host.now destination.now organization.now)))
        × (out.new ≡ output_left out.old (adding message.now host.now destination.now organization.now)) }
{
    writing::add(
        out,
        message,
        Path {
            host,
            destination,
            organization,
        },
    )
    .into()
}

// Writes a response with our Via entry taken off; where the next host stands in the message.
pub fn net119_remove(
    out: &mut [u8],
    message: &[u8],
    host: &[u8],
    destination: &[u8],
    organization: &[u8],
) -> RemoveAnswer
    ensures { (result ≡ flat_removed (host_shown (host_in (reading ample message.now)) (answered (length out.old) (removing message.now host.now destination.now organization.now))))
        × (out.new ≡ output_left out.old (removing message.now host.now destination.now organization.now)) }
{
    writing::remove(
        out,
        message,
        Path {
            host,
            destination,
            organization,
        },
    )
    .into()
}

// Writes the text that a part of a message spells.
pub fn net119_text(out: &mut [u8], spelled: &[u8]) -> WriteAnswer
    ensures { (result ≡ flat_written (answered (length out.old) (texting spelled.now)))
        × (out.new ≡ output_left out.old (texting spelled.now)) }
{
    writing::text(out, spelled).into()
}

// How many positions a message has, and whether it has a home.
pub fn net119_positions(message: &[u8]) -> PositionsAnswer
    ensures { result ≡ flat_positions message.now (reading ample message.now) }
{
    match accept(message) {
        Err(e) => PositionsAnswer {
            number: e.number(),
            home: false,
            place: e.place(),
            count: 0,
        },
        Ok(a) => PositionsAnswer {
            number: 0,
            home: home(message, &a).is_some(),
            place: 0,
            count: count(message, &a),
        },
    }
}

// One of them, counted from 0.
pub fn net119_position(message: &[u8], index: usize) -> PositionAnswer
    ensures { result ≡ flat_position_in message.now index (reading ample message.now) }
{
    match accept(message) {
        Err(e) => no_position(e.number(), e.place()),
        Ok(a) => position(message, &a, index).into(),
    }
}

// The home.
pub fn net119_home(message: &[u8]) -> HomeAnswer
    ensures { result ≡ flat_home_in message.now (reading ample message.now) }
{
    match accept(message) {
        Err(e) => no_home(e.number(), e.place()),
        Ok(a) => home(message, &a).into(),
    }
}
