// The library for C (libnet119.a, include/net119.h): the functions of the crate `net119` under their own names.
// Proved: each export answers what the function behind it answers, and leaves in each lent buffer what that leaves.
// A caller may hand over any bytes; what it must hold to about its pointers is in the header.
#![tactic(auto)]

ghost use Rattle.std.specs.Prelude.{◌≡◌, length};
ghost use Rattle.keeper.specs.Keeping.{on_message, on_tick};
ghost use Rattle.message.specs.Reading.{ample, reading, reporting};
ghost use Rattle.net119.specs.Flat.{flat_answer, flat_home_in, flat_position_in, flat_positions, flat_reading, flat_removed, flat_report, flat_written};
ghost use Rattle.table.specs.Blank.{blank_after, blank_answer, made_number};
ghost use Rattle.table.specs.WellFormed.{well_formed};
ghost use Rattle.writing.specs.Adding.{adding};
ghost use Rattle.writing.specs.Outcome.{answered, output_left};
ghost use Rattle.writing.specs.Removing.{host_in, removing, host_shown};
ghost use Rattle.writing.specs.Reply.{replying};
ghost use Rattle.writing.specs.Texting.{texting};

use net119::{
    CountAnswer, EventAnswer, HomeAnswer, PositionAnswer, PositionsAnswer, ReadAnswer,
    RemoveAnswer, WriteAnswer,
};

// Reads a message, at the program's ceiling.
#[unsafe(no_mangle)]
pub extern "C" fn net119_read(message: &[u8]) -> ReadAnswer
    ensures { result ≡ flat_reading (reading ample message.now) }
{
    net119::net119_read(message)
}

// Reads a message under a ceiling, and tells how many JSON values were visited.
#[unsafe(no_mangle)]
pub extern "C" fn net119_read_within(message: &[u8], ceiling: u32) -> CountAnswer
    ensures { result ≡ flat_report (reporting ceiling message.now) }
{
    net119::net119_read_within(message, ceiling)
}

// Makes a blank table of so many records: 0, or 1 where count or length is wrong.
#[unsafe(no_mangle)]
pub extern "C" fn net119_blank(table: &mut [u8], count: usize) -> u8
    ensures { (result ≡ made_number (blank_answer table.old count)) × (table.new ≡ blank_after table.old count) }
{
    net119::net119_blank(table, count)
}

// Whether a table is well-formed.
#[unsafe(no_mangle)]
pub extern "C" fn net119_well_formed(table: &[u8]) -> bool
    ensures { result ≡ well_formed table.now }
{
    net119::net119_well_formed(table)
}

// A message at a time, on a table, at the program's ceiling.
#[unsafe(no_mangle)]
pub extern "C" fn net119_message(table: &mut [u8], time: u64, message: &[u8]) -> EventAnswer
    ensures { (result ≡ flat_answer (on_message ample table.old time message.now).answer)
        × (table.new ≡ (on_message ample table.old time message.now).table) }
{
    net119::net119_message(table, time, message)
}

// The same under a ceiling.
#[unsafe(no_mangle)]
pub extern "C" fn net119_message_within(
    table: &mut [u8],
    time: u64,
    message: &[u8],
    ceiling: u32,
) -> EventAnswer
    ensures { (result ≡ flat_answer (on_message ceiling table.old time message.now).answer)
        × (table.new ≡ (on_message ceiling table.old time message.now).table) }
{
    net119::net119_message_within(table, time, message, ceiling)
}

// A tick for a Call-ID at a time, on a table.
#[unsafe(no_mangle)]
pub extern "C" fn net119_tick(table: &mut [u8], time: u64, call_id: &[u8]) -> EventAnswer
    ensures { (result ≡ flat_answer (on_tick table.old time call_id.now).answer)
        × (table.new ≡ (on_tick table.old time call_id.now).table) }
{
    net119::net119_tick(table, time, call_id)
}

// Writes the reply to a request.
#[unsafe(no_mangle)]
pub extern "C" fn net119_reply(
    out: &mut [u8],
    message: &[u8],
    code: u16,
    date: &[u8],
) -> WriteAnswer
    ensures { (result ≡ flat_written (answered (length out.old) (replying message.now code date.now)))
        × (out.new ≡ output_left out.old (replying message.now code date.now)) }
{
    net119::net119_reply(out, message, code, date)
}

// Writes a request with our Via entry added.
#[unsafe(no_mangle)]
pub extern "C" fn net119_add(
    out: &mut [u8],
    message: &[u8],
    host: &[u8],
    destination: &[u8],
    organization: &[u8],
) -> WriteAnswer
    ensures { (result ≡ flat_written (answered (length out.old) (adding message.now host.now destination.now organization.now)))
        × (out.new ≡ output_left out.old (adding message.now host.now destination.now organization.now)) }
{
    net119::net119_add(out, message, host, destination, organization)
}

// Writes a response with our Via entry taken off; where the next host stands in the message.
#[unsafe(no_mangle)]
pub extern "C" fn net119_remove(
    out: &mut [u8],
    message: &[u8],
    host: &[u8],
    destination: &[u8],
    organization: &[u8],
) -> RemoveAnswer
    ensures { (result ≡ flat_removed (host_shown (host_in (reading ample message.now)) (answered (length out.old) (removing message.now host.now destination.now organization.now))))
        × (out.new ≡ output_left out.old (removing message.now host.now destination.now organization.now)) }
{
    net119::net119_remove(out, message, host, destination, organization)
}

// Writes the text that a part of a message spells.
#[unsafe(no_mangle)]
pub extern "C" fn net119_text(out: &mut [u8], spelled: &[u8]) -> WriteAnswer
    ensures { (result ≡ flat_written (answered (length out.old) (texting spelled.now)))
        × (out.new ≡ output_left out.old (texting spelled.now)) }
{
    net119::net119_text(out, spelled)
}

// How many positions a message has, and whether it has a home.
#[unsafe(no_mangle)]
pub extern "C" fn net119_positions(message: &[u8]) -> PositionsAnswer
    ensures { result ≡ flat_positions message.now (reading ample message.now) }
{
    net119::net119_positions(message)
}

// One of them, counted from 0.
#[unsafe(no_mangle)]
pub extern "C" fn net119_position(message: &[u8], index: usize) -> PositionAnswer
    ensures { result ≡ flat_position_in message.now index (reading ample message.now) }
{
    net119::net119_position(message, index)
}

// The home.
#[unsafe(no_mangle)]
pub extern "C" fn net119_home(message: &[u8]) -> HomeAnswer
    ensures { result ≡ flat_home_in message.now (reading ample message.now) }
{
    net119::net119_home(message)
}
