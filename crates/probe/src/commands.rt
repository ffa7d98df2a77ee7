// One line: what it shows, and what it does to the held table and to the ceiling.
ghost use Rattle.std.specs.Prelude.{◌≡◌, ◌≤◌, length, take};
ghost use Rattle.probe.specs.Commands.{command_done, line_done, plain_done};
ghost use Rattle.probe.specs.Effect.{holding};
ghost use Rattle.probe.specs.inner.Turned.{Finishes, Turned};

use crate::ceilings::set_ceiling;
use crate::events::happen;
use crate::tables::{Answered, answer_unknown, blank, dump, hold};
use octets::same;
use showing::{ask, first, has_space, rest};

// A command but `ceiling`, and its words.
fn obey_plain(
    out: &mut [u8; 800000],
    held: &mut [u8; 65536],
    size: usize,
    bytes: &mut [u8; 85000],
    room: &mut [u8; 40000],
    name: &[u8],
    words: &[u8],
    ceiling: u32,
) -> Answered
    requires { (size ≤ 65536) × (length words.now ≤ 170000) }
    ensures { Turned (plain_done ceiling (take size held.old) name.now words.now) out.old result.len out.new result.size held.new }
{
    if same(name, b"msg") {
        return Answered {
            len: happen(out, held, size, bytes, words, false, ceiling),
            size: size,
        };
    }
    if same(name, b"tick") {
        return Answered {
            len: happen(out, held, size, bytes, words, true, ceiling),
            size: size,
        };
    }
    if same(name, b"blank") {
        return blank(out, held, size, words);
    }
    if same(name, b"table") {
        return hold(out, held, size, words);
    }
    Answered {
        len: ask(out, bytes, room, name, words, ceiling),
        size: size,
    }
}

// The length of an answer, and the size of the held table and the ceiling after it.
#[derive(Drop)]
pub struct Finished {
    pub len: usize,
    pub size: usize,
    pub ceiling: u32,
}

// The ceiling stays.
fn keep_ceiling(a: Answered, ceiling: u32) -> Finished
    ensures { (result.len ≡ a.len) × ((result.size ≡ a.size) × (result.ceiling ≡ ceiling)) }
{
    Finished {
        len: a.len,
        size: a.size,
        ceiling,
    }
}

// A command and its words.
fn obey(
    out: &mut [u8; 800000],
    held: &mut [u8; 65536],
    size: usize,
    bytes: &mut [u8; 85000],
    room: &mut [u8; 40000],
    name: &[u8],
    words: &[u8],
    ceiling: u32,
) -> Finished
    requires { (size ≤ 65536) × (length words.now ≤ 170000) }
    ensures { Finishes (command_done (holding ceiling (take size held.old)) name.now words.now) out.old result.len out.new result.ceiling result.size held.new }
{
    if same(name, b"ceiling") {
        let set = set_ceiling(out, ceiling, words);
        return Finished {
            len: set.len,
            size: size,
            ceiling: set.ceiling,
        };
    }
    let a = obey_plain(out, held, size, bytes, room, name, words, ceiling);
    keep_ceiling(a, ceiling)
}

// Answers a line. One of more than 170,000 bytes is answered `?`.
pub fn answer(
    out: &mut [u8; 800000],
    held: &mut [u8; 65536],
    size: usize,
    bytes: &mut [u8; 85000],
    room: &mut [u8; 40000],
    line: &[u8],
    ceiling: u32,
) -> Finished
    requires { size ≤ 65536 }
    ensures { Finishes (line_done (holding ceiling (take size held.old)) line.now) out.old result.len out.new result.ceiling result.size held.new }
{
    if 170000 < line.len() {
        return keep_ceiling(answer_unknown(out, size), ceiling);
    }
    if same(line, b"dump") {
        let shown = Answered {
            len: dump(out, held, size),
            size: size,
        };
        return keep_ceiling(shown, ceiling);
    }
    if !has_space(line) {
        return keep_ceiling(answer_unknown(out, size), ceiling);
    }
    obey(
        out,
        held,
        size,
        bytes,
        room,
        first(line),
        rest(line),
        ceiling,
    )
}
