// The probe: one command a line, every answer in full: `read`, `positions`, `blank`, `table`, `dump`, `msg`, `tick`, `ceiling`, `reply`, `add` and
// `remove`; anything else is answered `?`. It holds one table, at first 255 blank records, and a ceiling, at first 16,384.
// Proved: what each line is answered, byte for byte, and the table and the ceiling that are held after it; what becomes of the open line
// and of these turn by turn. The answer is then handed to `write`. Where a write or a read fails it says so on standard error and ends, and nothing
// more is written.
#![tactic(auto)]

mod ceilings;
mod commands;
mod events;
mod tables;

ghost use Rattle.std.specs.Prelude.{false, true, ◌≡◌, ◌<◌, ◌≤◌, ltb, drop, length, take};
ghost use Rattle.lines.specs.Input.{last_line};
ghost use Rattle.lines.specs.Log.{log_held, log_text};
ghost use Rattle.lines.specs.inner.Running.{Works, Reached, Stepped};
ghost use Rattle.message.specs.Reading.{ample};
ghost use Rattle.probe.specs.Commands.{line_done};
ghost use Rattle.probe.specs.Effect.{holding};
ghost use Rattle.probe.specs.inner.Turned.{Finishes};
ghost use Rattle.table.specs.Blank.{blank_of};

use commands::{Finished, answer};
use lines::Next;
use message::AMPLE;
use streams::Sent;
use tables::make_blank;

// Where a run stands: the size of the held table, the ceiling, how many bytes of the open line are kept, the place in the piece and the piece's end,
// how many bytes the last turn handed to `write` (of which only the contracts speak), whether to go on, and whether the input has
// ended.
#[derive(Drop)]
struct State {
    size: usize,
    ceiling: u32,
    len: usize,
    from: usize,
    n: usize,
    end: usize,
    go: bool,
    ended: bool,
}

// Hands the first n bytes of the output buffer to `write`.
fn hand_on(rt: &HostRuntime, out: &[u8], n: usize) -> Sent
    requires { n ≤ length out.now }
    ensures { (result.n ≡ n) × (result.n ≡ 0 → result.went ≡ true) }
{
    streams::write(
        &mut rt.stdout(),
        &mut rt.stderr(),
        &out[0..n],
        b"probe: standard output",
    )
}

// The next piece: what a read puts at the buffer's front.
fn fetch(rt: &HostRuntime, buf: &mut [u8; 16384], size: usize, ceiling: u32, len: usize) -> State
    ensures { (result.size ≡ size) × (result.ceiling ≡ ceiling) × (result.len ≡ len) × (result.from ≡ 0) × (result.n ≤ 16384) × (result.end ≡ 0) × (result.go ≡ ltb 0 result.n) × (result.ended ≡ true → result.n ≡ 0) }
{
    let g = streams::read(
        &mut rt.stdin(),
        &mut rt.stderr(),
        buf,
        b"probe: standard input",
    );
    State {
        size: size,
        ceiling: ceiling,
        len: len,
        from: 0,
        n: g.n,
        end: 0,
        go: 0 < g.n,
        ended: g.ended,
    }
}

// A line that is kept at the buffer's front, or as much of it as there is room for.
fn answer_kept(
    out: &mut [u8; 800000],
    held: &mut [u8; 65536],
    size: usize,
    bytes: &mut [u8; 85000],
    room: &mut [u8; 40000],
    line: &[u8],
    len: usize,
    ceiling: u32,
) -> Finished
    requires { (size ≤ 65536) × (len ≤ length line.now) }
    ensures { Finishes (line_done (holding ceiling (take size held.old)) (take len line.now)) out.old result.len out.new result.ceiling result.size held.new }
{
    answer(out, held, size, bytes, room, &line[0..len], ceiling)
}

// A line was answered, and the next one begins at a place of the piece: its answer is handed on.
fn told(rt: &HostRuntime, out: &[u8], a: Finished, from: usize, n: usize) -> State
    requires { a.len ≤ length out.now }
    ensures { (result.size ≡ a.size) × (result.ceiling ≡ a.ceiling) × (result.len ≡ 0) × (result.from ≡ from) × (result.n ≡ n) × (result.end ≡ a.len) × (result.ended ≡ false) × (result.end ≡ 0 → result.go ≡ true) }
{
    let sent = hand_on(rt, out, a.len);
    State {
        size: a.size,
        ceiling: a.ceiling,
        len: 0,
        from: from,
        n: n,
        end: sent.n,
        go: sent.went,
        ended: false,
    }
}

// The next line of the piece's rest, and its answer handed on; or what is left of the piece kept, where no line ends in it.
fn piece(
    rt: &HostRuntime,
    out: &mut [u8; 800000],
    held: &mut [u8; 65536],
    bytes: &mut [u8; 85000],
    room: &mut [u8; 40000],
    line: &mut [u8; 170001],
    s: &[u8],
    size: usize,
    ceiling: u32,
    len: usize,
    from: usize,
) -> State
    requires { (size ≤ 65536) × (from < length s.now) × (length s.now ≤ 16384) }
    ensures { Works line_done 170001 (holding ceiling (take size held.old)) (take len line.old) (drop from s.now) (holding result.ceiling (take result.size held.new)) (take result.len line.new) (drop result.from s.now) (take result.end out.new)
        × (result.size ≤ 65536)
        × (result.len ≤ 170001)
        × (result.from ≤ length s.now)
        × (result.n ≡ length s.now)
        × (result.ended ≡ false)
        × (from < result.from)
        × (result.end ≡ 0 → result.go ≡ true) }
{
    match lines::next_line(line, len, s, from) {
        Next::Here(e) => {
            let next = e + 1;
            let a = answer(out, held, size, bytes, room, &s[from..e], ceiling);
            told(rt, out, a, next, s.len())
        }
        Next::Buffered(m, next) => {
            let a = answer_kept(out, held, size, bytes, room, line, m, ceiling);
            told(rt, out, a, next, s.len())
        }
        Next::Pending(m) => State {
            size: size,
            ceiling: ceiling,
            len: m,
            from: s.len(),
            n: s.len(),
            end: 0,
            go: true,
            ended: false,
        },
    }
}

// One turn: a read where nothing of a piece is left, else a line of it.
fn turn(
    rt: &HostRuntime,
    out: &mut [u8; 800000],
    held: &mut [u8; 65536],
    bytes: &mut [u8; 85000],
    room: &mut [u8; 40000],
    line: &mut [u8; 170001],
    buf: &mut [u8; 16384],
    s: State,
) -> State
    requires { (s.size ≤ 65536) × (s.len ≤ 170001) × (s.from ≤ s.n) × (s.n ≤ 16384) }
    ensures { Stepped line_done 170001 (holding s.ceiling (take s.size held.old)) (take s.len line.old) (drop s.from (take s.n buf.old)) (holding result.ceiling (take result.size held.new)) (take result.len line.new) (drop result.from (take result.n buf.new)) (take result.end out.new)
        × (result.size ≤ 65536)
        × (result.len ≤ 170001)
        × (result.from ≤ result.n)
        × (result.n ≤ 16384)
        × (result.ended ≡ true → result.n ≡ 0)
        × (s.from < s.n → s.from < result.from) }
{
    let size = s.size;
    let ceiling = s.ceiling;
    let len = s.len;
    let from = s.from;
    let n = s.n;
    if from < n {
        let all: &[u8] = buf;
        return piece(
            rt,
            out,
            held,
            bytes,
            room,
            line,
            &all[0..n],
            size,
            ceiling,
            len,
            from,
        );
    }
    fetch(rt, buf, size, ceiling, len)
}

// Holds a table of 255 blank records, and answers its size.
fn start(held: &mut [u8; 65536]) -> usize
    ensures { (take result held.new ≡ blank_of 255) × (result ≤ 65536) }
{
    make_blank(held, 40816, 255);
    40816
}

// Turn by turn from a blank table on, until the input ends or a call fails. Nothing says that an input ends, so the turns are counted
// down from a number that no run uses up.
fn run(
    rt: &HostRuntime,
    out: &mut [u8; 800000],
    held: &mut [u8; 65536],
    bytes: &mut [u8; 85000],
    room: &mut [u8; 40000],
    line: &mut [u8; 170001],
    buf: &mut [u8; 16384],
) -> State
    ensures { Reached line_done 170001 (holding ample (blank_of 255)) (holding result.ceiling (take result.size held.new)) (take result.len line.new) (drop result.from (take result.n buf.new))
        × (result.size ≤ 65536)
        × (result.len ≤ 170001)
        × (result.ended ≡ true → result.n ≡ 0) }
{
    let mut s = State {
        size: start(held),
        ceiling: AMPLE,
        len: 0,
        from: 0,
        n: 0,
        end: 0,
        go: true,
        ended: false,
    };
    let mut turns = u64::MAX;
    while s.go && turns > 0 {
        s = turn(rt, out, held, bytes, room, line, buf, s);
        turns -= 1;
    }
    s
}

// The answer to an open line that is not empty, where the input has ended, handed on; how many bytes it has, and the size of the held
// table and the ceiling.
fn last(
    rt: &HostRuntime,
    out: &mut [u8; 800000],
    held: &mut [u8; 65536],
    bytes: &mut [u8; 85000],
    room: &mut [u8; 40000],
    line: &[u8; 170001],
    s: State,
) -> Finished
    requires { (s.size ≤ 65536) × (s.len ≤ 170001) × (s.ended ≡ true) }
    ensures { (take result.len out.new ≡ log_text line_done (holding s.ceiling (take s.size held.old)) (last_line (take s.len line.now)))
        × (holding result.ceiling (take result.size held.new) ≡ log_held line_done (holding s.ceiling (take s.size held.old)) (last_line (take s.len line.now))) }
{
    let size = s.size;
    let ceiling = s.ceiling;
    let len = s.len;
    if len == 0 {
        return Finished {
            len: 0,
            size: size,
            ceiling: ceiling,
        };
    }
    let a = answer_kept(out, held, size, bytes, room, line, len, ceiling);
    let sent = hand_on(rt, out, a.len);
    Finished {
        len: sent.n,
        size: a.size,
        ceiling: a.ceiling,
    }
}

fn main(rt: HostRuntime) {
    let mut out = [0u8; 800000];
    let mut held = [0u8; 65536];
    let mut bytes = [0u8; 85000];
    let mut room = [0u8; 40000];
    let mut line = [0u8; 170001];
    let mut buf = [0u8; 16384];
    let s = run(
        &rt, &mut out, &mut held, &mut bytes, &mut room, &mut line, &mut buf,
    );
    if s.ended {
        last(&rt, &mut out, &mut held, &mut bytes, &mut room, &line, s);
    }
}
