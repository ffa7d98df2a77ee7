// The program of document 01: 255 blank records, a log of lines on standard input, an answer a line on standard output.
// Input is taken in pieces of 64 KiB at most; answers go out before the next read, so that it can sit in a pipe.
// An input of any length is worked off in the same memory. Where a write or a read fails it says so on standard error and ends, and
// nothing more is written; a last line without its line feed is answered only where the input has ended.
#![tactic(auto)]

mod answering;
mod pieces;

ghost use Rattle.std.specs.Prelude.{false, true, ◌≡◌, ◌<◌, ◌≤◌, ltb, drop, take};
ghost use Rattle.keep.specs.Log.{line_done};
ghost use Rattle.lines.specs.Input.{last_line};
ghost use Rattle.lines.specs.Log.{log_held, log_text};
ghost use Rattle.lines.specs.inner.Running.{Works, Reached, Stepped};
ghost use Rattle.table.specs.Blank.{blank_of};
ghost use Rattle.table.specs.WellFormed.{well_formed};

use pieces::{answer_kept, work};
use streams::Sent;

// Where a run stands: how many bytes of the open line are kept, the place in the piece and the piece's end, how many bytes the last
// turn handed to `write` (of which only the contracts speak), whether to go on, and whether the input has ended.
#[derive(Drop)]
struct State {
    len: usize,
    from: usize,
    n: usize,
    end: usize,
    go: bool,
    ended: bool,
}

// Hands the first n bytes of the output buffer to `write`.
fn hand_on(rt: &HostRuntime, out: &[u8; 65536], n: usize) -> Sent
    requires { n ≤ 65536 }
    ensures { (result.n ≡ n) × (result.n ≡ 0 → result.went ≡ true) }
{
    let s: &[u8] = out;
    streams::write(
        &mut rt.stdout(),
        &mut rt.stderr(),
        &s[0..n],
        b"keep: standard output",
    )
}

// The next piece: what a read puts at the buffer's front.
fn fetch(rt: &HostRuntime, buf: &mut [u8; 65536], len: usize) -> State
    ensures { (result.len ≡ len) × (result.from ≡ 0) × (result.n ≤ 65536) × (result.end ≡ 0) × (result.go ≡ ltb 0 result.n) × (result.ended ≡ true → result.n ≡ 0) }
{
    let g = streams::read(
        &mut rt.stdin(),
        &mut rt.stderr(),
        buf,
        b"keep: standard input",
    );
    State {
        len: len,
        from: 0,
        n: g.n,
        end: 0,
        go: 0 < g.n,
        ended: g.ended,
    }
}

// Lines of the piece's rest, as many as the output buffer takes answers to, and their answers handed on.
fn piece(
    rt: &HostRuntime,
    table: &mut [u8; 40816],
    buf: &[u8; 65536],
    line: &mut [u8; 32790],
    out: &mut [u8; 65536],
    len: usize,
    from: usize,
    n: usize,
) -> State
    requires { (well_formed table.old ≡ true) × (len ≤ 32790) × (from < n) × (n ≤ 65536) }
    ensures { Works line_done 32790 table.old (take len line.old) (drop from (take n buf.now)) table.new (take result.len line.new) (drop result.from (take n buf.now)) (take result.end out.new)
        × (well_formed table.new ≡ true)
        × (result.len ≤ 32790)
        × (result.from ≤ n)
        × (result.n ≡ n)
        × (result.ended ≡ false)
        × (from < result.from)
        × (result.end ≡ 0 → result.go ≡ true) }
{
    let s: &[u8] = buf;
    let w = work(table, line, len, &s[0..n], from, out);
    let sent = hand_on(rt, out, w.end);
    State {
        len: w.len,
        from: w.next,
        n: n,
        end: sent.n,
        go: sent.went,
        ended: false,
    }
}

// One turn: a read where nothing of a piece is left, else lines of it.
fn turn(
    rt: &HostRuntime,
    table: &mut [u8; 40816],
    buf: &mut [u8; 65536],
    line: &mut [u8; 32790],
    out: &mut [u8; 65536],
    s: State,
) -> State
    requires { (well_formed table.old ≡ true) × (s.len ≤ 32790) × (s.from ≤ s.n) × (s.n ≤ 65536) }
    ensures { Stepped line_done 32790 table.old (take s.len line.old) (drop s.from (take s.n buf.old)) table.new (take result.len line.new) (drop result.from (take result.n buf.new)) (take result.end out.new)
        × (well_formed table.new ≡ true)
        × (result.len ≤ 32790)
        × (result.from ≤ result.n)
        × (result.n ≤ 65536)
        × (result.ended ≡ true → result.n ≡ 0)
        × (s.from < s.n → s.from < result.from) }
{
    let len = s.len;
    let from = s.from;
    let n = s.n;
    if from < n {
        return piece(rt, table, buf, line, out, len, from, n);
    }
    fetch(rt, buf, len)
}

// Makes a table of 255 blank records.
fn start(table: &mut [u8; 40816])
    ensures { table.new ≡ blank_of 255 }
{
    // 255 records are what the table has room for.
    let _ = table::blank(table, 255);
}

// Turn by turn from a blank table on, until the input ends or a call fails. Nothing says that an input ends, so the turns are counted
// down from a number that no run uses up.
fn run(
    rt: &HostRuntime,
    table: &mut [u8; 40816],
    buf: &mut [u8; 65536],
    line: &mut [u8; 32790],
    out: &mut [u8; 65536],
) -> State
    ensures { Reached line_done 32790 (blank_of 255) table.new (take result.len line.new) (drop result.from (take result.n buf.new))
        × (well_formed table.new ≡ true)
        × (result.len ≤ 32790)
        × (result.ended ≡ true → result.n ≡ 0) }
{
    start(table);
    let mut s = State {
        len: 0,
        from: 0,
        n: 0,
        end: 0,
        go: true,
        ended: false,
    };
    let mut turns = u64::MAX;
    while s.go && turns > 0 {
        s = turn(rt, table, buf, line, out, s);
        turns -= 1;
    }
    s
}

// The answer to an open line that is not empty, where the input has ended, handed on; how many bytes it has.
fn last(
    rt: &HostRuntime,
    table: &mut [u8; 40816],
    line: &[u8; 32790],
    out: &mut [u8; 65536],
    s: State,
) -> usize
    requires { (well_formed table.old ≡ true) × (s.len ≤ 32790) × (s.ended ≡ true) }
    ensures { (take result out.new ≡ log_text line_done table.old (last_line (take s.len line.now)))
        × (table.new ≡ log_held line_done table.old (last_line (take s.len line.now))) }
{
    let len = s.len;
    if len == 0 {
        return 0;
    }
    let end = answer_kept(table, line, len, out, 0);
    let sent = hand_on(rt, out, end);
    sent.n
}

fn main(rt: HostRuntime) {
    let mut table = [0u8; 40816];
    let mut buf = [0u8; 65536];
    let mut line = [0u8; 32790];
    let mut out = [0u8; 65536];
    let s = run(&rt, &mut table, &mut buf, &mut line, &mut out);
    if s.ended {
        last(&rt, &mut table, &line, &mut out, s);
    }
}
