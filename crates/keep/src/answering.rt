// One line: what it does to the table, and the line that answers it.
ghost use Rattle.std.specs.Prelude.{true, ◌≡◌, ◌+◌, ◌≤◌, length};
ghost use Rattle.keep.specs.Log.{line_done};
ghost use Rattle.lines.specs.Program.{answer_line, bad_line};
ghost use Rattle.octets.specs.Splice.{splice};
ghost use Rattle.table.specs.WellFormed.{well_formed};

use answers::{Answer, Refusal};
use lines::Line;
use message::AMPLE;

// Writes the line that answers an event, and answers the place behind it. There is room for it.
fn put_answer(out: &mut [u8], at: usize, time: &[u8], a: Answer) -> usize
    requires { (length time.now ≤ 20) × (at + 64 ≤ length out.old) }
    ensures { (result ≡ at + length (answer_line time.now a)) × (out.new ≡ splice out.old at (answer_line time.now a)) × (result ≤ at + 64) }
{
    lines::write_answer(out, at, time, a).unwrap_or(at)
}

// Writes the line that answers a line without a time.
fn put_bad(out: &mut [u8], at: usize) -> usize
    requires { at + 64 ≤ length out.old }
    ensures { (result ≡ at + length bad_line) × (out.new ≡ splice out.old at bad_line) × (result ≤ at + 64) }
{
    lines::write_bad(out, at).unwrap_or(at)
}

// Answers a line: the table is changed by its event, and its answer's line is written.
pub fn answer(table: &mut [u8], l: &[u8], out: &mut [u8], at: usize) -> usize
    requires { (well_formed table.old ≡ true) × (at + 64 ≤ length out.old) }
    ensures { (result ≡ at + length (line_done table.old l.now).text)
        × (out.new ≡ splice out.old at (line_done table.old l.now).text)
        × (table.new ≡ (line_done table.old l.now).held)
        × (well_formed table.new ≡ true)
        × (result ≤ at + 64) }
{
    match lines::read(l) {
        Line::Bad => put_bad(out, at),
        Line::Long(n) => put_answer(out, at, &l[0..n], Err(Refusal::Reading(2, 0))),
        Line::Tick(n, time) => {
            let id = n + 6;
            let a = keeper::tick_step(table, time, &l[id..]);
            put_answer(out, at, &l[0..n], a)
        }
        Line::Message(n, time) => {
            let text = n + 1;
            let a = keeper::message_step(table, time, &l[text..], AMPLE);
            put_answer(out, at, &l[0..n], a)
        }
    }
}
