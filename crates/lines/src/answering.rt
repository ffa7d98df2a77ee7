// The answer's line: the time as read, and behind it a space and the answer's text.
ghost use Rattle.std.specs.Prelude.{[], ◌++◌, ◌∷◌, ◌≡◌, ◌+◌, ◌≤◌, length, take};
ghost use Rattle.answers.specs.Answer.{spelling};
ghost use Rattle.lines.specs.Program.{after_writing, answer_line, bad_line, answer_text, wrote_at};
ghost use Rattle.octets.specs.Ascii.{ascii};
ghost use Rattle.octets.specs.Decimal.{shown};
ghost use Rattle.octets.specs.Splice.{written};

use answers::{Answer, Word, put_word};
use octets::{put, put_decimal};
use std::error::Error;
use std::fmt;

// There is no room for the whole line: the buffer is as it was.
#[derive(Clone, Copy, Debug, PartialEq, Eq)]
pub struct NoRoom;

impl fmt::Display for NoRoom {
    fn fmt<W: fmt::Write>(&self, f: &mut fmt::Formatter<W>) -> fmt::Result {
        f.write_str("no room for the line")
    }
}

impl Error for NoRoom {}

// What follows the time in the line of an acceptance, at the buffer's front; its length.
fn put_accepted(out: &mut [u8; 32], word: Word, state: u8) -> usize
    ensures { (result ≡ length (32 ∷ ((spelling word ++ (32 ∷ shown state)) ++ (10 ∷ [])))) × (out.new ≡ written out.old (32 ∷ ((spelling word ++ (32 ∷ shown state)) ++ (10 ∷ [])))) × (result ≤ 32) }
{
    let before_word = put(out, 0, b" ");
    let behind_word = put_word(out, before_word, word);
    let before_state = put(out, behind_word, b" ");
    let behind_state = put_decimal(out, before_state, state as u64);
    put(out, behind_state, b"\n")
}

// What follows the time in the line of a refusal.
fn put_refused(out: &mut [u8; 32], number: u8) -> usize
    ensures { (result ≡ length (32 ∷ ((ascii "refused " ++ shown number) ++ (10 ∷ [])))) × (out.new ≡ written out.old (32 ∷ ((ascii "refused " ++ shown number) ++ (10 ∷ [])))) × (result ≤ 32) }
{
    let before_number = put(out, 0, b" refused ");
    let behind_number = put_decimal(out, before_number, number as u64);
    put(out, behind_number, b"\n")
}

// What follows the time.
fn put_text(out: &mut [u8; 32], a: Answer) -> usize
    ensures { (result ≡ length (32 ∷ (answer_text a ++ (10 ∷ [])))) × (out.new ≡ written out.old (32 ∷ (answer_text a ++ (10 ∷ [])))) × (result ≤ 32) }
{
    match a {
        Ok(a) => put_accepted(out, a.word, answers::shown_number(a.state)),
        Err(refusal) => put_refused(out, refusal.number()),
    }
}

// Two parts, one behind the other, where there is room for both.
fn write_two(out: &mut [u8], at: usize, a: &[u8], b: &[u8]) -> Result<usize, NoRoom>
    ensures { (result ≡ wrote_at out.old at (a.now ++ b.now)) × (out.new ≡ after_writing out.old at (a.now ++ b.now)) }
{
    if out.len() < at || out.len() - at < a.len() {
        return Err(NoRoom);
    }
    let behind = at + a.len();
    if out.len() - behind < b.len() {
        return Err(NoRoom);
    }
    put(out, at, a);
    Ok(put(out, behind, b))
}

// The time, and behind it the first n bytes of a short text.
fn write_behind(
    out: &mut [u8],
    at: usize,
    time: &[u8],
    text: &[u8; 32],
    n: usize,
) -> Result<usize, NoRoom>
    requires { n ≤ 32 }
    ensures { (result ≡ wrote_at out.old at (time.now ++ take n text.now)) × (out.new ≡ after_writing out.old at (time.now ++ take n text.now)) }
{
    let s: &[u8] = text;
    write_two(out, at, time, &s[0..n])
}

// Writes the line that answers an event from a place of the buffer on: `TIME WORD STATE` or `TIME refused N`; the place behind
// it. Room for 32 bytes more than the time has is enough.
pub fn write_answer(out: &mut [u8], at: usize, time: &[u8], a: Answer) -> Result<usize, NoRoom>
    ensures { (result ≡ wrote_at out.old at (answer_line time.now a)) × (out.new ≡ after_writing out.old at (answer_line time.now a)) × (length (answer_line time.now a) ≤ length time.now + 32) }
{
    let mut text = [0u8; 32];
    let n = put_text(&mut text, a);
    write_behind(out, at, time, &text, n)
}

// Writes the line that answers a line without a time; the place behind it.
pub fn write_bad(out: &mut [u8], at: usize) -> Result<usize, NoRoom>
    ensures { (result ≡ wrote_at out.old at bad_line) × (out.new ≡ after_writing out.old at bad_line) }
{
    write_two(out, at, b"bad", b"\n")
}
