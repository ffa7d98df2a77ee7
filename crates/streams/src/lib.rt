// Standard input and output, for a program that reads to the input's end and writes until a write fails. A call that a signal
// interrupts is made again, and a write that takes only a part is gone on with. A call that fails is told on standard error: the words
// that the caller gives, and the system's reason. What a reader gives and a writer takes is said where it is known; no contract can say
// what a call of the system reads or takes, so for the system's own streams these functions are to be read.
#![tactic(auto)]

ghost use Rattle.std.specs.Prelude.{ℕ, false, true, ◌≡◌, ◌<◌, ◌≤◌, length, take};
ghost use Rattle.std.specs.Io.KnownBytes.{Appends, Consumes, IsAtEnd};

use std::io;
use std::io::{Cursor, ErrorKind, Read, Write};

// What a read gave: so many bytes at the buffer's front, and whether the input has ended. No bytes, and not ended: it failed.
#[derive(Drop)]
pub struct Got {
    pub n: usize,
    pub ended: bool,
}

// How many bytes were handed to the system, and whether it took them all.
#[derive(Drop)]
pub struct Sent {
    pub n: usize,
    pub went: bool,
}

// Whether a call was interrupted by a signal.
fn interrupted(error: &io::Error) -> bool {
    error.kind() == ErrorKind::Interrupted
}

// The end of an error's words: the library puts the system's number behind them.
fn words_end(text: &[u8]) -> usize
    ensures { result ≤ length text.now }
{
    for at in 0..text.len() {
        if text[at..].starts_with(b" (os error ") {
            return at;
        }
    }
    text.len()
}

// Tells why a call failed.
fn tell<E: Write>(errors: &mut E, what: &[u8], error: io::Error) {
    let mut room = Cursor::new([0u8; 128]);
    let _ = write!(room, "{error}");
    let n = (room.position() as usize).min(128);
    let text = room.into_inner();
    let end = words_end(&text[..n]);
    let _ = errors.write_all(what);
    let _ = errors.write_all(b": ");
    let _ = errors.write_all(&text[..end]);
    let _ = errors.write_all(b"\n");
}

// A read that failed.
fn failed<E: Write>(errors: &mut E, what: &[u8], error: io::Error) -> Got
    ensures n { result.n ≡ 0 }
    ensures ended { result.ended ≡ false }
{
    tell(errors, what, error);
    Got { n: 0, ended: false }
}

// One read into the buffer. Nothing says that signals end, so the tries are counted down from a number that no run uses up.
pub fn read<R: Read, E: Write>(input: &mut R, errors: &mut E, buf: &mut [u8], what: &[u8]) -> Got
    ensures counts { (result.n ≤ length buf.old) × (result.ended ≡ true → result.n ≡ 0) }
    ensures bytes { Consumes (R.remaining input.old) (R.remaining input.new) (take result.n buf.new) }
    ensures end { result.ended ≡ true → 0 < length buf.old → IsAtEnd (R.remaining input.new) }
{
    let mut tries = u64::MAX;
    loop {
        match input.read(buf) {
            Ok(n) => {
                return Got {
                    n: n,
                    ended: n == 0,
                };
            }
            Err(e) => {
                if tries == 0 || !interrupted(&e) {
                    return failed(errors, what, e);
                }
                tries -= 1;
            }
        }
    }
}

// Reads until the buffer is full, the input ends or a read fails, and answers how many bytes it put at the buffer's front.
pub fn fill<R: Read, E: Write>(input: &mut R, errors: &mut E, buf: &mut [u8], what: &[u8]) -> usize
    ensures bound { result ≤ length buf.new }
    ensures bytes { Consumes (R.remaining input.old) (R.remaining input.new) (take result buf.new) }
{
    let mut n: usize = 0;
    while n < buf.len() {
        let got = read(input, errors, &mut buf[n..], what);
        if got.n == 0 {
            return n;
        }
        n += got.n;
    }
    n
}

// Writes all of a text. Where a write fails nothing behind it is written.
pub fn write<W: Write, E: Write>(output: &mut W, errors: &mut E, text: &[u8], what: &[u8]) -> Sent
    ensures counts { (result.n ≡ length text.now) × (result.n ≡ 0 → result.went ≡ true) }
    ensures whole { result.went ≡ true → Appends (W.contents output.old) (W.contents output.new) text.now }
    ensures part { (k : ℕ) × (k ≤ length text.now) × Appends (W.contents output.old) (W.contents output.new) (take k text.now) }
{
    let mut done: usize = 0;
    let mut tries = u64::MAX;
    while done < text.len() {
        match output.write(&text[done..]) {
            Ok(n) => {
                if n == 0 {
                    tell(errors, what, io::Error::from(ErrorKind::WriteZero));
                    return Sent {
                        n: text.len(),
                        went: false,
                    };
                }
                done += n;
            }
            Err(e) => {
                if tries == 0 || !interrupted(&e) {
                    tell(errors, what, e);
                    return Sent {
                        n: text.len(),
                        went: false,
                    };
                }
                tries -= 1;
            }
        }
    }
    Sent {
        n: text.len(),
        went: true,
    }
}
