// Runs the stored JSON texts: a line of standard input is a ceiling of values, a space and a text in hex, and its answer is a line,
// `ok COUNT`, `no 4 PLACE`, `no 5 PLACE` or `no 11 PLACE`. A text has 1,024 bytes at most, all lines 65,536.
#![tactic(auto)]

ghost use Rattle.std.specs.Prelude.{◌≤◌, length};

use json_text::Fault;
use std::io;

// The text that a word of hex stands for, put into `room`; a word that is too long stands for none.
fn decoded<'a>(word: &[u8], room: &'a mut [u8; 1024]) -> &'a [u8]
    ensures { length result.now ≤ 1024 }
{
    if 2048 < word.len() {
        return b"";
    }
    let n = hex_text::decode(room, word);
    &room[..n]
}

fn say(rt: &impl Print, start: &[u8], n: usize) -> io::Result<()> {
    rt.write_all(start)?;
    println!(rt; "{n}")
}

// Reads a text under a ceiling, and writes the answer's line.
fn answer(rt: &impl Print, text: &[u8], ceiling: usize) -> io::Result<()> {
    match json_text::read(text, ceiling) {
        Ok(count) => say(rt, b"ok ", count),
        Err(Fault::Bad(p)) => say(rt, b"no 4 ", p),
        Err(Fault::Deep(p)) => say(rt, b"no 5 ", p),
        Err(Fault::Many(p)) => say(rt, b"no 11 ", p),
    }
}

// A ceiling; 0 for what is no number.
fn ceiling_of(word: &[u8]) -> usize {
    octets::decimal(word).map_or(0, |n| n as usize)
}

// A line: its first word, and what stands behind the space.
fn line(rt: &impl Print, s: &[u8]) -> io::Result<()> {
    let mut room = [0u8; 1024];
    match s.iter().position(|b| *b == b' ') {
        Some(gap) => answer(rt, decoded(&s[gap + 1..], &mut room), ceiling_of(&s[..gap])),
        None => Ok(()),
    }
}

fn main(rt: HostRuntime) -> io::Result<()> {
    let mut buf = [0u8; 65536];
    let n = streams::fill(
        &mut rt.stdin(),
        &mut rt.stderr(),
        &mut buf,
        b"json_vectors: standard input",
    );
    for text in buf[..n].split(|b| *b == b'\n') {
        line(&rt, text)?;
    }
    Ok(())
}
