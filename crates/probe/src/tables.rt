// `blank`, `table` and `dump`.
ghost use Rattle.std.specs.Prelude.{◌≡◌, ◌≤◌, drop, length, take};
ghost use Rattle.probe.specs.Tables.{blank_done, dump_text, table_done, verdict_text};
ghost use Rattle.probe.specs.inner.Turned.{Turned};
ghost use Rattle.showing.specs.Shown.{Puts, unknown};
ghost use Rattle.showing.specs.Words.{hex_bytes};
ghost use Rattle.table.specs.Blank.{blank_after, blank_fits};
ghost use Rattle.table.specs.WellFormed.{well_formed};

use octets::put;
use showing::{first, has_space, is_hex_to, number_to, put_hex, put_unknown, rest};

// The length of an answer, and the size of the held table after it.
#[derive(Drop)]
pub struct Answered {
    pub len: usize,
    pub size: usize,
}

// Answers `?`; the held table stays.
pub fn answer_unknown(out: &mut [u8; 800000], size: usize) -> Answered
    ensures { Puts out.old unknown result.len out.new × (result.size ≡ size) }
{
    Answered {
        len: put_unknown(out),
        size: size,
    }
}

// Writes the held table.
pub fn dump(out: &mut [u8; 800000], held: &[u8; 65536], size: usize) -> usize
    requires { size ≤ 65536 }
    ensures { Puts out.old (dump_text (take size held.now)) result out.new }
{
    let s: &[u8] = held;
    let behind = put_hex(out, 0, &s[0..size]);
    put(out, behind, b"\n")
}

// `ok`, or `no 1`.
fn verdict(out: &mut [u8; 800000], good: bool) -> usize
    ensures { Puts out.old (verdict_text good) result out.new }
{
    if good {
        put(out, 0, b"ok\n")
    } else {
        put(out, 0, b"no 1\n")
    }
}

// Writes whether the held table is well-formed.
fn judge(out: &mut [u8; 800000], held: &[u8; 65536], size: usize) -> usize
    requires { size ≤ 65536 }
    ensures { Puts out.old (verdict_text (well_formed (take size held.now))) result out.new }
{
    let s: &[u8] = held;
    verdict(out, table::well_formed(&s[0..size]))
}

// Makes a blank table of the first n bytes, and answers whether they fit it; else they stay.
pub fn make_blank(held: &mut [u8], n: usize, count: usize) -> bool
    requires { n ≤ length held.old }
    ensures { (result ≡ blank_fits count n) × (take n held.new ≡ blank_after (take n held.old) count) × (drop n held.new ≡ drop n held.old) }
{
    table::blank(&mut held[0..n], count).is_ok()
}

// `blank COUNT LENGTH`: where a number is over its limit, and where they are refused, the held table stays.
pub fn blank(out: &mut [u8; 800000], held: &mut [u8; 65536], size: usize, words: &[u8]) -> Answered
    requires { size ≤ 65536 }
    ensures { Turned (blank_done (take size held.old) words.now) out.old result.len out.new result.size held.new }
{
    if !has_space(words) {
        return answer_unknown(out, size);
    }
    let Some(count) = number_to(first(words), 65535) else {
        return answer_unknown(out, size);
    };
    let Some(length) = number_to(rest(words), 65536) else {
        return answer_unknown(out, size);
    };
    let n = length as usize;
    if make_blank(held, n, count as usize) {
        return Answered {
            len: verdict(out, true),
            size: n,
        };
    }
    Answered {
        len: verdict(out, false),
        size: size,
    }
}

// Puts the image that a word stands for at the held buffer's front, and answers its size.
fn take_image(held: &mut [u8; 65536], word: &[u8]) -> usize
    requires { length word.now ≤ 131072 }
    ensures { Puts held.old (hex_bytes word.now) result held.new }
{
    hex_text::decode(held, word)
}

// `table HEX`: the image is held as it is.
pub fn hold(out: &mut [u8; 800000], held: &mut [u8; 65536], size: usize, word: &[u8]) -> Answered
    requires { size ≤ 65536 }
    ensures { Turned (table_done (take size held.old) word.now) out.old result.len out.new result.size held.new }
{
    if !is_hex_to(word, 131072) {
        return answer_unknown(out, size);
    }
    let n = take_image(held, word);
    Answered {
        len: judge(out, held, n),
        size: n,
    }
}
