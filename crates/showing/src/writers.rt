// `reply`, `add`, `remove` and `text`: the room is filled with 5a before, and shown whole afterwards.
// The words' bytes stand one behind the other at the front of `bytes`.
ghost use Rattle.std.specs.Prelude.{◌++◌, ◌≡◌, ◌+◌, ◌-◌, ◌*◌, ◌≤◌, drop, length, take};
ghost use Rattle.message.specs.Reading.{ample, reading};
ghost use Rattle.octets.specs.Ascii.{ascii};
ghost use Rattle.octets.specs.Decimal.{shown};
ghost use Rattle.octets.specs.Splice.{splice};
ghost use Rattle.showing.specs.Shown.{Puts, hexed};
ghost use Rattle.showing.specs.Words.{hex_bytes, first_word, rest};
ghost use Rattle.showing.specs.inner.Got.{Got};
ghost use Rattle.showing.specs.Writers.{edit_text, edited, filled, first_number, head_of, is_first, on_first, on_last, reply_line, text_line, took_line, took_text, wrote_line, wrote_text, written_of};
ghost use Rattle.writing.specs.Adding.{adding};
ghost use Rattle.writing.specs.Outcome.{Writes};
ghost use Rattle.writing.specs.Removing.{Took, host_in, removing};
ghost use Rattle.writing.specs.Reply.{replying};
ghost use Rattle.writing.specs.Texting.{texting};

use crate::shown::{put_hex, put_number, put_unknown};
use crate::words::{first, has_space, number_to, rest, take_bytes};
use octets::put;
use writing::{Path, Refusal, Taken};

// Takes the bytes of the first word.
fn take_first(bytes: &mut [u8; 85000], at: usize, words: &[u8]) -> Option<usize>
    requires { 2 * at + length words.now ≤ 170000 }
    ensures { Got (is_first words.now) bytes.old at (hex_bytes (first_word words.now)) result bytes.new }
{
    if !has_space(words) {
        return None;
    }
    take_bytes(bytes, at, first(words))
}

// The number, up to a limit, that the first word is.
fn first_number(words: &[u8], most: u64) -> Option<u64>
    ensures { result ≡ first_number most words.now }
{
    if !has_space(words) {
        return None;
    }
    number_to(first(words), most)
}

// The room before a call.
fn fill(room: &mut [u8; 40000])
    ensures { room.new ≡ filled 40000 }
{
    *room = [0x5a; 40000];
}

// A word, a number and a space.
fn put_first(out: &mut [u8], word: &[u8; 3], n: u64) -> usize
    requires { 24 ≤ length out.old }
    ensures { Puts out.old (word.now ++ (shown n ++ ascii " ")) result out.new × (result ≤ 24) }
{
    let p = put(out, 0, word);
    put_number(out, p, n, b" ")
}

// How long the result is, or the number of the refusal.
fn put_head(out: &mut [u8], w: Result<usize, Refusal>) -> usize
    requires { 24 ≤ length out.old }
    ensures { Puts out.old (head_of w) result out.new × (result ≤ 24) }
{
    match w {
        Ok(n) => put_first(out, b"ok ", n as u64),
        Err(r) => put_first(out, b"no ", u8::from(r) as u64),
    }
}

// The first n bytes of the room.
fn put_room(out: &mut [u8], at: usize, room: &[u8; 40000], n: usize) -> usize
    requires { (n ≤ 40000) × (at + 80001 ≤ length out.old) }
    ensures { (result ≡ at + length (hexed (take n room.now))) × (out.new ≡ splice out.old at (hexed (take n room.now))) × (result ≤ at + 80001) }
{
    let s: &[u8] = room;
    put_hex(out, at, &s[0..n])
}

// A line: the answer and the room after it.
fn put_written(
    out: &mut [u8; 800000],
    w: Result<usize, Refusal>,
    room: &[u8; 40000],
    n: usize,
) -> usize
    requires { n ≤ 40000 }
    ensures { Puts out.old (wrote_text w (take n room.now)) result out.new }
{
    let p = put_head(out, w);
    let p = put_room(out, p, room, n);
    put(out, p, b"\n")
}

// The answer without the places of the next host.
fn written_of(r: Result<Taken, Refusal>) -> Result<usize, Refusal>
    ensures { result ≡ written_of r }
{
    r.map(|taken| taken.length)
}

// The same with the next host, which is a part of the message s.
fn put_removed(
    out: &mut [u8; 800000],
    r: Result<Taken, Refusal>,
    room: &[u8; 40000],
    n: usize,
    s: &[u8],
) -> usize
    requires { (n ≤ 40000) × (length s.now ≤ 40000) }
    ensures { Puts out.old (took_text r (take n room.now) s.now) result out.new }
{
    let p = put_head(out, written_of(r));
    let p = put_room(out, p, room, n);
    let p = put(out, p, b" ");
    let p = put_hex(out, p, writing::next_hop(s, r));
    put(out, p, b"\n")
}

// Into the first n bytes of the room, and so the next three.
fn reply_into(room: &mut [u8], n: usize, s: &[u8], code: u16, date: &[u8]) -> Result<usize, Refusal>
    requires { n ≤ length room.old }
    ensures { Writes (take n room.old) (replying s.now code date.now) result (take n room.new) }
{
    writing::reply(&mut room[0..n], s, code, date)
}

fn add_into(
    room: &mut [u8],
    n: usize,
    s: &[u8],
    host: &[u8],
    destination: &[u8],
    organization: &[u8],
) -> Result<usize, Refusal>
    requires { n ≤ length room.old }
    ensures { Writes (take n room.old) (adding s.now host.now destination.now organization.now) result (take n room.new) }
{
    writing::add(
        &mut room[0..n],
        s,
        Path {
            host,
            destination,
            organization,
        },
    )
}

fn remove_into(
    room: &mut [u8],
    n: usize,
    s: &[u8],
    host: &[u8],
    destination: &[u8],
    organization: &[u8],
) -> Result<Taken, Refusal>
    requires { n ≤ length room.old }
    ensures { Took (take n room.old) (host_in (reading ample s.now)) (removing s.now host.now destination.now organization.now) result (take n room.new) }
{
    writing::remove(
        &mut room[0..n],
        s,
        Path {
            host,
            destination,
            organization,
        },
    )
}

fn text_into(room: &mut [u8], n: usize, s: &[u8]) -> Result<usize, Refusal>
    requires { n ≤ length room.old }
    ensures { Writes (take n room.old) (texting s.now) result (take n room.new) }
{
    writing::text(&mut room[0..n], s)
}

// The line of a reply, into a room of n bytes.
fn write_reply(
    out: &mut [u8; 800000],
    room: &mut [u8; 40000],
    n: usize,
    s: &[u8],
    code: u16,
    date: &[u8],
) -> usize
    requires { n ≤ 40000 }
    ensures { Puts out.old (wrote_line n (replying s.now code date.now)) result out.new }
{
    fill(room);
    let w = reply_into(room, n, s, code, date);
    put_written(out, w, room, n)
}

// The line of a message with our entry.
fn write_add(
    out: &mut [u8; 800000],
    room: &mut [u8; 40000],
    n: usize,
    s: &[u8],
    host: &[u8],
    destination: &[u8],
    organization: &[u8],
) -> usize
    requires { n ≤ 40000 }
    ensures { Puts out.old (wrote_line n (adding s.now host.now destination.now organization.now)) result out.new }
{
    fill(room);
    let w = add_into(room, n, s, host, destination, organization);
    put_written(out, w, room, n)
}

// The line of a message without our entry.
fn write_remove(
    out: &mut [u8; 800000],
    room: &mut [u8; 40000],
    n: usize,
    s: &[u8],
    host: &[u8],
    destination: &[u8],
    organization: &[u8],
) -> usize
    requires { (n ≤ 40000) × (length s.now ≤ 40000) }
    ensures { Puts out.old (took_line n s.now (removing s.now host.now destination.now organization.now)) result out.new }
{
    fill(room);
    let r = remove_into(room, n, s, host, destination, organization);
    put_removed(out, r, room, n, s)
}

// The line of a text, into a room of n bytes.
fn write_text(out: &mut [u8; 800000], room: &mut [u8; 40000], n: usize, s: &[u8]) -> usize
    requires { n ≤ 40000 }
    ensures { Puts out.old (wrote_line n (texting s.now)) result out.new }
{
    fill(room);
    let w = text_into(room, n, s);
    put_written(out, w, room, n)
}

// The one or the other.
fn write_edit(
    out: &mut [u8; 800000],
    room: &mut [u8; 40000],
    adds: bool,
    n: usize,
    s: &[u8],
    host: &[u8],
    destination: &[u8],
    organization: &[u8],
) -> usize
    requires { (n ≤ 40000) × (length s.now ≤ 40000) }
    ensures { Puts out.old (edited adds n s.now host.now destination.now organization.now) result out.new }
{
    if adds {
        return write_add(out, room, n, s, host, destination, organization);
    }
    write_remove(out, room, n, s, host, destination, organization)
}

// `ROOM HEX`, where the date ends at d.
fn reply_to(
    out: &mut [u8; 800000],
    bytes: &mut [u8; 85000],
    room: &mut [u8; 40000],
    code: u16,
    d: usize,
    words: &[u8],
) -> usize
    requires { (2 * d + length words.now ≤ 170000) × (d ≤ length bytes.old) }
    ensures { Puts out.old (on_last words.now (λ n s. wrote_line n (replying s code (take d bytes.old)))) result out.new }
{
    let Some(n) = first_number(words, 40000) else {
        return put_unknown(out);
    };
    let Some(e) = take_bytes(bytes, d, rest(words)) else {
        return put_unknown(out);
    };
    let n = n as usize;
    let b: &[u8] = bytes;
    write_reply(out, room, n, &b[d..e], code, &b[0..d])
}

// `DATE ROOM HEX`.
fn reply_dated(
    out: &mut [u8; 800000],
    bytes: &mut [u8; 85000],
    room: &mut [u8; 40000],
    code: u16,
    words: &[u8],
) -> usize
    requires { length words.now ≤ 170000 }
    ensures { Puts out.old (on_first words.now (λ date words₂. on_last words₂ (λ n s. wrote_line n (replying s code date)))) result out.new }
{
    let Some(d) = take_first(bytes, 0, words) else {
        return put_unknown(out);
    };
    reply_to(out, bytes, room, code, d, rest(words))
}

// `reply CODE DATE ROOM HEX`.
pub fn reply(
    out: &mut [u8; 800000],
    bytes: &mut [u8; 85000],
    room: &mut [u8; 40000],
    words: &[u8],
) -> usize
    requires { length words.now ≤ 170000 }
    ensures { Puts out.old (reply_line words.now) result out.new }
{
    let Some(code) = first_number(words, 65535) else {
        return put_unknown(out);
    };
    reply_dated(out, bytes, room, code as u16, rest(words))
}

// `ROOM HEX`, where the path's words end at a, b and c.
fn edit_to(
    out: &mut [u8; 800000],
    bytes: &mut [u8; 85000],
    room: &mut [u8; 40000],
    adds: bool,
    a: usize,
    b: usize,
    c: usize,
    words: &[u8],
) -> usize
    requires { (a ≤ b) × (b ≤ c) × (2 * c + length words.now ≤ 170000) × (c ≤ length bytes.old) }
    ensures { Puts out.old (on_last words.now (λ n s. edited adds n s (take a bytes.old) (take (b - a) (drop a bytes.old)) (take (c - b) (drop b bytes.old)))) result out.new }
{
    let Some(n) = first_number(words, 40000) else {
        return put_unknown(out);
    };
    let Some(e) = take_bytes(bytes, c, rest(words)) else {
        return put_unknown(out);
    };
    let n = n as usize;
    let t: &[u8] = bytes;
    write_edit(out, room, adds, n, &t[c..e], &t[0..a], &t[a..b], &t[b..c])
}

// `ORG ROOM HEX`.
fn edit_organization(
    out: &mut [u8; 800000],
    bytes: &mut [u8; 85000],
    room: &mut [u8; 40000],
    adds: bool,
    a: usize,
    b: usize,
    words: &[u8],
) -> usize
    requires { (a ≤ b) × (2 * b + length words.now ≤ 170000) × (b ≤ length bytes.old) }
    ensures { Puts out.old (on_first words.now (λ organization words₃. on_last words₃ (λ n s. edited adds n s (take a bytes.old) (take (b - a) (drop a bytes.old)) organization)))
        result out.new }
{
    let Some(c) = take_first(bytes, b, words) else {
        return put_unknown(out);
    };
    edit_to(out, bytes, room, adds, a, b, c, rest(words))
}

// `DEST ORG ROOM HEX`.
fn edit_destination(
    out: &mut [u8; 800000],
    bytes: &mut [u8; 85000],
    room: &mut [u8; 40000],
    adds: bool,
    a: usize,
    words: &[u8],
) -> usize
    requires { (2 * a + length words.now ≤ 170000) × (a ≤ length bytes.old) }
    ensures { Puts out.old (on_first words.now
        (λ destination words₂. on_first words₂ (λ organization words₃. on_last words₃ (λ n s. edited adds n s (take a bytes.old) destination organization)))) result out.new }
{
    let Some(b) = take_first(bytes, a, words) else {
        return put_unknown(out);
    };
    edit_organization(out, bytes, room, adds, a, b, rest(words))
}

// `add HOST DEST ORG ROOM HEX` and `remove HOST DEST ORG ROOM HEX`.
pub fn edit(
    out: &mut [u8; 800000],
    bytes: &mut [u8; 85000],
    room: &mut [u8; 40000],
    adds: bool,
    words: &[u8],
) -> usize
    requires { length words.now ≤ 170000 }
    ensures { Puts out.old (edit_text adds words.now) result out.new }
{
    let Some(a) = take_first(bytes, 0, words) else {
        return put_unknown(out);
    };
    edit_destination(out, bytes, room, adds, a, rest(words))
}

// `text ROOM HEX`.
pub fn text(
    out: &mut [u8; 800000],
    bytes: &mut [u8; 85000],
    room: &mut [u8; 40000],
    words: &[u8],
) -> usize
    requires { length words.now ≤ 170000 }
    ensures { Puts out.old (text_line words.now) result out.new }
{
    let Some(n) = first_number(words, 40000) else {
        return put_unknown(out);
    };
    let Some(e) = take_bytes(bytes, 0, rest(words)) else {
        return put_unknown(out);
    };
    let n = n as usize;
    let b: &[u8] = bytes;
    write_text(out, room, n, &b[0..e])
}
