// A command on messages alone.
ghost use Rattle.std.specs.Prelude.{◌≤◌, length};
ghost use Rattle.showing.specs.Asked.{asked_text};
ghost use Rattle.showing.specs.Shown.{Puts};

use crate::located::positions;
use crate::readings::read;
use crate::shown::put_unknown;
use crate::writers::{edit, reply, text};
use octets::same;

// Writes what a command shows, by its name and the words behind it; a `read` under a ceiling.
pub fn ask(
    out: &mut [u8; 800000],
    bytes: &mut [u8; 85000],
    room: &mut [u8; 40000],
    name: &[u8],
    words: &[u8],
    ceiling: u32,
) -> usize
    requires { length words.now ≤ 170000 }
    ensures { Puts out.old (asked_text ceiling name.now words.now) result out.new }
{
    if same(name, b"read") {
        return read(out, bytes, words, ceiling);
    }
    if same(name, b"positions") {
        return positions(out, bytes, words);
    }
    if same(name, b"reply") {
        return reply(out, bytes, room, words);
    }
    if same(name, b"add") {
        return edit(out, bytes, room, true, words);
    }
    if same(name, b"remove") {
        return edit(out, bytes, room, false, words);
    }
    if same(name, b"text") {
        return text(out, bytes, room, words);
    }
    put_unknown(out)
}
