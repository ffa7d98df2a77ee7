// The text that a string spells: decoded over the front of a lent buffer, or kept in one of its own.
ghost use Rattle.std.specs.Prelude.{List, ℕ, ◌≡◌, length, take};
ghost use Rattle.escapes.specs.Rfc7159.{text};
ghost use Rattle.escapes.specs.Text.{over};

use crate::comparing::is_escaped;
use crate::reading::escape_at;
use crate::storing::{put_byte, put_code};
use std::marker::Model;

// Writes the text that raw spells over the front of out, as far as there is room, and answers how many bytes it has: it is all there where
// out has so many.
// (Here, in measure, place_of and spells_slowly a turn takes a byte or a whole escape: a `while` over the place says that more plainly than a `for`.)
pub fn decode(raw: &[u8], out: &mut [u8]) -> usize
    ensures { (result ≡ length (text raw.now)) × (out.new ≡ over out.old (text raw.now)) }
{
    let mut i: usize = 0;
    let mut n: usize = 0;
    while i < raw.len() {
        let b = raw[i];
        if b == b'\\' {
            let e = escape_at(raw, i);
            n = put_code(out, n, e.code);
            i += e.took;
        } else {
            n = put_byte(out, n, b);
            i += 1;
        }
    }
    n
}

// The text that a string spells, as far as N bytes have room for it. A contract sees the text alone.
#[derive(Drop)]
pub struct Decoded<const N: usize> {
    room: [u8; N],
    count: usize,
}

impl<const N: usize> Model for Decoded<N> {
    ghost Value = { List ℕ };

    ghost view = { λ d. take d.count d.room };
}

impl<const N: usize> Decoded<N> {
    // Mostly there is no escape, and the string's own bytes are copied.
    pub fn of(raw: &[u8]) -> Self
        ensures { result ≡ take N (text raw.now) }
    {
        let mut room = [0; N];
        if is_escaped(raw) {
            let count = decode(raw, &mut room);
            return Decoded { room, count };
        }
        let own = &raw[..N.min(raw.len())];
        let count = own.len();
        room[..count].copy_from_slice(own);
        Decoded { room, count }
    }

    pub fn text(&self) -> &[u8]
        ensures { result.now ≡ self.now }
    {
        &self.room[..self.count.min(N)]
    }
}
