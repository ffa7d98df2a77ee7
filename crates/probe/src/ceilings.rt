// `ceiling N`.
ghost use Rattle.std.specs.Prelude.{◌≡◌};
ghost use Rattle.probe.specs.Ceiling.{ceiling_after, ceiling_text};
ghost use Rattle.showing.specs.Shown.{Puts};

use octets::put;
use showing::{number_to, put_unknown};

// The length of its answer, and the ceiling after it.
#[derive(Drop)]
pub struct Ceiling {
    pub len: usize,
    pub ceiling: u32,
}

// By the word behind its name: any but a number of 32 bits is answered `?`, and the ceiling stays.
pub fn set_ceiling(out: &mut [u8; 800000], ceiling: u32, word: &[u8]) -> Ceiling
    ensures { Puts out.old (ceiling_text word.now) result.len out.new × (result.ceiling ≡ ceiling_after ceiling word.now) }
{
    match number_to(word, 4294967295) {
        Some(n) => Ceiling {
            len: put(out, 0, b"ok\n"),
            ceiling: n as u32,
        },
        None => Ceiling {
            len: put_unknown(out),
            ceiling,
        },
    }
}
