// Numbers and bytes as they are shown.
ghost use Rattle.std.specs.Prelude.{◌++◌, ◌≡◌, ◌+◌, ◌*◌, ◌≤◌, length};
ghost use Rattle.octets.specs.Decimal.{shown};
ghost use Rattle.octets.specs.Splice.{splice};
ghost use Rattle.showing.specs.Shown.{Puts, hexed, unknown};

use octets::{put, put_decimal};

// Writes a number, and what follows it.
pub fn put_number(out: &mut [u8], at: usize, n: u64, then: &[u8]) -> usize
    requires { at + 20 + length then.now ≤ length out.old }
    ensures { (result ≡ at + length (shown n ++ then.now)) × (out.new ≡ splice out.old at (shown n ++ then.now)) }
{
    let behind = put_decimal(out, at, n);
    put(out, behind, then)
}

// Writes bytes in hex; `-` where there are none.
pub fn put_hex(out: &mut [u8], at: usize, s: &[u8]) -> usize
    requires { at + 2 * length s.now + 1 ≤ length out.old }
    ensures { (result ≡ at + length (hexed s.now)) × (out.new ≡ splice out.old at (hexed s.now)) }
{
    if s.len() == 0 {
        return put(out, at, b"-");
    }
    at + hex_text::encode(&mut out[at..], s)
}

// Writes the line that answers anything else.
pub fn put_unknown(out: &mut [u8]) -> usize
    requires { 2 ≤ length out.old }
    ensures { Puts out.old unknown result out.new }
{
    put(out, 0, b"?\n")
}
