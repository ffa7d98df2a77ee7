// Decimal numbers of 64 bits, read and written.
ghost use Rattle.std.specs.Prelude.{◌≡◌, ◌+◌, ◌≤◌, length};
ghost use Rattle.octets.specs.Decimal.{decimal_in, shown};
ghost use Rattle.octets.specs.Splice.{splice};

use crate::classes::is_digit;
use crate::numbers::wide;

// The digit 0.
const ZERO: u64 = b'0' as u64;

// The number that a whole text of 1 to 20 digits is, leading zeros allowed; None for any other text, and for a number of
// more than 64 bits.
pub fn decimal(s: &[u8]) -> Option<u64>
    ensures { result ≡ decimal_in s.now }
{
    if s.is_empty() || 20 < s.len() {
        return None;
    }
    let mut v: u64 = 0;
    for b in s {
        if !is_digit(*b) {
            return None;
        }
        v = v.checked_mul(10)?.checked_add(wide(*b - b'0'))?;
    }
    Some(v)
}

// Writes v in decimal from `at` on, with no leading zero, and answers the index behind it. By hand, not by Display: it writes from a
// place on into a lent buffer, with no heap, and the contract is an equation of the bytes.
pub fn put_decimal(out: &mut [u8], at: usize, v: u64) -> usize
    requires { at + length (shown v) ≤ length out.old }
    ensures { (result ≡ at + length (shown v)) × (out.new ≡ splice out.old at (shown v)) }
{
    if v < 10 {
        out[at] = (ZERO + v) as u8;
        return at + 1;
    }
    let p = put_decimal(out, at, v / 10);
    out[p] = (ZERO + v % 10) as u8;
    p + 1
}
