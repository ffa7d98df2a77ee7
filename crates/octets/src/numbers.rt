// Big-endian numbers of one to eight bytes, one function each way for every width.
ghost use Rattle.std.specs.Prelude.{◌≡◌, ◌+◌, ◌≤◌, ◌<◌, drop, length, take};
ghost use Rattle.octets.specs.Number.{bytes_of, big_endian};
ghost use Rattle.octets.specs.Splice.{splice};

// A byte as a wider number.
pub fn wide(b: u8) -> u64
    ensures { (result ≡ b) × (result < 256) }
{
    u64::from(b)
}

// The number that the n bytes from `at` on are, the highest first.
pub fn number_at(s: &[u8], at: usize, n: usize) -> u64
    requires { (n ≤ 8) × (at + n ≤ length s.now) }
    ensures { result ≡ big_endian (take n (drop at s.now)) }
{
    let mut v: u64 = 0;
    for b in &s[at..at + n] {
        v = v * 256 + u64::from(*b);
    }
    v
}

// Writes the last n bytes of v from `at` on, the highest first.
pub fn put_number(out: &mut [u8], at: usize, n: usize, v: u64)
    requires { at + n ≤ length out.old }
    ensures { out.new ≡ splice out.old at (bytes_of n v) }
{
    let mut rest = v;
    for i in (at..at + n).rev() {
        out[i] = (rest % 256) as u8;
        rest /= 256;
    }
}
