// Bytes as lower-case hex, for the programs whose lines show bytes.
// Each contract is an equation with a definition of specs/; what is encoded is decoded again (proofs/HexLaws.antt).
// A caller of `decode` and `encode` lends room for the whole result.
#![tactic(auto)]

ghost use Rattle.std.specs.Prelude.{◌≡◌, ◌*◌, ◌/◌, ◌<◌, ◌≤◌, length};
ghost use Rattle.hex_text.specs.Digits.{decoded, digit_of, encoded, is_hex, is_lower_hex, worth_of};
ghost use Rattle.octets.specs.Splice.{written};

// The digit a is ten.
const TEN_BELOW_A: u8 = b'a' - 10;

fn is_hex_digit(b: u8) -> bool
    ensures { result ≡ is_lower_hex b }
{
    matches!(b, b'0'..=b'9' | b'a'..=b'f')
}

// What a digit stands for, and 0 for any other byte.
fn worth(b: u8) -> u8
    ensures { (result ≡ worth_of b) × (result < 16) }
{
    match b {
        b'0'..=b'9' => b - b'0',
        b'a'..=b'f' => b - TEN_BELOW_A,
        _ => 0,
    }
}

// The digit of a number.
fn digit(n: u8) -> u8
    requires { n < 16 }
    ensures { result ≡ digit_of n }
{
    if n < 10 { b'0' + n } else { TEN_BELOW_A + n }
}

// Whether a text is digits alone, two for each byte; the empty text is.
pub fn is_hex(s: &[u8]) -> bool
    ensures { result ≡ is_hex s.now }
{
    s.len() % 2 == 0 && s.iter().all(|b| is_hex_digit(*b))
}

// Puts the bytes that a text of digits stands for at the front of `out`, and answers how many.
pub fn decode(out: &mut [u8], s: &[u8]) -> usize
    requires { length s.now / 2 ≤ length out.old }
    ensures { (result ≡ length s.now / 2) × (out.new ≡ written out.old (decoded s.now)) }
{
    let n = s.len() / 2;
    for i in 0..n {
        out[i] = worth(s[2 * i]) * 16 + worth(s[2 * i + 1]);
    }
    n
}

// Puts the digits of s at the front of `out`, and answers how many.
pub fn encode(out: &mut [u8], s: &[u8]) -> usize
    requires { 2 * length s.now ≤ length out.old }
    ensures { (result ≡ 2 * length s.now) × (out.new ≡ written out.old (encoded s.now)) }
{
    for i in 0..s.len() {
        out[2 * i] = digit(s[i] / 16);
        out[2 * i + 1] = digit(s[i] % 16);
    }
    2 * s.len()
}
