// The words of a line.
ghost use Rattle.std.specs.Prelude.{◌≡◌, ◌+◌, ◌*◌, ◌≤◌, drop, length};
ghost use Rattle.octets.specs.Decimal.{decimal_in};
ghost use Rattle.octets.specs.Splice.{splice};
ghost use Rattle.showing.specs.Words.{hex_bytes, first_word, has_space, is_bytes, is_hex_to, number_to, numeral, rest};
ghost use Rattle.showing.specs.inner.Got.{Got};

use octets::{decimal, find, same};

// Whether a word ends at a space.
pub fn has_space(words: &[u8]) -> bool
    ensures { result ≡ has_space words.now }
{
    find(words, 0, 32) < words.len()
}

// The first word; all of them where there is no space.
pub fn first(words: &[u8]) -> &[u8]
    ensures { result.now ≡ first_word words.now }
{
    let gap = find(words, 0, 32);
    &words[0..gap]
}

// The words behind the first; none where there is no space.
pub fn rest(words: &[u8]) -> &[u8]
    ensures { result.now ≡ rest words.now }
{
    let gap = find(words, 0, 32);
    if gap < words.len() {
        let next = gap + 1;
        return &words[next..];
    }
    &words[gap..]
}

// Whether a word stands for bytes: `-` for none, or hex of at most so many digits.
#[tactic(auto, unfolding(crate::specs::Words::is_hex_to))]
pub fn is_hex_to(word: &[u8], most: usize) -> bool
    ensures { result ≡ is_hex_to most word.now }
{
    same(word, b"-") || (1 <= word.len() && word.len() <= most && hex_text::is_hex(word))
}

// Puts the bytes that a word stands for behind the first `at` bytes, and answers the place behind them. `-` is no pair of digits,
// and puts nothing.
fn put_bytes(bytes: &mut [u8], at: usize, word: &[u8]) -> usize
    requires { 2 * at + length word.now ≤ 2 * length bytes.old }
    ensures { (result ≡ at + length (hex_bytes word.now)) × (bytes.new ≡ splice bytes.old at (hex_bytes word.now)) }
{
    at + hex_text::decode(&mut bytes[at..], word)
}

// The same; where the word is no hex or stands for more than 40,000 bytes, nothing is put.
pub fn take_bytes(bytes: &mut [u8; 85000], at: usize, word: &[u8]) -> Option<usize>
    requires { 2 * at + length word.now ≤ 170000 }
    ensures { Got (is_bytes word.now) bytes.old at (hex_bytes word.now) result bytes.new }
{
    if is_hex_to(word, 80000) {
        Some(put_bytes(bytes, at, word))
    } else {
        None
    }
}

// How many leading zeros to pass, so that at most 20 digits are left: what is left says what the word says.
fn zeros(word: &[u8]) -> usize
    ensures { (decimal_in (drop result word.now) ≡ numeral word.now) × (result ≤ length word.now) }
{
    let mut i: usize = 0;
    while 20 < word.len() - i {
        if word[i] != b'0' {
            return i;
        }
        i += 1;
    }
    i
}

// A number of 64 bits, with leading zeros as many as there are.
pub fn number(word: &[u8]) -> Option<u64>
    ensures { result ≡ numeral word.now }
{
    let from = zeros(word);
    decimal(&word[from..])
}

// The number that a word is, up to a limit.
pub fn number_to(word: &[u8], most: u64) -> Option<u64>
    ensures { result ≡ number_to most word.now }
{
    number(word).filter(|n| *n <= most)
}
