// Runs of characters of three bytes, as kana and kanji are.
ghost use Rattle.std.specs.Prelude.{true, [], ◌∷◌, ◌≡◌, ◌+◌, ◌≤◌, drop, length};
ghost use Rattle.utf8.specs.Rfc3629.{◌to◌, char_at, goes_on, tail};
ghost use Rattle.utf8.specs.inner.Passed.{Passed};

use octets::among;

// Whether three bytes of a row of the syntax stand at `at`: one from `from` to `till`, one from lo to hi, a tail. That three are left is known here,
// which `sequences::three` has to ask byte by byte.
fn is_row(s: &[u8], at: usize, from: u8, till: u8, lo: u8, hi: u8) -> bool
    requires { at + 3 ≤ length s.now }
    ensures { result ≡ goes_on ((from to till) ∷ (lo to hi) ∷ tail ∷ []) (drop at s.now) }
{
    among(from, till, s[at]) && among(lo, hi, s[at + 1]) && among(0x80, 0xBF, s[at + 2])
}

// Whether a character of three bytes stands at `at`, by the rows of UTF8-3: that of kana and kanji first, then that of full-width letters.
fn is_three(s: &[u8], at: usize) -> bool
    requires { at + 3 ≤ length s.now }
    ensures { result ≡ true → 3 ≡ char_at (drop at s.now) }
{
    is_row(s, at, 0xE1, 0xEC, 0x80, 0xBF)
        || is_row(s, at, 0xEE, 0xEF, 0x80, 0xBF)
        || is_row(s, at, 0xE0, 0xE0, 0xA0, 0xBF)
        || is_row(s, at, 0xED, 0xED, 0x80, 0x9F)
}

// Past the characters of three bytes from `at` on. Three bytes are left before `end`, which is cheaper to ask than how many are left.
pub fn past_threes(s: &[u8], at: usize) -> usize
    requires { at ≤ length s.now }
    ensures { Passed s.now at result }
{
    if s.len() < 3 {
        return at;
    }
    let end = s.len() - 2;
    let mut i = at;
    while i < end && is_three(s, i) {
        i += 3;
    }
    i
}
