// Comparing and finding bytes.
ghost use Rattle.std.specs.Prelude.{ℕ, ◌≡◌, ◌+◌, ◌-◌, ◌≤◌, ◌<◌, true, false, drop, get_or, length};
ghost use Rattle.octets.specs.Text.{before, same, stands_at};

// The byte at i, and 0 past the end: a test on it needs no test of the length first.
pub fn byte(s: &[u8], i: usize) -> u8
    ensures { result ≡ get_or s.now i 0 }
{
    s.get(i).copied().unwrap_or(0)
}

// Whether two texts are the same.
pub fn same(a: &[u8], b: &[u8]) -> bool
    ensures { result ≡ same a.now b.now }
{
    a == b
}

// Whether the text w stands in s from byte `at` on; any `at` will do.
pub fn stands_at(s: &[u8], at: usize, w: &[u8]) -> bool
    ensures { result ≡ stands_at s.now at w.now }
{
    s[at.min(s.len())..].starts_with(w)
}

// How many bytes stand before the first b; all of them where there is none.
fn before(s: &[u8], b: u8) -> usize
    ensures { result ≡ before b s.now }
{
    s.iter().position(|x| *x == b).unwrap_or(s.len())
}

// The place of the first byte b from `from` on, or the length where there is none. Runs of 32 are judged whole, so that
// each is made of a few instructions on whole registers.
pub fn find(s: &[u8], from: usize, b: u8) -> usize
    requires { from ≤ length s.now }
    ensures { result ≡ from + before b (drop from s.now) }
{
    let mut i = from;
    while 32 <= s.len() - i && !s[i..i + 32].contains(&b) {
        i += 32;
    }
    i + before(&s[i..], b)
}

// Past the bytes from `at` on that pass a test: the place of the first that does not, or the length where all do.
pub fn past<F: Fn(u8) -> bool>(s: &[u8], at: usize, test: F) -> usize
    requires within { at ≤ length s.now }
    requires callable { F.IsAlwaysCallable test }
    ensures within { (at ≤ result) × (result ≤ length s.now) }
    ensures passed { (k : ℕ) → at ≤ k → k < result → F.post test (get_or s.now k 0) true }
    ensures stopped { result < length s.now → F.post test (get_or s.now result 0) false }
{
    for i in at..s.len() {
        if !test(s[i]) {
            return i;
        }
    }
    s.len()
}
