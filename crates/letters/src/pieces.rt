// How far a text goes along with a piece of a rule, and, where it has the whole piece, with what stands behind it.
ghost use Rattle.std.specs.Prelude.{cond, ◌≡◌, ◌+◌, ◌-◌, ◌≤◌, eqb, drop, length};
ghost use Rattle.letters.specs.inner.Reach.{common, count_letters, follows, meets, number_letters, run_letters};
ghost use Rattle.rules.specs.Pieces.{within};

use octets::is_digit;
use rules::{Class, holds, within, worth};

// What stands from a place on.
pub fn rest(s: &[u8], at: usize) -> &[u8]
    ensures { (result.now ≡ drop at s.now) × (length result.now ≡ length s.now - at) }
{
    &s[at.min(s.len())..]
}

// How many letters a text and a word have in common from the start.
pub fn common(s: &[u8], w: &[u8]) -> usize
    ensures { (result ≡ common s.now w.now) × (result ≤ length s.now) }
{
    s.iter().zip(w).take_while(|(a, b)| a == b).count()
}

// Where a text leaves the letters w that are to stand at a place; `then` where it has them all.
pub fn fixed_or(s: &[u8], at: usize, w: &[u8], then: usize) -> usize
    ensures { result ≡ cond (eqb (common (drop at s.now) w.now) (length w.now)) then (at + common (drop at s.now) w.now) }
{
    let n = common(rest(s, at), w);
    if n == w.len() { then } else { at + n }
}

// Whether v and m more digits can be a number from lo to hi.
fn meets(lo: u64, hi: u64, m: usize, v: u64) -> bool
    requires { (m ≤ 3) × (v ≤ 200000) }
    ensures { result ≡ meets lo hi m v }
{
    // They can be each number from v * unit up to (v + 1) * unit, which is none.
    let unit = 10u64.pow(m as u32);
    lo < (v + 1) * unit && v * unit <= hi
}

// How many letters of a text begin a number of n digits from lo to hi.
fn number_letters(s: &[u8], n: usize, lo: u64, hi: u64) -> usize
    requires { (n ≤ 4) × (hi ≤ 9999) }
    ensures { (result ≡ number_letters lo hi n 0 s.now) × (result ≤ length s.now) }
{
    let most = n.min(s.len());
    let mut v: u64 = 0;
    for i in 0..most {
        let w = v * 10 + worth(s[i]);
        if !is_digit(s[i]) || !meets(lo, hi, n - i - 1, w) {
            return i;
        }
        v = w;
    }
    most
}

// Where a text leaves such a number that is to stand at a place; `then` where it has it.
pub fn number_or(s: &[u8], at: usize, n: usize, lo: u64, hi: u64, then: usize) -> usize
    requires { (n ≤ 4) × (hi ≤ 9999) }
    ensures { result ≡ cond (eqb (number_letters lo hi n 0 (drop at s.now)) n) then (at + number_letters lo hi n 0 (drop at s.now)) }
{
    let k = number_letters(rest(s, at), n, lo, hi);
    if k == n { then } else { at + k }
}

// Whether a letter may follow n letters of a run.
fn follows(hi: usize, class: Class, edge: Class, n: usize, b: u8) -> bool
    requires { 1 ≤ hi }
    ensures { result ≡ follows hi class edge n b }
{
    let inner = n != 0 && n != hi - 1;
    n < hi && holds(class, b) && (holds(edge, b) || inner)
}

// How many letters of a text begin a run.
pub fn run_letters(s: &[u8], hi: usize, class: Class, edge: Class) -> usize
    requires { 1 ≤ hi }
    ensures { (result ≡ run_letters hi class edge 0 s.now) × (result ≤ length s.now) }
{
    for (i, b) in s.iter().enumerate() {
        if !follows(hi, class, edge, i, *b) {
            return i;
        }
    }
    s.len()
}

// The end of a run's letters; `then` where the run is whole.
pub fn run_or(
    s: &[u8],
    at: usize,
    end: usize,
    lo: usize,
    hi: usize,
    edge: Class,
    then: usize,
) -> usize
    requires { at ≤ end }
    ensures { result ≡ cond (within lo hi edge s.now at end) then end }
{
    if within(s, at, end, lo, hi, edge) {
        then
    } else {
        end
    }
}

// How many letters of a text begin a number from 1 to hi without leading zeros.
pub fn count_letters(s: &[u8], hi: u64) -> usize
    requires { hi ≤ 4294967295 }
    ensures { (result ≡ count_letters hi 0 s.now) × (result ≤ length s.now) }
{
    let mut v: u64 = 0;
    for (i, b) in s.iter().enumerate() {
        let w = v * 10 + worth(*b);
        if !is_digit(*b) || w == 0 || hi < w {
            return i;
        }
        v = w;
    }
    s.len()
}
