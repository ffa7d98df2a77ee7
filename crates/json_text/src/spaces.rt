// White space, which may stand around every structural character.
ghost use Rattle.std.specs.Prelude.{◌≡◌, ◌≤◌, length};
ghost use Rattle.json_text.specs.Places.{is_ws, past};
ghost use Rattle.json_text.specs.inner.Landing.{Lands};
ghost use Rattle.json_text.specs.inner.Machine.{Pass};

use octets::past;

#[tactic(auto, unfolding(crate::specs::Places::is_ws))]
pub fn is_space(b: u8) -> bool
    ensures { result ≡ is_ws b }
{
    matches!(b, b' ' | b'\t' | b'\n' | b'\r')
}

// Past the white space at a.
pub fn skip(s: &[u8], a: usize) -> usize
    ensures { Lands s.now a (past s.now a) result }
{
    if s.len() <= a {
        return a;
    }
    past(s, a, |b| is_space(b))
}

// The same, as the machine has it.
pub fn past_spaces(s: &[u8], at: usize) -> usize
    requires { at ≤ length s.now }
    ensures { Pass is_ws s.now at result }
{
    skip(s, at)
}
