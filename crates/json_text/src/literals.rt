// The literal names true, false and null.
ghost use Rattle.std.specs.Prelude.{◌≤◌, length};
ghost use Rattle.json_text.specs.inner.Machine.{Leaf, after, due};

use crate::Fault;

// The bytes w, which are what is left of a literal name.
pub fn literal(s: &[u8], at: usize, w: &[u8]) -> Result<usize, Fault>
    requires { at ≤ length s.now }
    ensures { Leaf s.now at (λ _. due w.now) (λ _. after) result }
{
    for j in 0..w.len() {
        let i = at + j;
        if s.len() <= i {
            return Err(Fault::Bad(i));
        }
        if s[i] != w[j] {
            return Err(Fault::Bad(i));
        }
    }
    Ok(at + w.len())
}
