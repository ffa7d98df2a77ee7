// The text of a part of a message, such as the next host (02 §2).
ghost use Rattle.writing.specs.Outcome.{Writes};
ghost use Rattle.writing.specs.Texting.{texting};

use crate::answers::Refusal;
use escapes::{decode, measure};

// Writes the text that the bytes s between a string's quotes spell into `out`.
pub fn text(out: &mut [u8], s: &[u8]) -> Result<usize, Refusal>
    ensures { Writes out.old (texting s.now) result out.new }
{
    let m = measure(s);
    if m.broken {
        return Err(Refusal::Broken);
    }
    if 32768 < m.length {
        return Err(Refusal::Long);
    }
    if out.len() < m.length {
        return Err(Refusal::Room);
    }
    Ok(decode(s, out))
}
