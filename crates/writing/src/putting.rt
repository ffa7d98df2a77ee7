// A text is a list of parts: what every result here is written by.
ghost use Rattle.writing.specs.Outcome.{Writes, write};
ghost use Rattle.writing.specs.Parts.{joined};

use crate::answers::Refusal;
use octets::put;

// Writes the parts one after the other, if they fit.
pub fn put_parts(out: &mut [u8], parts: &[&[u8]]) -> Result<usize, Refusal>
    ensures { Writes out.old (write (joined parts.now)) result out.new }
{
    let mut total = 0;
    for part in parts {
        total += part.len();
        if 32768 < total {
            return Err(Refusal::Long);
        }
    }
    if out.len() < total {
        return Err(Refusal::Room);
    }
    let mut at = 0;
    for part in parts {
        at = put(out, at, part);
    }
    Ok(at)
}
