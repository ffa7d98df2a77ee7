// JSON (RFC 7159) to a depth of eight and under a ceiling of values: whether bytes are a text, with how many values, and where not; where values,
// members and elements stand. The answer of `read` is proved right in the words of the RFC's own grammar, kind, count and place, and a text has
// one answer only under one ceiling. Any bytes may be handed over, and any place; nothing is kept, and the stack grows with the nesting alone.
#![tactic(auto)]

mod literals;
mod numbers;
mod passing;
mod places;
mod spaces;
mod strings;
mod values;

ghost use Rattle.json_text.specs.Verdict.{Verdict};

pub use passing::{Visit, pass_member, pass_string};
pub use places::{Element, Member, element_at, member_at, name_part, part, value_part};
use spaces::past_spaces;
pub use spaces::skip;
use values::value;

// Why bytes are no text, and where: the first byte with which no text goes on, or the length where they only stop short; the bracket that
// opens a level too many; or the first byte of the first value too many.
#[derive(Clone, Copy, Debug, PartialEq, Eq)]
pub enum Fault {
    Bad(usize),
    Deep(usize),
    Many(usize),
}

// Reads a whole text under a ceiling of values (02 §9), and answers how many it has. The earliest fault answers, and Deep, which is a ninth
// level, before Many at one place.
pub fn read(s: &[u8], ceiling: usize) -> Result<usize, Fault>
    ensures { Verdict ceiling s.now result }
{
    let (e, room) = value(s, 0, 8, ceiling)?;
    let i = past_spaces(s, e);
    if i < s.len() {
        return Err(Fault::Bad(i));
    }
    Ok(ceiling - room)
}
