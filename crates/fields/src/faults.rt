// Where a string of the fields 1 to 5 breaks its rule (02 §12). Asked only of a value that does.
ghost use Rattle.std.specs.Prelude.{◌≡◌, ◌+◌};
ghost use Rattle.escapes.specs.Placing.{place_of};
ghost use Rattle.escapes.specs.Rfc7159.{text};
ghost use Rattle.fields.specs.Field.{letter_reach};

use escapes::place_of;
use rules::{CSEQ, DATE};
use values::of_text;

// How many octets of the text t begin an allowed text of field n.
#[tactic(auto, unfolding(crate::specs::Field::letter_reach))]
fn reach(n: usize, t: &[u8]) -> usize
    ensures { result ≡ letter_reach n t.now }
{
    match n {
        CSEQ => letters::sequence_reach(t),
        ..DATE => letters::address_reach(t),
        DATE => letters::date_reach(t),
        _ => letters::call_id_reach(t),
    }
}

// The place of the bad letter in the string of field n that is spelled w, counted from its opening quote. No allowed text is longer than the buffer.
pub fn letter_at(n: usize, w: &[u8]) -> usize
    ensures { result ≡ 1 + place_of w.now (letter_reach n (text w.now)) }
{
    1 + place_of(w, of_text(w, |t| reach(n, t)))
}
