// Where the known fields of an accepted message stand, for whoever goes on with their values.
ghost use Rattle.std.specs.Prelude.{Ok, ℕ, ◌≡◌};
ghost use Rattle.message.specs.Placing.{places_of};
ghost use Rattle.message.specs.Reading.{reading};
ghost use Rattle.message.specs.declared.facts.Message.{Message as Facts};

use crate::gathering::gather;
use crate::shapes::shape_of;

// No field stands anywhere.
const NOWHERE: [usize; 27] = [0; 27];

// The places of the values of the known fields of a message that is read, by number, 0 where there is none. Its frame is none of the reading's, which is deep
// (C is promised how much stack a call takes).
#[inline(never)]
pub fn places(s: &[u8]) -> [usize; 27]
    ensures { (c : ℕ) (m : Facts) → reading c s.now ≡ Ok m → result ≡ places_of s.now }
{
    match shape_of(s) {
        None => NOWHERE,
        Some(f) => gather(s, f.object).unwrap_or(NOWHERE),
    }
}
