// Ticks (01 Events).
ghost use Rattle.std.specs.Prelude.{cond, ◌≡◌, leb};
ghost use Rattle.call.specs.Outcomes.{goes, since, unchanged};
ghost use Rattle.call.specs.Ticks.{tick_in};
ghost use Rattle.answers.specs.declared.State.TheVariants.{Ended};
ghost use Rattle.answers.specs.declared.Word.TheVariants.{None};

use crate::records::{Call, Outcome, freed, goes, since, unchanged};
use answers::{State, Word};

// A limit that has passed ends the call with a word.
fn expires(word: Word, limit: u64, then: u64, now: u64, c: Call) -> Outcome
    ensures { result ≡ cond (leb limit (since now then)) (goes word Ended now c) (unchanged None c) }
{
    if limit <= since(now, then) {
        goes(word, State::Ended, now, c)
    } else {
        unchanged(Word::None, c)
    }
}

// A tick on a call.
pub fn tick(now: u64, c: Call) -> Outcome
    ensures { result ≡ tick_in c.state now c }
{
    match c.state {
        State::Calling | State::Cancelling => expires(Word::Timeout, 15000, c.entry, now, c),
        State::Ringing => expires(Word::Timeout, 150000, c.entry, now, c),
        State::Answered | State::Talking => expires(Word::Idle, 1800000, c.chat, now, c),
        State::Ended => {
            if 3600000 < since(now, c.entry) {
                freed()
            } else {
                unchanged(Word::None, c)
            }
        }
    }
}
