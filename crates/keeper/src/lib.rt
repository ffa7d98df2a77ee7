// The keeper (01 Events): what a message or a tick is answered, and what it leaves in the table that the caller lends.
// Proved: the answer and every byte of the table after it, for any bytes, any time and any table image; a refusal leaves the table as it was.
// `message` and `tick` check everything themselves; `message_step` and `tick_step` ask for a well-formed table, and leave one.
#![tactic(auto)]

mod facts;
mod steps;

ghost use Rattle.std.specs.Prelude.{◌≡◌};
ghost use Rattle.keeper.specs.Keeping.{on_message, on_tick};

use answers::{Answer, Refusal};
pub use steps::{message_step, tick_step};

// A message of any bytes at any time, on any table image, with room for so many JSON values (02 §9): 1 where the table is not
// well-formed; else as document 01 rules.
pub fn message(t: &mut [u8], time: u64, s: &[u8], ceiling: u32) -> Answer
    ensures { (result ≡ (on_message ceiling t.old time s.now).answer) × (t.new ≡ (on_message ceiling t.old time s.now).table) }
{
    if !table::well_formed(t) {
        return Err(Refusal::Table);
    }
    message_step(t, time, s, ceiling)
}

// A tick for a Call-ID of any bytes at any time, on any table image.
pub fn tick(t: &mut [u8], time: u64, id: &[u8]) -> Answer
    ensures { (result ≡ (on_tick t.old time id.now).answer) × (t.new ≡ (on_tick t.old time id.now).table) }
{
    if !table::well_formed(t) {
        return Err(Refusal::Table);
    }
    tick_step(t, time, id)
}
