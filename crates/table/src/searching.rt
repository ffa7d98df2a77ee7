// The search for a call's record, and for the lowest free one.
ghost use Rattle.std.specs.Prelude.{◌≡◌, ◌<◌, length};
ghost use Rattle.table.specs.Image.{record_size, record_count};
ghost use Rattle.table.specs.Record.{is_named};
ghost use Rattle.table.specs.Search.{free_place, place_named};

use crate::layout::{CALL_ID_AT, CALL_ID_ROOM, HEADER_SIZE, RECORD_SIZE, STATE_AT};
use crate::records::record_at;
use crate::texts::text;

// How many whole records stand behind the header.
pub fn record_count(t: &[u8]) -> usize
    ensures { result ≡ record_count t.now }
{
    t.len().saturating_sub(HEADER_SIZE) / RECORD_SIZE
}

// Whether a record is the record of a call.
#[tactic(auto, unfolding(crate::specs::Record::is_named))]
fn is_named(r: &[u8], id: &[u8]) -> bool
    requires { length r.now ≡ record_size }
    ensures { result ≡ is_named id.now r.now }
{
    r[STATE_AT] != 0 && octets::same(text(r, CALL_ID_AT, CALL_ID_ROOM), id)
}

// The place of a call's record: the lowest, where there are several.
pub fn find(t: &[u8], id: &[u8]) -> Option<usize>
    ensures { result ≡ place_named id.now t.now }
{
    let n = record_count(t);
    for k in 0..n {
        if is_named(record_at(t, k), id) {
            return Some(k);
        }
    }
    None
}

// The lowest free record's place. Two loops, since what a test that is handed over must promise takes more lines than a loop.
pub fn free_place(t: &[u8]) -> Option<usize>
    ensures { result ≡ free_place t.now }
{
    let n = record_count(t);
    for k in 0..n {
        let p = HEADER_SIZE + RECORD_SIZE * k;
        if t[p] == 0 {
            return Some(k);
        }
    }
    None
}
