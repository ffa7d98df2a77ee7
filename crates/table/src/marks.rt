// Whether Call-IDs are distinct. A mark of 32 bits tells nearly all apart without comparing each with each. Call-IDs come from
// outside, and somebody may make many of one mark: those are compared by their rooms, at the same small cost for any two.
ghost use Rattle.std.specs.Prelude.{true, ◌≡◌, ◌≤◌, ◌<◌, length};
ghost use Rattle.table.specs.Image.{most_records, record_at, record_size, record_count};
ghost use Rattle.table.specs.inner.Mark.{mark_of, marked, Marks};
ghost use Rattle.table.specs.Record.{call_id_at, record_call_id, call_id_room, room_at};
ghost use Rattle.table.specs.WellFormed.{apart, apart_before, distinct, padded, records_sound};

use crate::layout::{CALL_ID_AT, CALL_ID_ROOM, HEADER_SIZE, MOST_RECORDS, RECORD_SIZE, STATE_AT};
use crate::records::record_at;
use crate::searching::record_count;
use crate::texts::{same_at_once, text};

// The mark of a text.
fn mark(s: &[u8]) -> u32
    ensures { result ≡ mark_of s.now }
{
    let mut v: u64 = 0;
    for b in s {
        v = (v * 31 + u64::from(*b)) % 4294967296;
    }
    v as u32
}

// Whether m is among the first n marks. It leaves no earlier than at the end: so it becomes a test of
// several marks at once.
fn is_marked(marks: &[u32; MOST_RECORDS], n: usize, m: u32) -> bool
    requires { n ≤ most_records }
    ensures { result ≡ marked marks.now n m }
{
    let mut hit = false;
    for i in 0..n {
        hit |= marks[i] == m;
    }
    hit
}

// The room of a record's Call-ID.
fn call_id_room(r: &[u8]) -> &[u8]
    requires { length r.now ≡ record_size }
    ensures { (result.now ≡ room_at call_id_at call_id_room r.now) × (length result.now ≡ call_id_room) }
{
    let a = CALL_ID_AT + 1;
    let e = a + CALL_ID_ROOM;
    &r[a..e]
}

// Whether two records are not two of one call. 00 stands behind both Call-IDs, so rooms that differ hold
// two Call-IDs; in a well-formed table no more than the rooms are looked at.
fn is_apart(r: &[u8], s: &[u8]) -> bool
    requires { (length r.now ≡ record_size) × (length s.now ≡ record_size) × (padded call_id_at call_id_room r.now ≡ true) × (padded call_id_at call_id_room s.now ≡ true) }
    ensures { result ≡ apart r.now s.now }
{
    if !same_at_once(call_id_room(r), call_id_room(s)) || r[STATE_AT] == 0 || s[STATE_AT] == 0 {
        return true;
    }
    !octets::same(
        text(r, CALL_ID_AT, CALL_ID_ROOM),
        text(s, CALL_ID_AT, CALL_ID_ROOM),
    )
}

// Whether record k is apart from each record before it, by comparing the Call-IDs.
fn is_apart_before(t: &[u8], k: usize) -> bool
    requires { (k < record_count t.now) × (records_sound t.now ≡ true) }
    ensures { result ≡ apart_before t.now k }
{
    let r = record_at(t, k);
    for l in 0..k {
        if !is_apart(r, record_at(t, l)) {
            return false;
        }
    }
    true
}

// Whether record k is apart from each record before it, by the marks of those: it is where it is free;
// else Call-IDs are compared only where its mark is among them.
fn is_new(t: &[u8], marks: &[u32; MOST_RECORDS], k: usize, m: u32) -> bool
    requires { (k < record_count t.now) × (k < most_records) × (m ≡ mark_of (record_call_id (record_at t.now k))) × Marks t.now marks.now k × (records_sound t.now ≡ true) }
    ensures { result ≡ apart_before t.now k }
{
    t[HEADER_SIZE + RECORD_SIZE * k] == 0 || !is_marked(marks, k, m) || is_apart_before(t, k)
}

// Whether no Call-ID stands in two records that are not free, of records each well-formed by itself.
pub fn is_distinct(t: &[u8]) -> bool
    requires { (record_count t.now ≤ most_records) × (records_sound t.now ≡ true) }
    ensures { result ≡ distinct t.now }
{
    let n = record_count(t);
    let mut marks = [0u32; MOST_RECORDS];
    for k in 0..n {
        let m = mark(text(record_at(t, k), CALL_ID_AT, CALL_ID_ROOM));
        if !is_new(t, &marks, k, m) {
            return false;
        }
        marks[k] = m;
    }
    true
}
