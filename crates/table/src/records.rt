// Reading and storing the record at a place of a table.
ghost use Rattle.std.specs.Prelude.{◌≡◌, ◌≤◌, ◌<◌, length};
ghost use Rattle.table.specs.Image.{free_record, record_at, record_size, record_count, with_record};
ghost use Rattle.table.specs.Record.{call_id_room, record_fields, new_record, party_room, same_parties, with_fields};

use crate::layout::{
    CALL_ID_AT, CALL_ID_ROOM, CALLEE_FIRE_AT, CALLER_FIRE_AT, HEADER_SIZE, PARTY_ROOM, RECORD_SIZE,
    USER_AT,
};
use crate::numbers::{Fields, fields_of, put_numbers};
use crate::texts::{clear, put_text, text};

// The bytes of record k, all of them.
pub fn record_at(t: &[u8], k: usize) -> &[u8]
    requires { k < record_count t.now }
    ensures { (result.now ≡ record_at t.now k) × (length result.now ≡ record_size) }
{
    let a = HEADER_SIZE + RECORD_SIZE * k;
    let e = a + RECORD_SIZE;
    &t[a..e]
}

// The numbers of record k.
pub fn fields_at(t: &[u8], k: usize) -> Fields
    requires { k < record_count t.now }
    ensures { result ≡ record_fields (record_at t.now k) }
{
    fields_of(record_at(t, k))
}

// Whether user and both Fire-IDs are those of record k.
#[tactic(auto, unfolding(crate::specs::Record::same_parties))]
pub fn same_parties(t: &[u8], k: usize, user: &[u8], caller_fire: &[u8], callee_fire: &[u8]) -> bool
    requires { k < record_count t.now }
    ensures { result ≡ same_parties user.now caller_fire.now callee_fire.now (record_at t.now k) }
{
    let r = record_at(t, k);
    octets::same(text(r, USER_AT, PARTY_ROOM), user)
        && octets::same(text(r, CALLER_FIRE_AT, PARTY_ROOM), caller_fire)
        && octets::same(text(r, CALLEE_FIRE_AT, PARTY_ROOM), callee_fire)
}

// Stores other numbers in record k; its texts stay.
pub fn store(t: &mut [u8], k: usize, f: Fields)
    requires { k < record_count t.old }
    ensures { t.new ≡ with_record t.old k (with_fields (record_at t.old k) f) }
{
    let p = HEADER_SIZE + RECORD_SIZE * k;
    let state = [f.state];
    octets::put(t, p, &state);
    put_numbers(t, p, f);
}

// Makes record k a new one, whatever was in it.
pub fn open(
    t: &mut [u8],
    k: usize,
    call_id: &[u8],
    user: &[u8],
    caller_fire: &[u8],
    callee_fire: &[u8],
    f: Fields,
)
    requires { (k < record_count t.old) × (length call_id.now ≤ call_id_room) × (length user.now ≤ party_room) × (length caller_fire.now ≤ party_room) × (length callee_fire.now ≤ party_room) }
    ensures { t.new ≡ with_record t.old k (new_record call_id.now user.now caller_fire.now callee_fire.now f) }
{
    let p = HEADER_SIZE + RECORD_SIZE * k;
    let state = [f.state];
    octets::put(t, p, &state);
    put_text(t, p + CALL_ID_AT, CALL_ID_ROOM, call_id);
    put_text(t, p + USER_AT, PARTY_ROOM, user);
    put_text(t, p + CALLER_FIRE_AT, PARTY_ROOM, caller_fire);
    put_text(t, p + CALLEE_FIRE_AT, PARTY_ROOM, callee_fire);
    put_numbers(t, p, f);
}

// Frees record k: all 00.
pub fn release(t: &mut [u8], k: usize)
    requires { k < record_count t.old }
    ensures { t.new ≡ with_record t.old k free_record }
{
    let p = HEADER_SIZE + RECORD_SIZE * k;
    clear(t, p, p + RECORD_SIZE);
}
