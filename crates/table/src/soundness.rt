// Whether a table is well-formed (01 The table image): its frame, each record by itself, the Call-IDs.
ghost use Rattle.std.specs.Prelude.{◌≡◌, ◌+◌, ◌≤◌, length};
ghost use Rattle.rules.specs.Texts.{call_id_rule, fire_rule, user_rule};
ghost use Rattle.table.specs.Image.{record_size};
ghost use Rattle.table.specs.Record.{call_id_at, call_id_room, party_room, user_at};
ghost use Rattle.table.specs.WellFormed.{callee_sound, fields_sound, frame_sound, record_sound, records_sound, slot_sound, texts_sound, used_sound, well_formed};

use crate::blanking::header;
use crate::layout::{
    CALL_ID_AT, CALL_ID_ROOM, CALLEE_FIRE_AT, CALLER_FIRE_AT, CHAT_AT, HEADER_SIZE, MOST_RECORDS,
    PARTY_ROOM, RECORD_SIZE, SPARE_AT, STATE_AT, USER_AT,
};
use crate::marks::is_distinct;
use crate::numbers::{Fields, fields_of};
use crate::records::record_at;
use crate::searching::record_count;
use crate::texts::{all_zero, is_padded, text};
use octets::among;

// Whether header and length are right.
fn is_frame_sound(t: &[u8]) -> bool
    ensures { result ≡ frame_sound t.now }
{
    let n = record_count(t);
    if n < 1 || MOST_RECORDS < n || t.len() != HEADER_SIZE + RECORD_SIZE * n {
        return false;
    }
    let h = header(n);
    octets::same(&t[0..HEADER_SIZE], &h)
}

// Whether the callee's highest number and its method agree.
#[tactic(auto, unfolding(crate::specs::WellFormed::callee_sound))]
fn is_callee_sound(callee: u32, method: u8) -> bool
    ensures { result ≡ callee_sound callee method }
{
    if callee == 0 {
        method == 0
    } else {
        among(1, 8, method)
    }
}

// Whether the numbers of a record in use are right.
#[tactic(auto, unfolding(crate::specs::WellFormed::fields_sound))]
fn are_fields_sound(f: Fields) -> bool
    ensures { result ≡ fields_sound f }
{
    among(1, 6, f.state)
        && 1 <= f.invite
        && f.invite <= f.caller
        && among(1, 8, f.callermethod)
        && is_callee_sound(f.callee, f.calleemethod)
        && f.secure <= 1
        && f.entry <= f.last
        && f.chat <= f.last
}

// Whether a record's Call-ID is within its rule and its room.
#[tactic(auto, unfolding(crate::specs::WellFormed::slot_sound))]
fn is_call_id_sound(r: &[u8]) -> bool
    requires { length r.now ≡ record_size }
    ensures { result ≡ slot_sound call_id_rule call_id_at call_id_room r.now }
{
    is_padded(r, CALL_ID_AT, CALL_ID_ROOM) && rules::is_call_id(text(r, CALL_ID_AT, CALL_ID_ROOM))
}

// Whether its user is.
#[tactic(auto, unfolding(crate::specs::WellFormed::slot_sound))]
fn is_user_sound(r: &[u8]) -> bool
    requires { length r.now ≡ record_size }
    ensures { result ≡ slot_sound user_rule user_at party_room r.now }
{
    is_padded(r, USER_AT, PARTY_ROOM) && rules::is_user_id(text(r, USER_AT, PARTY_ROOM))
}

// Whether the Fire-ID whose length stands at `at` is.
#[tactic(auto, unfolding(crate::specs::WellFormed::slot_sound))]
fn is_fire_sound(r: &[u8], at: usize) -> bool
    requires { at + 1 + party_room ≤ length r.now }
    ensures { result ≡ slot_sound fire_rule at party_room r.now }
{
    is_padded(r, at, PARTY_ROOM) && rules::is_fire_id(text(r, at, PARTY_ROOM))
}

// Whether the four texts of a record are within their rules and their rooms.
#[tactic(auto, unfolding(crate::specs::WellFormed::texts_sound))]
fn are_texts_sound(r: &[u8]) -> bool
    requires { length r.now ≡ record_size }
    ensures { result ≡ texts_sound r.now }
{
    is_call_id_sound(r)
        && is_user_sound(r)
        && is_fire_sound(r, CALLER_FIRE_AT)
        && is_fire_sound(r, CALLEE_FIRE_AT)
}

// Whether a record in use is well-formed by itself.
#[tactic(auto, unfolding(crate::specs::WellFormed::used_sound))]
fn is_used_sound(r: &[u8]) -> bool
    requires { length r.now ≡ record_size }
    ensures { result ≡ used_sound r.now }
{
    are_fields_sound(fields_of(r)) && all_zero(&r[SPARE_AT..CHAT_AT]) && are_texts_sound(r)
}

// Whether a record is well-formed by itself. The state tells which of the two it may be.
fn is_record_sound(r: &[u8]) -> bool
    requires { length r.now ≡ record_size }
    ensures { result ≡ record_sound r.now }
{
    if r[STATE_AT] == 0 {
        all_zero(r)
    } else {
        is_used_sound(r)
    }
}

// Whether each record is well-formed by itself.
fn are_records_sound(t: &[u8]) -> bool
    ensures { result ≡ records_sound t.now }
{
    let n = record_count(t);
    for k in 0..n {
        if !is_record_sound(record_at(t, k)) {
            return false;
        }
    }
    true
}

// Whether the table is well-formed. Any bytes will do. Counted on x86-64: 255 records in use with Call-IDs of 36 bytes take
// 354,000 instructions; the costliest table that we could make, of full texts and Call-IDs that share their mark, takes 1,104,000.
pub fn well_formed(t: &[u8]) -> bool
    ensures { result ≡ well_formed t.now }
{
    is_frame_sound(t) && are_records_sound(t) && is_distinct(t)
}
