// The numbers of a record: read from its bytes, and written back.
ghost use Rattle.std.specs.Prelude.{◌≡◌, ◌+◌, ◌≤◌, ◌<◌, drop, length, take};
ghost use Rattle.octets.specs.Number.{big_endian};
ghost use Rattle.octets.specs.Splice.{splice};
ghost use Rattle.table.specs.Image.{record_size};
ghost use Rattle.table.specs.Record.{counts_of, record_fields, last_at, numbers_of, secure_at, times_of};

use crate::layout::{
    CALLEE_AT, CALLEE_METHOD_AT, CALLER_AT, CALLER_METHOD_AT, CHAT_AT, ENTRY_AT, INVITE_AT,
    LAST_AT, SECURE_AT, STATE_AT,
};

// The fields of a record that are numbers, as they stand in it; `callermethod` and `calleemethod`
// are the methods of the two sides' highest numbers.
#[derive(Clone, Copy)]
pub struct Fields {
    pub state: u8,
    pub secure: u8,
    pub invite: u32,
    pub caller: u32,
    pub callermethod: u8,
    pub callee: u32,
    pub calleemethod: u8,
    pub last: u64,
    pub entry: u64,
    pub chat: u64,
}

// The number that the four bytes from `at` on are, the highest first.
fn word_at(s: &[u8], at: usize) -> u32
    requires { at + 4 ≤ length s.now }
    ensures { result ≡ big_endian (take 4 (drop at s.now)) }
{
    octets::number_at(s, at, 4) as u32
}

// The numbers of a record.
pub fn fields_of(r: &[u8]) -> Fields
    requires { length r.now ≡ record_size }
    ensures { result ≡ record_fields r.now }
{
    Fields {
        state: r[STATE_AT],
        secure: r[SECURE_AT],
        invite: word_at(r, INVITE_AT),
        caller: word_at(r, CALLER_AT),
        callermethod: r[CALLER_METHOD_AT],
        callee: word_at(r, CALLEE_AT),
        calleemethod: r[CALLEE_METHOD_AT],
        last: octets::number_at(r, LAST_AT, 8),
        entry: octets::number_at(r, ENTRY_AT, 8),
        chat: octets::number_at(r, CHAT_AT, 8),
    }
}

// Writes Secure-Call, the caller's method and the three numbers of the record that starts at p.
fn put_counts(out: &mut [u8], p: usize, f: Fields)
    requires { p + record_size ≤ length out.old }
    ensures { out.new ≡ splice out.old (p + secure_at) (counts_of f) }
{
    let front = [f.secure, f.callermethod];
    octets::put(out, p + SECURE_AT, &front);
    octets::put_number(out, p + INVITE_AT, 4, f.invite as u64);
    octets::put_number(out, p + CALLER_AT, 4, f.caller as u64);
    octets::put_number(out, p + CALLEE_AT, 4, f.callee as u64);
}

// Writes its times, with the callee's method and seven 00 between them.
fn put_times(out: &mut [u8], p: usize, f: Fields)
    requires { p + record_size ≤ length out.old }
    ensures { out.new ≡ splice out.old (p + last_at) (times_of f) }
{
    octets::put_number(out, p + LAST_AT, 8, f.last);
    octets::put_number(out, p + ENTRY_AT, 8, f.entry);
    let middle = [f.calleemethod, 0, 0, 0, 0, 0, 0, 0];
    octets::put(out, p + CALLEE_METHOD_AT, &middle);
    octets::put_number(out, p + CHAT_AT, 8, f.chat);
}

// Writes all its numbers but the state, which the texts part from them.
pub fn put_numbers(out: &mut [u8], p: usize, f: Fields)
    requires { p + record_size ≤ length out.old }
    ensures { out.new ≡ splice out.old (p + secure_at) (numbers_of f) }
{
    put_counts(out, p, f);
    put_times(out, p, f);
}
