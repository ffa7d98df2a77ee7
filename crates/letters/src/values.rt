// CSeq, To and From, Date, Call-ID: how many letters of a text begin one. Each rule is read from its end to its start, piece by piece: where the text
// leaves a piece, what stands behind it does not count.
ghost use Rattle.std.specs.Prelude.{[], ◌∷◌, ◌≡◌, ◌+◌, ◌≤◌, drop, length};
ghost use Rattle.letters.specs.inner.Reach.{address_reach, call_id_reach, date_reach, reach_of, sequence_reach, words_reach};
ghost use Rattle.rules.specs.Address.{callee, caller};
ghost use Rattle.rules.specs.Date.{time, zone};
ghost use Rattle.rules.specs.Names.{methods};
ghost use Rattle.rules.specs.Pieces.{fixed};
ghost use Rattle.rules.specs.Texts.{fire_id};

use crate::pieces::{common, count_letters, fixed_or, number_or, rest, run_letters, run_or};
use rules::{Class, days_in, number_at};

// Call-ID.
pub fn call_id_reach(s: &[u8]) -> usize
    ensures { result ≡ call_id_reach s.now }
{
    run_letters(s, 64, Class::Name, Class::Alnum)
}

// One of the methods.
fn method_reach(s: &[u8]) -> usize
    ensures { (result ≡ words_reach methods s.now) × (result ≤ length s.now) }
{
    let invite = common(s, b"INVITE");
    let bye = common(s, b"BYE");
    let cancel = common(s, b"CANCEL");
    let ack = common(s, b"ACK");
    let message = common(s, b"MESSAGE");
    let callback = common(s, b"CALLBACK");
    let refer = common(s, b"REFER");
    let notify = common(s, b"NOTIFY");
    let last = message.max(callback.max(refer.max(notify)));
    invite.max(bye.max(cancel.max(ack.max(last))))
}

// CSeq.
pub fn sequence_reach(s: &[u8]) -> usize
    ensures { result ≡ sequence_reach s.now }
{
    let end = count_letters(s, 4294967295);
    if end == 0 {
        return 0;
    }
    let method = method_reach(rest(s, end + 1));
    fixed_or(s, end, b" ", end + 1 + method)
}

// A Fire-ID from a place on, and then the letters w to the end.
fn fire_reach(s: &[u8], at: usize, w: &[u8]) -> usize
    requires { at ≤ 64 + length s.now }
    ensures { result ≡ at + reach_of (fire_id ∷ fixed w.now ∷ []) (drop at s.now) }
{
    let end = at + run_letters(rest(s, at), 15, Class::Fire, Class::Small);
    let tail = end + common(rest(s, end), w);
    run_or(s, at, end, 2, 15, Class::Small, tail)
}

// A caller's address.
fn caller_reach(s: &[u8]) -> usize
    ensures { result ≡ reach_of caller s.now }
{
    let user = 7 + run_letters(rest(s, 7), 15, Class::Alnum, Class::Alnum);
    let desk = fire_reach(s, user + 1, b".caller");
    let at = fixed_or(s, user, b"@", desk);
    fixed_or(
        s,
        0,
        b"net119:",
        run_or(s, 7, user, 1, 15, Class::Alnum, at),
    )
}

// A callee's address.
fn callee_reach(s: &[u8]) -> usize
    ensures { result ≡ reach_of callee s.now }
{
    fixed_or(s, 0, b"net119:fire@", fire_reach(s, 12, b".callee"))
}

// To and From: a caller's address or a callee's.
pub fn address_reach(s: &[u8]) -> usize
    ensures { result ≡ address_reach s.now }
{
    caller_reach(s).max(callee_reach(s))
}

// The zone of a Date from byte 19 on.
fn zone_reach(s: &[u8]) -> usize
    ensures { result ≡ 19 + reach_of zone (drop 19 s.now) }
{
    let minute = number_or(s, 22, 2, 0, 59, 24);
    fixed_or(s, 19, b"+", number_or(s, 20, 2, 0, 14, minute))
}

// Its time and zone from byte 10 on.
fn time_reach(s: &[u8]) -> usize
    ensures { result ≡ 10 + reach_of time (drop 10 s.now) }
{
    let second = number_or(s, 17, 2, 0, 59, zone_reach(s));
    let minute = number_or(s, 14, 2, 0, 59, fixed_or(s, 16, b":", second));
    let hour = number_or(s, 11, 2, 0, 23, fixed_or(s, 13, b":", minute));
    fixed_or(s, 10, b"T", hour)
}

// Date: the month's days are those of the year and the month that stand before it.
pub fn date_reach(s: &[u8]) -> usize
    ensures { result ≡ date_reach s.now }
{
    let last = days_in(number_at(s, 0, 4), number_at(s, 5, 2));
    let day = number_or(s, 8, 2, 1, last, time_reach(s));
    let month = number_or(s, 5, 2, 1, 12, fixed_or(s, 7, b"-", day));
    number_or(s, 0, 4, 1, 9999, fixed_or(s, 4, b"-", month))
}
