// To and From.
ghost use Rattle.std.specs.Prelude.{◌≡◌, ◌≤◌, ◌+◌, length};
ghost use Rattle.rules.specs.Address.{address_of, callee_end, callee_rule, caller_end, caller_rule, user_end};

use crate::classes::Class;
use crate::pieces::{mark, run_end, within};
use octets::stands_at;

// A caller's address with the places where its user, which begins at 7, and its Fire-ID, one further
// on, end; or a callee's with the end of its Fire-ID, which begins at 12.
#[derive(Clone, Copy)]
pub enum Address {
    Caller { user: usize, fire: usize },
    Callee { fire: usize },
}

fn is_caller(s: &[u8], user: usize, fire: usize) -> bool
    requires { (user ≡ user_end s.now) × ((fire ≡ caller_end s.now) × ((7 ≤ user) × ((user + 1 ≤ fire) × (fire ≤ 64 + length s.now)))) }
    ensures { result ≡ caller_rule s.now }
{
    stands_at(s, 0, b"net119:")
        && within(s, 7, user, 1, 15, Class::Alnum)
        && mark(s, user, b'@')
        && within(s, user + 1, fire, 2, 15, Class::Small)
        && stands_at(s, fire, b".caller")
        && fire + 7 == s.len()
}

fn is_callee(s: &[u8], fire: usize) -> bool
    requires { (fire ≡ callee_end s.now) × ((12 ≤ fire) × (fire ≤ 64 + length s.now)) }
    ensures { result ≡ callee_rule s.now }
{
    stands_at(s, 0, b"net119:fire@")
        && within(s, 12, fire, 2, 15, Class::Small)
        && stands_at(s, fire, b".callee")
        && fire + 7 == s.len()
}

// What a To or From says; None where the text breaks the rule.
pub fn address_of(s: &[u8]) -> Option<Address>
    ensures { result ≡ address_of s.now }
{
    let user = run_end(s, 7, Class::Alnum);
    let fire = run_end(s, user + 1, Class::Fire);
    if is_caller(s, user, fire) {
        return Some(Address::Caller { user, fire });
    }
    let fire = run_end(s, 12, Class::Fire);
    is_callee(s, fire).then_some(Address::Callee { fire })
}
