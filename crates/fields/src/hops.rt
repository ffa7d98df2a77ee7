// An object of Via: its three members, gathered in one walk; and by its own bytes where its host and its destination stand in it.
ghost use Rattle.fields.specs.inner.Gathering.{begin_of, places_in, plain, AllFound, Found, Gathered};
ghost use Rattle.std.specs.Prelude.{MatchOption, Some, ◌&&◌, cond, true, ◌≡◌, ◌+◌, ◌<◌, eqb, ltb, get_or, length, set};
ghost use Rattle.json_text.specs.Places.{behind, members};
ghost use Rattle.fields.specs.Hop.{hop_of};
ghost use Rattle.fields.specs.Known.{empty, repeated};
ghost use Rattle.rules.specs.Names.{hop_members};

use crate::spelled::hop_member;
use json_text::{Member, member_at, part, skip};
use octets::byte;

// Where a value begins, and where it ends.
#[derive(Clone, Copy)]
pub struct Value {
    pub at: usize,
    pub end: usize,
}

// The values of the three members of an object of Via, as far as they are there.
#[derive(Clone, Copy)]
pub struct Members {
    pub host: Option<Value>,
    pub destination: Option<Value>,
    pub organization: Option<Value>,
}

// Whether member k has a place already.
fn has_member(m: Members, k: u8) -> bool
    requires { k < 4 }
    ensures { (v : _) → AllFound v m → result ≡ (ltb 0 k && ltb 0 (get_or (places_in m) k 0)) }
{
    match k {
        1 => m.host.is_some(),
        2 => m.destination.is_some(),
        3 => m.organization.is_some(),
        _ => false,
    }
}

// The members with x for member k; 0 is no member.
fn with_member(m: Members, k: u8, x: Value) -> Members
    requires { k < 4 }
    ensures { (places_in result ≡ cond (eqb k 0) (places_in m) (set (places_in m) k x.at)) × ((v : _) → Found v (Some x) → AllFound v m → AllFound v result) }
{
    match k {
        1 => Members { host: Some(x), ..m },
        2 => Members {
            destination: Some(x),
            ..m
        },
        3 => Members {
            organization: Some(x),
            ..m
        },
        _ => m,
    }
}

// Whether the member x has a colon, and a value that opens with a quote or a bracket: behind it as many brackets are open as before it.
#[tactic(auto, unfolding(crate::specs::inner::Gathering::plain))]
fn is_plain(v: &[u8], x: Member) -> bool
    ensures { result ≡ plain v.now x.name x.value }
{
    byte(v, skip(v, x.name)) == b':' && matches!(byte(v, x.value), b'"' | b'[' | b'{')
}

// Where the object ends whose members end at p: behind the brace there, where that is known.
fn shut_at(v: &[u8], known: bool, p: usize) -> Option<usize>
    ensures { MatchOption result Unit (λ e. (known ≡ true) × ((get_or v.now p 0 ≡ 125) × (e ≡ p + 1))) }
{
    if !known {
        return None;
    }
    if byte(v, p) != b'}' {
        return None;
    }
    Some(p + 1)
}

// The members of an object, and where it is shut, if the walk over them tells.
#[derive(Drop)]
pub struct Shut {
    pub members: Members,
    pub end: Option<usize>,
}

// The three members of the object that opens at o, and its end, in one walk; none where one of the three stands twice.
pub fn hop_members(v: &[u8], o: usize) -> Option<Shut>
    requires { o < length v.now }
    ensures { MatchOption result (repeated hop_members v.now empty (members v.now o) ≡ 0 → ⊥) (λ w. (Gathered hop_members v.now o 0 (places_in w.members) × AllFound v.now w.members) × MatchOption w.end Unit (λ e. e ≡ behind v.now o)) }
{
    let mut m = Members {
        host: None,
        destination: None,
        organization: None,
    };
    let mut known = byte(v, o) == b'{';
    let mut p = o + 1;
    for _ in 0..v.len() {
        let q = skip(v, p);
        if byte(v, q) != b'"' {
            return Some(Shut {
                members: m,
                end: None,
            });
        }
        let x = member_at(v, q);
        let name = x.name;
        let k = hop_member(part(v, q + 1, name - 1));
        if has_member(m, k) {
            return None;
        }
        m = with_member(
            m,
            k,
            Value {
                at: x.value,
                end: x.end,
            },
        );
        known = known && is_plain(v, x);
        let then = x.then;
        if byte(v, then) != b',' {
            let end = shut_at(v, known, then);
            return Some(Shut { members: m, end });
        }
        p = then + 1;
    }
    Some(Shut {
        members: m,
        end: None,
    })
}

// The first bytes of the values of host and destination; 0 for one that is missing, and for both where one of the three members of an
// object of Via stands twice. In a message that is read neither is so.
// (Not an Option: `host_of` of specs/ is defined of any object, and reads at 0 in one without a host, so `writing` would turn each None into 0.)
#[derive(Drop)]
pub struct Hop {
    pub host: usize,
    pub destination: usize,
}

// Where a value begins; 0 for one that is missing.
fn begin(x: Option<Value>) -> usize
    ensures { result ≡ begin_of x }
{
    match x {
        None => 0,
        Some(x) => x.at,
    }
}

// Where the values of host and destination stand in the object v.
pub fn hop_of(v: &[u8]) -> Hop
    ensures { result ≡ hop_of v.now }
{
    let missing = Hop {
        host: 0,
        destination: 0,
    };
    if v.len() == 0 {
        return missing;
    }
    match hop_members(v, 0) {
        None => missing,
        Some(w) => Hop {
            host: begin(w.members.host),
            destination: begin(w.members.destination),
        },
    }
}
