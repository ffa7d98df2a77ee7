// The lowest fault of an object of a type, read from the type's table; objects in it are judged likewise, with a level less.
ghost use Rattle.std.specs.Prelude.{◌≡◌, ◌<◌, cond};
ghost use Rattle.json_text.specs.Places.{behind};
ghost use Rattle.particulars.specs.Faults.{array_faults, choices, faults, is_choice, is_needed, is_unset, members_faults, none_set, provider_in, provider_under, row_faults, rule_faults};
ghost use Rattle.particulars.specs.Lowest.{lowest};
ghost use Rattle.particulars.specs.Types.{row_of, rows_of};
ghost use Rattle.particulars.specs.inner.Gathering.{Ended, Gathered};

use crate::gathering::{Found, gather};
use crate::leaves::{PRESET, is_blank, keeps, provider_of};
use crate::lowest::lower;
use crate::types::{Call, Entry, Kind, Need, Rule, entries};
use json_text::{element_at, skip};
use octets::byte;
use values::value_at;

// Whether a member must be there.
#[tactic(auto, unfolding(crate::specs::Faults::is_needed))]
fn is_needed(w: u8, need: Need) -> bool
    ensures { result ≡ is_needed w need }
{
    match need {
        Need::Required => true,
        Need::OfPreset => w == PRESET,
        _ => false,
    }
}

// Whether a member is one of those of which one must be set.
#[tactic(auto, unfolding(crate::specs::Faults::is_choice))]
fn is_choice(need: Need) -> bool
    ensures { result ≡ is_choice need }
{
    matches!(need, Need::OneSet)
}

// Whether a member is unset whose value begins at v and ends at e.
fn is_unset(s: &[u8], v: usize, e: usize) -> bool
    requires { 0 < e → e ≡ behind s.now v }
    ensures { result ≡ is_unset s.now v }
{
    v == 0 || is_blank(value_at(s, v, e))
}

// Whether none is set of the members of which one must be.
fn is_none_set(s: &[u8], t: Kind, f: &Found) -> bool
    requires { Ended s.now f.now.at f.now.end }
    ensures { result ≡ none_set s.now (choices f.now.at 1 (rows_of t)) }
{
    let es = entries(t);
    let mut some = false;
    for k in 0..es.len() {
        if is_choice(es[k].need) {
            some = true;
            if !is_unset(s, f.at[k + 1], f.end[k + 1]) {
                return false;
            }
        }
    }
    some
}

// The number of the provider whose value begins at v and ends at e; 0 where there is none.
fn provider_under(s: &[u8], v: usize, e: usize) -> u8
    requires { 0 < e → e ≡ behind s.now v }
    ensures { result ≡ provider_under s.now v }
{
    if v == 0 {
        return 0;
    }
    provider_of(value_at(s, v, e))
}

// The number of the provider of a location; an object of no other type goes by one.
pub fn provider_in(s: &[u8], t: Kind, f: &Found) -> u8
    requires { Ended s.now f.now.at f.now.end }
    ensures { result ≡ provider_in t s.now f.now.at }
{
    match t {
        Kind::CallerLocation => provider_under(s, f.at[2], f.end[2]),
        _ => 0,
    }
}

// How many objects of so many a call may have.
fn allowed(call: Call, n: usize) -> usize
    ensures { result ≡ cond call.contacts n 0 }
{
    if call.contacts { n } else { 0 }
}

// An array at a of at most so many objects.
#[cycle(objects)]
fn objects(s: &[u8], a: usize, most: usize, t: Kind, call: Call, levels: usize) -> Option<usize>
    ensures { result ≡ lowest (array_faults (λ p. faults levels call t s.now p) most s.now a) }
{
    if byte(s, a) != b'[' {
        return Some(a);
    }
    if byte(s, skip(s, a + 1)) == b']' {
        return None;
    }
    let mut low = None;
    let mut n: usize = 0;
    let mut p = a + 1;
    for _ in 0..s.len() {
        if n == most {
            return Some(a);
        }
        let q = skip(s, p);
        low = lower(low, object(s, q, t, call, levels));
        n += 1;
        let then = element_at(s, q).then;
        if byte(s, then) != b',' {
            return low;
        }
        p = then + 1;
    }
    low
}

// The value that begins at v and ends at e, under a rule, in an object whose provider has the number w.
#[cycle(objects)]
fn under(s: &[u8], v: usize, e: usize, w: u8, r: Rule, call: Call, levels: usize) -> Option<usize>
    requires { 0 < e → e ≡ behind s.now v }
    ensures { result ≡ lowest (rule_faults (λ u p. faults levels call u s.now p) call w s.now v r) }
{
    match r {
        Rule::Value(l) => {
            if keeps(w, l, value_at(s, v, e)) {
                None
            } else {
                Some(v)
            }
        }
        Rule::Object(t) => object(s, v, t, call, levels),
        Rule::Objects(n, t) => objects(s, v, allowed(call, n), t, call, levels),
    }
}

// The member of a row, in the object that opens at o.
#[cycle(objects)]
fn row(
    s: &[u8],
    o: usize,
    v: usize,
    e: usize,
    w: u8,
    x: Entry,
    call: Call,
    levels: usize,
) -> Option<usize>
    requires { 0 < e → e ≡ behind s.now v }
    ensures { result ≡ lowest (row_faults (λ u p. faults levels call u s.now p) call w s.now o v (row_of x)) }
{
    if v == 0 {
        return is_needed(w, x.need).then_some(o);
    }
    if x.eased && call.training && is_blank(value_at(s, v, e)) {
        return None;
    }
    under(s, v, e, w, x.rule, call, levels)
}

// An object of a type, its members gathered.
#[cycle(objects)]
pub fn members(s: &[u8], o: usize, t: Kind, f: &Found, call: Call, levels: usize) -> Option<usize>
    requires { Gathered t s.now o f.now.again f.now.at f.now.end }
    ensures { result ≡ lowest (members_faults (λ u p. faults levels call u s.now p) call t s.now o f.now.at) }
{
    let w = provider_in(s, t, f);
    let unset = is_none_set(s, t, f).then_some(o);
    let mut low = lower(f.again, unset);
    let es = entries(t);
    for k in 0..es.len() {
        low = lower(
            low,
            row(s, o, f.at[k + 1], f.end[k + 1], w, es[k], call, levels),
        );
    }
    low
}

// The value at o, which has to be an object of type t.
#[cycle(objects)]
pub fn object(s: &[u8], o: usize, t: Kind, call: Call, levels: usize) -> Option<usize>
    ensures { result ≡ lowest (faults levels call t s.now o) }
{
    if levels == 0 {
        return None;
    }
    if byte(s, o) != b'{' {
        return Some(o);
    }
    let f = gather(s, o, t);
    members(s, o, t, &f, call, levels - 1)
}
