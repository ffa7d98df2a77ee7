// The rule of Via (01 Reading): 1 to 16 objects, each with host, destination and organization once, within their rules. The walk that judges
// it finds the trail on its way.
ghost use Rattle.std.specs.Prelude.{MatchOption, false, true, ◌≡◌, ◌+◌, ◌<◌};
ghost use Rattle.json_text.specs.Places.{behind};
ghost use Rattle.json_text.specs.inner.Landing.{Cell};
ghost use Rattle.fields.specs.inner.Judging.{via_of};
ghost use Rattle.fields.specs.Trail.{host_span};
ghost use Rattle.fields.specs.Via.{hop_keeps, is_hop};

use crate::hops::{Shut, Value, hop_members};
use crate::spelled::is_hop_text;
use crate::trails::{Trail, no_trail};
use json_text::{Element, element_at, part, skip};
use octets::byte;
use values::{Span, is_array, is_string, own_spelling, spelling_span};

// Whether the value x keeps the rule of member n.
fn keeps_member(v: &[u8], x: Value, n: u8) -> bool
    requires { (0 < x.at) × (x.end ≡ behind v.now x.at) }
    ensures { result ≡ hop_keeps v.now x.at n }
{
    let w = part(v, x.at, x.end);
    is_string(w) && is_hop_text(n, own_spelling(w))
}

// Where the host of an object stands, and where the object ends, if the walk over its members tells.
#[derive(Drop)]
struct Object {
    host: Span,
    end: Option<usize>,
}

// The object of Via that opens at o, if one does that keeps the rule.
fn object_at(v: &[u8], o: usize) -> Option<Object>
    ensures { MatchOption result (is_hop v.now o ≡ false) (λ x. (is_hop v.now o ≡ true) × ((x.host ≡ host_span v.now o) × MatchOption x.end Unit (λ e. e ≡ behind v.now o))) }
{
    if byte(v, o) != b'{' {
        return None;
    }
    let Shut { members, end } = hop_members(v, o)?;
    let host = members.host?;
    let destination = members.destination?;
    let organization = members.organization?;
    if keeps_member(v, host, 1)
        && keeps_member(v, destination, 2)
        && keeps_member(v, organization, 3)
    {
        return Some(Object {
            host: spelling_span(v, host.at, host.end),
            end,
        });
    }
    None
}

// The element at q, which ends at e, if that is known.
fn element_from(v: &[u8], q: usize, e: Option<usize>) -> Element
    requires { MatchOption e Unit (λ b. b ≡ behind v.now q) }
    ensures { Cell v.now q result.end result.then }
{
    match e {
        None => element_at(v, q),
        Some(end) => {
            let then = skip(v, end);
            Element { end, then }
        }
    }
}

// r with one object more, which begins at q and ends at e; h is where the host of r's last object stands, now the last but one.
fn onward(r: Trail, h: Span, q: usize, e: usize) -> Trail
    requires { r.count + 1 < 18446744073709551616 }
    ensures { (result.count ≡ r.count + 1) × ((result.last ≡ q) × ((result.end ≡ e) × ((result.seam ≡ r.end) × (result.host ≡ h)))) }
{
    Trail {
        count: r.count + 1,
        last: q,
        end: e,
        seam: r.end,
        host: h,
    }
}

// What a Via says, its trail, or the place in the value where it breaks the rule: found in one walk over its objects, which a seventeenth ends.
pub fn judge_via(v: &[u8]) -> Result<Trail, usize>
    ensures { result ≡ via_of v.now }
{
    if !is_array(v) {
        return Err(0);
    }
    if byte(v, skip(v, 1)) == b']' {
        return Err(0);
    }
    let mut r = no_trail();
    let mut h = Span { start: 0, end: 0 };
    let mut p: usize = 1;
    for _ in 0..v.len() {
        let q = skip(v, p);
        if r.count == 16 {
            return Err(0);
        }
        let Some(x) = object_at(v, q) else {
            return Err(0);
        };
        let e = element_from(v, q, x.end);
        let then = e.then;
        r = onward(r, h, q, e.end);
        h = x.host;
        if byte(v, then) != b',' {
            return Ok(r);
        }
        p = then + 1;
    }
    Ok(r)
}
