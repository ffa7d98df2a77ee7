// The three fields: the lowest fault of each one's value.
ghost use Rattle.std.specs.Prelude.{◌≡◌, ◌&&◌, ◌<◌, cond, ltb, get_or, None, Some};
ghost use Rattle.particulars.specs.Faults.{faults};
ghost use Rattle.particulars.specs.Fields.{any_call, caller_faults, live_faults, locations_faults, nearest, provider_at};
ghost use Rattle.particulars.specs.Lowest.{lowest};
ghost use Rattle.particulars.specs.Members.{values_of};
ghost use Rattle.particulars.specs.declared.types.Kind.TheVariants.{CallerLocation};

use crate::gathering::gather;
use crate::lowest::lower;
use crate::objects::{members, object, provider_in};
use crate::types::{Call, Kind};
use json_text::{element_at, skip};
use octets::byte;
use values::is_array;

// Nothing of the call bears on a location.
const ANY: Call = Call {
    training: false,
    contacts: false,
};

// An element of Locations: its lowest fault, the number of its provider, 0 where it tells none of the four, and where that stands.
#[derive(Clone, Copy)]
struct Location {
    fault: Option<usize>,
    provider: u8,
    place: usize,
}

// The element at o.
fn judge_location(v: &[u8], o: usize) -> Location
    ensures fault { result.fault ≡ lowest (faults 1 any_call CallerLocation v.now o) }
    ensures provider { result.provider ≡ provider_at v.now o }
    ensures place { 0 < result.provider → result.place ≡ get_or (values_of CallerLocation v.now o) 2 0 }
{
    if byte(v, o) != b'{' {
        return Location {
            fault: Some(o),
            provider: 0,
            place: 0,
        };
    }
    let f = gather(v, o, Kind::CallerLocation);
    Location {
        fault: members(v, o, Kind::CallerLocation, &f, ANY, 0),
        provider: provider_in(v, Kind::CallerLocation, &f),
        place: f.at[2],
    }
}

// Where a location steps back from the provider w.
fn step_back(w: u8, x: Location) -> Option<usize>
    ensures { result ≡ cond (ltb 0 x.provider && ltb x.provider w) (Some x.place) None }
{
    if 0 < x.provider && x.provider < w {
        Some(x.place)
    } else {
        None
    }
}

// The provider of the nearest location that tells one.
fn nearest(w: u8, n: u8) -> u8
    ensures { result ≡ nearest w n }
{
    if n == 0 { w } else { n }
}

// 21 Locations.
pub fn locations_fault(v: &[u8]) -> Option<usize>
    ensures { result ≡ lowest (locations_faults v.now) }
{
    if !is_array(v) {
        return Some(0);
    }
    if byte(v, skip(v, 1)) == b']' {
        return None;
    }
    let mut low = None;
    let mut w: u8 = 0;
    let mut p: usize = 1;
    for _ in 0..v.len() {
        let q = skip(v, p);
        let x = judge_location(v, q);
        low = lower(low, lower(x.fault, step_back(w, x)));
        w = nearest(w, x.provider);
        let then = element_at(v, q).then;
        if byte(v, then) != b',' {
            return low;
        }
        p = then + 1;
    }
    low
}

// 23 Caller.
pub fn caller_fault(call: Call, v: &[u8]) -> Option<usize>
    ensures { result ≡ lowest (caller_faults call v.now) }
{
    object(v, 0, Kind::CallerInformation, call, 3)
}

// 10 Body, where it is a location.
pub fn live_fault(v: &[u8]) -> Option<usize>
    ensures { result ≡ lowest (live_faults v.now) }
{
    object(v, 0, Kind::LiveLocation, ANY, 1)
}
