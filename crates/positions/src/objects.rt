// What the objects of a field tell of positions, each on the own bytes of the field's value.
ghost use Rattle.std.specs.Prelude.{◌≡◌, get_or, length, slice_get};
ghost use Rattle.coordinates.specs.Coordinate.{coordinate_of};
ghost use Rattle.json_text.specs.Places.{bytes, elements};
ghost use Rattle.positions.specs.Objects.{home_at, home_in, live_in, locations_in, metres_of, millionths, or_end, position_at, values_at};
ghost use Rattle.positions.specs.inner.Told.{told};
ghost use Rattle.particulars.specs.declared.types.Kind.TheVariants.{CallerLocation};

use coordinates::coordinate_of;
use json_text::{element_at, skip, value_part};
use octets::{byte, decimal};
use particulars::{Kind, is_metres, provider_of, values_of};

// A position: the number of its provider (1 gps, 2 network, 3 preset, 4 map), its coordinates in whole millionths of a degree, and its accuracy in metres, if it has
// one; the largest number of 64 bits stands for any that is larger.
#[derive(Clone, Copy)]
pub struct Position {
    pub provider: u8,
    pub latitude: i32,
    pub longitude: i32,
    pub accuracy: Option<u64>,
}

// A home: its coordinates.
#[derive(Clone, Copy)]
pub struct Home {
    pub latitude: i32,
    pub longitude: i32,
}

// The places of the first values of the object at o, by the numbers of its type's names, 0 where there is none.
fn values_at(v: &[u8], o: usize, t: Kind) -> [usize; 9]
    ensures { result ≡ values_at t v.now o }
{
    if byte(v, o) != b'{' {
        return [0; 9];
    }
    values_of(v, o, t)
}

// A place, or the end for none.
#[tactic(auto, unfolding(crate::specs::Objects::or_end))]
fn or_end(v: &[u8], p: usize) -> usize
    ensures { result ≡ or_end v.now p }
{
    if p == 0 { v.len() } else { p }
}

// The bytes of a member's value; none where it has no place.
fn value(v: &[u8], p: usize) -> &[u8]
    ensures { result.now ≡ bytes v.now (or_end v.now p) }
{
    value_part(v, or_end(v, p))
}

// The whole millionths of a degree that a value is, within so many degrees.
fn millionths(degrees: u32, w: &[u8]) -> i32
    ensures { result ≡ millionths degrees w.now }
{
    coordinate_of(w, degrees).unwrap_or(0)
}

// The metres that a value is.
fn metres_of(w: &[u8]) -> Option<u64>
    ensures { result ≡ metres_of w.now }
{
    if !is_metres(w) {
        return None;
    }
    Some(decimal(w).unwrap_or(u64::MAX))
}

// What a location tells whose values have these places.
fn told(v: &[u8], provider: usize, latitude: usize, longitude: usize, accuracy: usize) -> Position
    ensures { result ≡ told v.now provider latitude longitude accuracy }
{
    Position {
        provider: provider_of(value(v, provider)),
        latitude: millionths(90, value(v, latitude)),
        longitude: millionths(180, value(v, longitude)),
        accuracy: metres_of(value(v, accuracy)),
    }
}

// The location at o.
fn location_at(v: &[u8], o: usize) -> Position
    ensures { result ≡ position_at CallerLocation v.now o }
{
    let at = values_at(v, o, Kind::CallerLocation);
    told(v, at[2], at[3], at[4], at[5])
}

// A Live-Location.
pub fn live_in(v: &[u8]) -> Position
    ensures { result ≡ live_in v.now }
{
    let at = values_at(v, 0, Kind::LiveLocation);
    told(v, at[1], at[2], at[3], at[4])
}

// The place of the k-th element, None beyond the last.
fn element(v: &[u8], k: usize) -> Option<usize>
    ensures { result ≡ slice_get (elements v.now 0) k }
{
    if byte(v, skip(v, 1)) == b']' {
        return None;
    }
    let mut p: usize = 1;
    for i in 0..v.len() {
        let q = skip(v, p);
        if i == k {
            return Some(q);
        }
        let then = element_at(v, q).then;
        if byte(v, then) != b',' {
            return None;
        }
        p = then + 1;
    }
    None
}

// The k-th of Locations, None beyond the last.
pub fn location_in(v: &[u8], k: usize) -> Option<Position>
    ensures { result ≡ slice_get (locations_in v.now) k }
{
    let o = element(v, k)?;
    Some(location_at(v, o))
}

// How many Locations there are.
pub fn count_locations(v: &[u8]) -> usize
    ensures { result ≡ length (locations_in v.now) }
{
    if byte(v, skip(v, 1)) == b']' {
        return 0;
    }
    let mut p: usize = 1;
    for i in 0..v.len() {
        let q = skip(v, p);
        let then = element_at(v, q).then;
        if byte(v, then) != b',' {
            return i + 1;
        }
        p = then + 1;
    }
    v.len()
}

// The home at o, where an object opens there.
fn home_at(v: &[u8], o: usize) -> Option<Home>
    ensures { result ≡ home_at v.now o }
{
    if byte(v, o) == b'{' {
        let at = values_at(v, o, Kind::HomeLocation);
        Some(Home {
            latitude: millionths(90, value(v, at[1])),
            longitude: millionths(180, value(v, at[2])),
        })
    } else {
        None
    }
}

// The home in Caller: Personal-Information's location.
pub fn home_in(v: &[u8]) -> Option<Home>
    ensures { result ≡ home_in v.now }
{
    let caller = values_at(v, 0, Kind::CallerInformation);
    let person = values_at(v, or_end(v, caller[5]), Kind::PersonalInformation);
    home_at(v, or_end(v, person[8]))
}
