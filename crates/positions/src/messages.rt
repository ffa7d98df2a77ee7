// The positions of a message: it is read once, and then asked.
ghost use Rattle.std.specs.Prelude.{Err, MatchResult, Ok, ◌≡◌, length, slice_get};
ghost use Rattle.message.specs.Message.{word_at};
ghost use Rattle.message.specs.Placing.{places_of};
ghost use Rattle.message.specs.Reading.{ample, reading};
ghost use Rattle.positions.specs.Positions.{home_of, is_live, is_request, positions_of};
ghost use Rattle.rules.specs.Words.{content_types};

use crate::objects::{Home, Position, count_locations, home_in, live_in, location_in};
use fields::content_type;
use json_text::value_part;
use message::{AMPLE, Message, Refusal};
use rules::{BODY, CALLER, CONTENT_TYPE, INVITE, LOCATION_CONTENT, LOCATIONS, NOTIFY, REQUEST};
use values::spelling_at;

// What is read of an accepted message, and where its known fields stand, by number.
#[derive(Drop)]
pub struct Accepted {
    pub message: Message,
    pub at: [usize; 27],
}

// Reads a message, at the program's ceiling.
pub fn accept(s: &[u8]) -> Result<Accepted, Refusal>
    ensures { MatchResult result (λ a. (reading ample s.now ≡ Ok a.message) × (a.at ≡ places_of s.now)) (λ e. reading ample s.now ≡ Err e) }
{
    let m = message::read(s, AMPLE)?;
    Ok(Accepted {
        message: m,
        at: message::places(s),
    })
}

// Whether it is a request of this method.
#[tactic(auto, unfolding(crate::specs::Positions::is_request))]
fn is_request(method: u8, m: Message) -> bool
    ensures { result ≡ is_request method m }
{
    m.tag == REQUEST && m.method == method
}

// The number of the Content-Type at v, 0 where there is none.
#[tactic(auto, unfolding(message::specs::Message::word_at))]
fn content_at(s: &[u8], v: usize) -> u8
    ensures { result ≡ word_at content_types s.now v }
{
    if v == 0 {
        return 0;
    }
    content_type(spelling_at(s, v, 0))
}

// Whether it is a NOTIFY request with a location.
#[tactic(auto, unfolding(crate::specs::Positions::is_live))]
fn is_live(s: &[u8], a: &Accepted) -> bool
    requires { a.now.at ≡ places_of s.now }
    ensures { result ≡ is_live s.now a.now.message }
{
    is_request(NOTIFY, a.message) && content_at(s, a.at[CONTENT_TYPE]) == LOCATION_CONTENT
}

// How many positions it has.
pub fn count(s: &[u8], a: &Accepted) -> usize
    requires { a.now.at ≡ places_of s.now }
    ensures { result ≡ length (positions_of s.now a.now.message) }
{
    if is_request(INVITE, a.message) {
        return count_locations(value_part(s, a.at[LOCATIONS]));
    }
    if is_live(s, a) { 1 } else { 0 }
}

// The k-th of them, None beyond the last. Its frame is none of the reading's, as that of `message::places`.
#[inline(never)]
pub fn position(s: &[u8], a: &Accepted, k: usize) -> Option<Position>
    requires { a.now.at ≡ places_of s.now }
    ensures { result ≡ slice_get (positions_of s.now a.now.message) k }
{
    if is_request(INVITE, a.message) {
        return location_in(value_part(s, a.at[LOCATIONS]), k);
    }
    if !is_live(s, a) {
        return None;
    }
    if k == 0 {
        Some(live_in(value_part(s, a.at[BODY])))
    } else {
        None
    }
}

// The home.
pub fn home(s: &[u8], a: &Accepted) -> Option<Home>
    requires { a.now.at ≡ places_of s.now }
    ensures { result ≡ home_of s.now a.now.message }
{
    if !is_request(INVITE, a.message) {
        return None;
    }
    home_in(value_part(s, a.at[CALLER]))
}
