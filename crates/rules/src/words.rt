// The fields whose text is one of a few words: the word's number from 1, and 0 for any other text.
ghost use Rattle.std.specs.Prelude.{[], ◌∷◌, ◌≡◌, ◌+◌, length};
ghost use Rattle.rules.specs.Pieces.{word_number, word_number_from};
ghost use Rattle.rules.specs.Words.{availabilities, call_modes, call_tests, content_types, live_providers, message_types, notify_types, presences, providers, rescuees, services, sexes, truths};

use crate::numbers::{
    LOCATION_CONTENT, MESSAGE_IMAGE_CONTENT, PRESENCE_CONTENT, REFER_CONTENT, TEXT_CONTENT,
    TEXT_IMAGE_CONTENT,
};
use crate::pieces::word_or;

// The number of a text among two words.
fn either(s: &[u8], one: &[u8], two: &[u8]) -> u8
    ensures { result ≡ word_number (one.now ∷ two.now ∷ []) s.now }
{
    word_or(s, one, 1, word_or(s, two, 2, 0))
}

// A pong's Status.
pub fn availability(s: &[u8]) -> u8
    ensures { result ≡ word_number availabilities s.now }
{
    either(s, b"available", b"unavailable")
}

// Content-Type of a MESSAGE: text, and the image under either of its names.
pub fn message_type(s: &[u8]) -> u8
    ensures { result ≡ word_number message_types s.now }
{
    word_or(
        s,
        b"text/plain",
        TEXT_CONTENT,
        word_or(
            s,
            b"text/vnd.net119.uri.image",
            TEXT_IMAGE_CONTENT,
            word_or(s, b"message/vnd.net119.uri.image", MESSAGE_IMAGE_CONTENT, 0),
        ),
    )
}

// Content-Type of a NOTIFY, numbered behind those of a MESSAGE: presence, location, refer.
pub fn notify_type(s: &[u8]) -> u8
    ensures { result ≡ word_number_from notify_types (1 + length message_types) s.now }
{
    word_or(
        s,
        b"message/vnd.net119.presence",
        PRESENCE_CONTENT,
        word_or(
            s,
            b"message/vnd.net119.location",
            LOCATION_CONTENT,
            word_or(s, b"message/vnd.net119.refer", REFER_CONTENT, 0),
        ),
    )
}

// Content-Type of either.
pub fn content_type(s: &[u8]) -> u8
    ensures { result ≡ word_number content_types s.now }
{
    let k = message_type(s);
    if k == 0 { notify_type(s) } else { k }
}

// The Body of a presence.
pub fn presence(s: &[u8]) -> u8
    ensures { result ≡ word_number presences s.now }
{
    either(s, b"online", b"offline")
}

// Call-Mode.
pub fn call_mode(s: &[u8]) -> u8
    ensures { result ≡ word_number call_modes s.now }
{
    either(s, b"emergency", b"training")
}

// Call-Test, from the value's own bytes: one more than the number.
pub fn call_test(s: &[u8]) -> u8
    ensures { result ≡ word_number call_tests s.now }
{
    either(s, b"0", b"1")
}

// Secure-Call, from the value's own bytes: 1 false, 2 true.
pub fn secure_call(s: &[u8]) -> u8
    ensures { result ≡ word_number truths s.now }
{
    either(s, b"false", b"true")
}

// Rescuee.
pub fn rescuee(s: &[u8]) -> u8
    ensures { result ≡ word_number rescuees s.now }
{
    either(s, b"caller", b"third-party")
}

// Request-Service.
pub fn service(s: &[u8]) -> u8
    ensures { result ≡ word_number services s.now }
{
    word_or(
        s,
        b"ambulance",
        1,
        word_or(
            s,
            b"fire",
            2,
            word_or(s, b"unknown", 3, word_or(s, b"callback", 4, 0)),
        ),
    )
}

// The provider of a location, as the words stand in order.
pub fn provider(s: &[u8]) -> u8
    ensures { result ≡ word_number providers s.now }
{
    word_or(
        s,
        b"gps",
        1,
        word_or(
            s,
            b"network",
            2,
            word_or(s, b"preset", 3, word_or(s, b"map", 4, 0)),
        ),
    )
}

// The provider of a position in talk.
pub fn live_provider(s: &[u8]) -> u8
    ensures { result ≡ word_number live_providers s.now }
{
    either(s, b"gps", b"network")
}

// A person's sex.
pub fn sex(s: &[u8]) -> u8
    ensures { result ≡ word_number sexes s.now }
{
    either(s, b"male", b"female")
}
