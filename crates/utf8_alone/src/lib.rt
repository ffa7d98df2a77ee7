// The check of UTF-8 alone: what `bench/run` counts beside a peer's. No part of the library for C.
// Proved: it answers what `utf8::check` answers, as one number.
#![tactic(auto)]

ghost use Rattle.std.specs.Prelude.{◌≡◌, length};
ghost use Rattle.utf8.specs.Rfc3629.{verdict};
ghost use Rattle.utf8_alone.specs.Alone.{good_bytes};

// How many bytes are good: all, or those before the first bad sequence.
pub fn utf8_alone(text: &[u8]) -> usize
    ensures { result ≡ good_bytes (verdict text.now) (length text.now) }
{
    match utf8::check(text) {
        Ok(()) => text.len(),
        Err(place) => place,
    }
}
