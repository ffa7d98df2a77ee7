// The check of UTF-8 alone, for C (libutf8_alone.a, bench/utf8.c): the function of the crate `utf8_alone` under its own name.
// Proved: the export answers what that function answers.
// A caller may hand over any bytes, by a pointer and a length.
#![tactic(auto)]

ghost use Rattle.std.specs.Prelude.{◌≡◌, length};
ghost use Rattle.utf8.specs.Rfc3629.{verdict};
ghost use Rattle.utf8_alone.specs.Alone.{good_bytes};

// How many bytes are good: all, or those before the first bad sequence.
#[unsafe(no_mangle)]
pub extern "C" fn utf8_alone(text: &[u8]) -> usize
    ensures { result ≡ good_bytes (verdict text.now) (length text.now) }
{
    utf8_alone::utf8_alone(text)
}
