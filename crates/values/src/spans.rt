// Where a text is spelled, and the bytes that stand there.
ghost use Rattle.std.specs.Prelude.{◌≡◌, ◌<◌};
ghost use Rattle.json_text.specs.Places.{behind};
ghost use Rattle.values.specs.Spans.{cut, spelling_span};

use crate::values::spelling_at;
use json_text::part;

// From `start` up to `end`: of the message, of a value's bytes, or of a text.
#[derive(Clone, Copy)]
pub struct Span {
    pub start: usize,
    pub end: usize,
}

// Where the whole spelling of the value at v stands.
pub fn spelling_span(s: &[u8], v: usize, e: usize) -> Span
    requires { 0 < e → e ≡ behind s.now v }
    ensures { result ≡ spelling_span s.now v }
{
    if s.len() <= v {
        return Span { start: 0, end: 0 };
    }
    let t = spelling_at(s, v, e);
    Span {
        start: v + 1,
        end: v + 1 + t.len(),
    }
}

// The bytes at a span.
pub fn part_at(s: &[u8], x: Span) -> &[u8]
    ensures { result.now ≡ cut s.now x }
{
    let a = x.start;
    let e = x.end;
    part(s, a, e)
}
