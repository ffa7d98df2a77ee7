// The trail of Via: what the writer goes by.
ghost use Rattle.std.specs.Prelude.{◌≡◌};
ghost use Rattle.fields.specs.Trail.{no_trail};

use values::Span;

// What the writer goes by in Via: how many objects it has, where the last begins, where the last and the last but one end, and where the
// host of the last but one stands. With one object alone the seam and the host are at Via's first byte; of a ping or a pong all is 0.
#[derive(Clone, Copy)]
pub struct Trail {
    pub count: usize,
    pub last: usize,
    pub end: usize,
    pub seam: usize,
    pub host: Span,
}

// No trail.
pub fn no_trail() -> Trail
    ensures { result ≡ no_trail }
{
    Trail {
        count: 0,
        last: 0,
        end: 0,
        seam: 0,
        host: Span { start: 0, end: 0 },
    }
}
