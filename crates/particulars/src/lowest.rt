// The lower of two places.
ghost use Rattle.std.specs.Prelude.{◌≡◌};
ghost use Rattle.particulars.specs.Lowest.{lower};

// The lower of two places, either of which may be missing.
pub fn lower(a: Option<usize>, b: Option<usize>) -> Option<usize>
    ensures { result ≡ lower a b }
{
    match (a, b) {
        (None, b) => b,
        (Some(p), None) => Some(p),
        (Some(p), Some(q)) => Some(if p <= q { p } else { q }),
    }
}
