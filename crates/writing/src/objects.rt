// The objects of Via: whether one is ours, and whether any is.
ghost use Rattle.std.specs.Prelude.{◌≡◌, ◌<◌, length};
ghost use Rattle.writing.specs.Objects.{is_ours, objects, some};

use crate::paths::Path;
use escapes::spells;
use fields::hop_of;
use json_text::{element_at, part, skip, value_part};
use octets::byte;
use values::spelling_of;

// Whether the object x has this host and this destination.
pub fn is_ours(x: &[u8], path: Path) -> bool
    ensures { result ≡ is_ours path.entry.host.now path.entry.destination.now x.now }
{
    let h = hop_of(x);
    let its_host = spelling_of(value_part(x, h.host));
    let its_destination = spelling_of(value_part(x, h.destination));
    spells(its_host, path.host) && spells(its_destination, path.destination)
}

// Whether one of the objects of the Via that opens at v is ours.
pub fn has_ours(s: &[u8], v: usize, path: Path) -> bool
    requires { v < length s.now }
    ensures { result ≡ some (is_ours path.entry.host.now path.entry.destination.now) (objects s.now v) }
{
    if byte(s, skip(s, v + 1)) == b']' {
        return false;
    }
    let mut p = v + 1;
    for _ in 0..s.len() {
        let q = skip(s, p);
        let e = element_at(s, q);
        if is_ours(part(s, q, e.end), path) {
            return true;
        }
        let then = e.then;
        if byte(s, then) != b',' {
            return false;
        }
        p = then + 1;
    }
    false
}
