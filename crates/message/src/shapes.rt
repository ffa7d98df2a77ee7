// 01 Reading, row 6: an array of two, a tag and then an object.
ghost use Rattle.message.specs.inner.Shaping.{Shaped};
ghost use Rattle.message.specs.Shape.{tag_of};
ghost use Rattle.std.specs.Prelude.{MatchOption, ◌≡◌, ◌<◌};

use json_text::{element_at, name_part, skip};
use octets::byte;

// The tag's number, and where the object opens.
#[derive(Clone, Copy)]
pub struct Shape {
    pub tag: u8,
    pub object: usize,
}

// The shape of a text, if it has this one.
pub fn shape_of(s: &[u8]) -> Option<Shape>
    ensures { MatchOption result (tag_of s.now ≡ 0) (λ f. (0 < f.tag) × Shaped s.now f.tag f.object) }
{
    let o = skip(s, 0);
    if byte(s, o) != b'[' {
        return None;
    }
    let x = skip(s, o + 1);
    if byte(s, x) != b'"' {
        return None;
    }
    let c = element_at(s, x).then;
    if byte(s, c) != b',' {
        return None;
    }
    let y = skip(s, c + 1);
    if byte(s, y) != b'{' {
        return None;
    }
    let z = element_at(s, y).then;
    if byte(s, z) == b',' {
        return None;
    }
    let tag = fields::tag(name_part(s, x));
    if tag == 0 {
        return None;
    }
    Some(Shape { tag, object: y })
}
