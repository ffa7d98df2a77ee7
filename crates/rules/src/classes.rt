// The classes of bytes that the rules name.
ghost use Rattle.std.specs.Prelude.{◌≡◌};
ghost use Rattle.rules.specs.Classes.{holds};

use octets::{among, is_alnum, is_digit, is_lower};

#[derive(Clone, Copy)]
pub enum Class {
    Digit,
    Lower,
    Small,
    Alnum,
    Fire,
    Name,
    Label,
    Graphic,
}

// Whether a byte is of a class.
pub fn holds(class: Class, b: u8) -> bool
    ensures { result ≡ holds class b }
{
    match class {
        Class::Digit => is_digit(b),
        Class::Lower => is_lower(b),
        Class::Small => is_lower(b) || is_digit(b),
        Class::Alnum => is_alnum(b),
        Class::Fire => is_lower(b) || is_digit(b) || b == b'_',
        Class::Name => is_alnum(b) || b == b'-' || b == b'.',
        Class::Label => is_alnum(b) || b == b'-',
        Class::Graphic => among(33, 126, b) && b != b'"' && b != b'\\',
    }
}
