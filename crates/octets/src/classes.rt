// Classes of bytes, and texts of digits alone.
ghost use Rattle.std.specs.Prelude.{◌≡◌};
ghost use Rattle.octets.specs.Class.{among, digits_rule, is_alnum, is_digit, is_lower};

// Whether b is from lo to hi, both included.
pub fn among(lo: u8, hi: u8, b: u8) -> bool
    ensures { result ≡ among lo hi b }
{
    (lo..=hi).contains(&b)
}

// 0 to 9.
pub fn is_digit(b: u8) -> bool
    ensures { result ≡ is_digit b }
{
    b.is_ascii_digit()
}

// a to z.
pub fn is_lower(b: u8) -> bool
    ensures { result ≡ is_lower b }
{
    b.is_ascii_lowercase()
}

// An ASCII letter or a digit.
pub fn is_alnum(b: u8) -> bool
    ensures { result ≡ is_alnum b }
{
    b.is_ascii_alphanumeric()
}

// Whether a text is lo to hi digits, and nothing else.
pub fn is_digits(s: &[u8], lo: usize, hi: usize) -> bool
    ensures { result ≡ digits_rule lo hi s.now }
{
    (lo..=hi).contains(&s.len()) && s.iter().all(|b| is_digit(*b))
}
