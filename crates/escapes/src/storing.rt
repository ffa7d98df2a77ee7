// Octets stored one behind the other, as far as there is room (RFC 3629, section 3).
ghost use Rattle.std.specs.Prelude.{[], ◌∷◌, ◌≡◌, ◌+◌, ◌<◌, length};
ghost use Rattle.std.proofs.lemmas.List.Edits.{sets};
ghost use Rattle.escapes.specs.Encoding.{encoded, low};

// Stores a byte, if there is room, and answers the index behind it.
pub fn put_byte(out: &mut [u8], at: usize, a: u8) -> usize
    requires { at + 1 < 0x10000000000000000 }
    ensures { (result ≡ at + 1) × (out.new ≡ sets out.old at (a ∷ [])) }
{
    if at < out.len() {
        out[at] = a;
        return at + 1;
    }
    at + 1
}

fn put_two(out: &mut [u8], at: usize, a: u8, b: u8) -> usize
    requires { at + 2 < 0x10000000000000000 }
    ensures { (result ≡ at + 2) × (out.new ≡ sets out.old at (a ∷ b ∷ [])) }
{
    let p = put_byte(out, at, a);
    put_byte(out, p, b)
}

fn put_three(out: &mut [u8], at: usize, a: u8, b: u8, c: u8) -> usize
    requires { at + 3 < 0x10000000000000000 }
    ensures { (result ≡ at + 3) × (out.new ≡ sets out.old at (a ∷ b ∷ c ∷ [])) }
{
    let p = put_byte(out, at, a);
    put_two(out, p, b, c)
}

fn put_four(out: &mut [u8], at: usize, a: u8, b: u8, c: u8, d: u8) -> usize
    requires { at + 4 < 0x10000000000000000 }
    ensures { (result ≡ at + 4) × (out.new ≡ sets out.old at (a ∷ b ∷ c ∷ d ∷ [])) }
{
    let p = put_byte(out, at, a);
    put_three(out, p, b, c, d)
}

// 10xxxxxx of a number's last six bits.
fn low(x: u32) -> u8
    ensures { result ≡ low x }
{
    (0x80 + x % 64) as u8
}

// Stores the UTF-8 of a number, as far as there is room, and answers the index behind it.
pub fn put_code(out: &mut [u8], at: usize, c: u32) -> usize
    requires { (c < 0x110000) × (at + length (encoded c) < 0x10000000000000000) }
    ensures { (result ≡ at + length (encoded c)) × (out.new ≡ sets out.old at (encoded c)) }
{
    if c < 0x80 {
        return put_byte(out, at, c as u8);
    }
    if c < 0x800 {
        return put_two(out, at, (0xC0 + c / 64) as u8, low(c));
    }
    if c < 0x10000 {
        return put_three(out, at, (0xE0 + c / 4096) as u8, low(c / 64), low(c));
    }
    put_four(
        out,
        at,
        (0xF0 + c / 262144) as u8,
        low(c / 4096),
        low(c / 64),
        low(c),
    )
}
