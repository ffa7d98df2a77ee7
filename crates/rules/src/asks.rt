// The fields that steps 8 and 9 look at, by tag and by method: in each number of a table, bit n stands for field n.
ghost use Rattle.std.specs.Prelude.{◌≡◌, ◌<◌};
ghost use Rattle.rules.specs.Asks.{method_asks, tag_asks};

// The fields that a tag requires, from none at 0: 1 to 6; 1 to 7; 4, 6, 25; 4, 6, 7, 26.
const TAG_FIELDS: [u32; 5] = [0, 0x7e, 0xfe, 0x2000050, 0x40000d0];

// The fields that a method requires, from none at 0: INVITE's 14 to 23, MESSAGE's 8 to 10, REFER's 11 and 12, NOTIFY's 9 and 10.
const METHOD_FIELDS: [u32; 9] = [0, 0xffc000, 0, 0, 0, 0x700, 0, 0x1800, 0x600];

// The fields that are optional in a method: INVITE's 12 and 13, MESSAGE's 24, REFER's 13.
const METHOD_OPTIONS: [u32; 9] = [0, 0x3000, 0, 0, 0, 0x1000000, 0, 0x2000, 0];

// Whether a tag requires field n: REQUIRED or UNLISTED.
pub fn tag_asks(tag: usize, n: usize) -> u8
    requires { (tag < 5) × (n < 27) }
    ensures { result ≡ tag_asks tag n }
{
    ((TAG_FIELDS[tag] >> n) % 2) as u8
}

// Whether a method requires field n, or has it as optional: REQUIRED, 2 (optional) or UNLISTED.
pub fn method_asks(method: usize, n: usize) -> u8
    requires { (method < 9) × (n < 27) }
    ensures { result ≡ method_asks method n }
{
    let required = (METHOD_FIELDS[method] >> n) % 2;
    let optional = (METHOD_OPTIONS[method] >> n) % 2;
    (required + optional * 2) as u8
}
