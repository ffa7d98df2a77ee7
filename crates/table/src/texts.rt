// The texts of a record: a length, then a room of fixed size, 00 where the text leaves it.
ghost use Rattle.std.specs.Prelude.{◌≡◌, ◌+◌, ◌-◌, ◌≤◌, ◌<◌, length, replicate};
ghost use Rattle.octets.specs.Splice.{splice};
ghost use Rattle.octets.specs.Text.{same};
ghost use Rattle.table.specs.Record.{slot_of, room_text};
ghost use Rattle.table.specs.WellFormed.{padded, zeros};

// The text whose length stands at `at`; it never leaves its room.
pub fn text(r: &[u8], at: usize, room: usize) -> &[u8]
    requires { at + 1 + room ≤ length r.now }
    ensures { result.now ≡ room_text at room r.now }
{
    let a = at + 1;
    let e = a + usize::from(r[at]).min(room);
    &r[a..e]
}

// Whether every byte is 00. It leaves no earlier than at the end: so it becomes a test of many bytes
// at once.
pub fn all_zero(s: &[u8]) -> bool
    ensures { result ≡ zeros s.now }
{
    let mut clean = true;
    for b in s {
        clean &= *b == 0;
    }
    clean
}

// Whether two texts of one length are the same. It leaves no earlier than at the end: so it becomes a
// test of many bytes at once, and costs the same on any two texts.
pub fn same_at_once(a: &[u8], b: &[u8]) -> bool
    requires { length a.now ≡ length b.now }
    ensures { result ≡ same a.now b.now }
{
    let mut alike = true;
    for i in 0..a.len() {
        alike &= a[i] == b[i];
    }
    alike
}

// Whether the text whose length stands at `at` is within its room, with 00 behind it.
pub fn is_padded(r: &[u8], at: usize, room: usize) -> bool
    requires { at + 1 + room ≤ length r.now }
    ensures { result ≡ padded at room r.now }
{
    let n = usize::from(r[at]);
    let e = at + 1 + room;
    n <= room && all_zero(&r[at + 1 + n..e])
}

// Writes 00 from `from` to before `to`.
pub fn clear(out: &mut [u8], from: usize, to: usize)
    requires { (from ≤ to) × (to ≤ length out.old) }
    ensures { out.new ≡ splice out.old from (replicate (to - from) 0) }
{
    out[from..to].fill(0);
}

// Writes a text into its room: its length at `at`, the text, and 00 to the room's end.
pub fn put_text(out: &mut [u8], at: usize, room: usize, s: &[u8])
    requires { (room < 256) × (length s.now ≤ room) × (at + 1 + room ≤ length out.old) }
    ensures { out.new ≡ splice out.old at (slot_of room s.now) }
{
    let front = [s.len() as u8];
    octets::put(out, at, &front);
    let e = octets::put(out, at + 1, s);
    clear(out, e, at + 1 + room);
}
