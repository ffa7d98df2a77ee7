// A blank table in a lent buffer.
ghost use Rattle.std.specs.Prelude.{◌≡◌, ◌<◌};
ghost use Rattle.table.specs.Blank.{blank_after, blank_answer};
ghost use Rattle.table.specs.Image.{header_of};

use crate::layout::{HEADER_SIZE, MOST_RECORDS, RECORD_SIZE, VERSION};
use crate::texts::clear;

// A wrong count or length.
#[derive(Drop)]
pub struct Misfit;

// The header of a table of so many records.
pub fn header(count: usize) -> [u8; HEADER_SIZE]
    ensures { result ≡ header_of count }
{
    let high = (count / 256 % 256) as u8;
    let low = (count % 256) as u8;
    [
        b'N', b'C', b'T', 0, 0, VERSION, high, low, 0, 0, 0, 0, 0, 0, 0, 0,
    ]
}

// Makes a table of so many free records; refused, with the buffer as it was, where the count is not
// 1 to 255 or the buffer's length is not right for it.
pub fn blank(out: &mut [u8], count: usize) -> Result<(), Misfit>
    ensures { (result ≡ blank_answer out.old count) × (out.new ≡ blank_after out.old count) }
{
    if count < 1 || MOST_RECORDS < count {
        return Err(Misfit);
    }
    let n = HEADER_SIZE + RECORD_SIZE * count;
    if out.len() != n {
        return Err(Misfit);
    }
    let h = header(count);
    octets::put(out, 0, &h);
    clear(out, HEADER_SIZE, n);
    Ok(())
}
