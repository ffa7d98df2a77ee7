// Date, and a day alone.
ghost use Rattle.std.specs.Prelude.{◌≡◌, ◌&&◌, List, ◌++◌};
ghost use Rattle.rules.specs.Date.{date_rule, day, day_rule, days_in, last_day, leap, time, zone};
ghost use Rattle.rules.specs.Pieces.{Piece, reads};

use crate::pieces::{is_number, mark, number_at};

const DAYS: [u8; 13] = [0, 31, 28, 31, 30, 31, 30, 31, 31, 30, 31, 30, 31];

fn is_leap(y: u64) -> bool
    ensures { result ≡ leap y }
{
    y % 4 == 0 && (y % 100 != 0 || y % 400 == 0)
}

// The days of month m of year y, and 0 where there is no such month.
pub fn days_in(y: u64, m: u64) -> u64
    ensures { result ≡ days_in y m }
{
    if m == 2 {
        if is_leap(y) { 29 } else { 28 }
    } else {
        if m < 13 { DAYS[m as usize] as u64 } else { 0 }
    }
}

// The zone from byte 19 to the end.
fn is_zone(s: &[u8]) -> bool
    ensures { result ≡ reads zone s.now 19 }
{
    mark(s, 19, b'+') && is_number(s, 20, 2, 0, 14) && is_number(s, 22, 2, 0, 59) && s.len() == 24
}

// The time and the zone from byte 10 to the end.
fn is_time(s: &[u8]) -> bool
    ensures { result ≡ reads time s.now 10 }
{
    mark(s, 10, b'T')
        && is_number(s, 11, 2, 0, 23)
        && mark(s, 13, b':')
        && is_number(s, 14, 2, 0, 59)
        && mark(s, 16, b':')
        && is_number(s, 17, 2, 0, 59)
        && is_zone(s)
}

// Whether a day stands in the first ten bytes; whatever stands behind it is read from there on.
fn has_day(s: &[u8]) -> bool
    ensures { (ps : List Piece) → reads (day (last_day s.now) ++ ps) s.now 0 ≡ (result && reads ps s.now 10) }
{
    let last = days_in(number_at(s, 0, 4), number_at(s, 5, 2));
    is_number(s, 0, 4, 1, 9999)
        && mark(s, 4, b'-')
        && is_number(s, 5, 2, 1, 12)
        && mark(s, 7, b'-')
        && is_number(s, 8, 2, 1, last)
}

// Whether a text is a real day, and no more.
pub fn is_day(s: &[u8]) -> bool
    ensures { result ≡ day_rule s.now }
{
    has_day(s) && s.len() == 10
}

// Whether a text keeps the rule of Date.
pub fn is_date(s: &[u8]) -> bool
    ensures { result ≡ date_rule s.now }
{
    has_day(s) && is_time(s)
}
