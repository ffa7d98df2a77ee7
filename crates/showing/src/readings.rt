// `read`.
ghost use Rattle.std.specs.Prelude.{◌≤◌, length, take};
ghost use Rattle.message.specs.Reading.{reporting};
ghost use Rattle.showing.specs.Readings.{read_text, reading_text, report_text};
ghost use Rattle.showing.specs.Shown.{Puts};

use crate::shown::{put_number, put_unknown};
use crate::words::take_bytes;
use message::{Reading, Report};
use octets::put;

// A reading without its count.
fn put_reading(out: &mut [u8; 800000], verdict: Reading) -> usize
    ensures { Puts out.old (reading_text verdict) result out.new × (result ≤ 64) }
{
    match verdict {
        Ok(_) => put(out, 0, b"ok "),
        Err(why) => {
            let before_number = put(out, 0, b"no ");
            let before_place = put_number(out, before_number, why.number() as u64, b" ");
            put_number(out, before_place, why.place() as u64, b" ")
        }
    }
}

// What a reading is answered.
fn put_report(out: &mut [u8; 800000], report: Report) -> usize
    ensures { Puts out.old (report_text report) result out.new }
{
    let reading = report.reading;
    let before_count = put_reading(out, reading);
    put_number(out, before_count, report.count as u64, b"\n")
}

// Reads the first n bytes as a message under a ceiling, and writes what it is answered.
fn judge(out: &mut [u8; 800000], bytes: &[u8; 85000], n: usize, ceiling: u32) -> usize
    requires { n ≤ 85000 }
    ensures { Puts out.old (report_text (reporting ceiling (take n bytes.now))) result out.new }
{
    let s: &[u8] = bytes;
    put_report(out, message::read_and_count(&s[0..n], ceiling))
}

// `read HEX`, under a ceiling.
pub fn read(out: &mut [u8; 800000], bytes: &mut [u8; 85000], word: &[u8], ceiling: u32) -> usize
    requires { length word.now ≤ 170000 }
    ensures { Puts out.old (read_text ceiling word.now) result out.new }
{
    let Some(n) = take_bytes(bytes, 0, word) else {
        return put_unknown(out);
    };
    judge(out, bytes, n, ceiling)
}
