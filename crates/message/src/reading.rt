// The reading of a message (01 Reading, rows 2 to 10; 02 §9, row 11), tried in the paper's order.
ghost use Rattle.fields.specs.inner.Gathering.{Ended};
ghost use Rattle.std.specs.Prelude.{Ok, true, ◌≡◌, ◌<◌};
ghost use Rattle.json_text.specs.inner.Tour.{visited};
ghost use Rattle.message.specs.Message.{probe_of, first_setting};
ghost use Rattle.message.specs.Reading.{agreed, judged, on_json, reading, reporting, settled, shaped, uncounted, unless};
ghost use Rattle.message.specs.inner.Facts.{FactsOf, nine_from};

use crate::checking::{Run, check_required, check_rules};
use crate::disagreeing::disagree;
use crate::envelopes::judge_envelope;
use crate::facts::{Facts, Message, message_of, probe_of};
use crate::gathering::gather;
use crate::refusals::Refusal;
use crate::settings::{UNTOLD, setting_of};
use crate::shapes::shape_of;
use crate::walking::walk_text;
use fields::Setting;
use rules::{REQUEST, RESPONSE};

// A ceiling that no JSON text of 32,768 bytes passes (02 §9).
pub const AMPLE: u32 = 16384;

// What is read of any bytes: the message, or its refusal.
pub type Reading = Result<Message, Refusal>;

// The same, and how many JSON values were visited (02 §9).
#[derive(Drop)]
pub struct Report {
    pub reading: Reading,
    pub count: usize,
}

// Row 10, and what is read.
fn agree(s: &[u8], k: Setting, f: Facts, at: &[usize; 27], end: &[usize; 27]) -> Reading
    requires { FactsOf s.now k.tag at.now f × Ended s.now at.now end.now }
    ensures { result ≡ agreed s.now k at.now }
{
    if disagree(s, k, f, at, end) {
        return Err(Refusal::Disagree);
    }
    Ok(message_of(s, k, f, at, end))
}

// The second run of rows 8 and 9, on the fields of a request's method, and on.
fn settle(s: &[u8], k: Setting, f: Facts, at: &[usize; 27], end: &[usize; 27]) -> Reading
    requires { (k.tag < 5) × ((k.method < 9) × (FactsOf s.now k.tag at.now f × Ended s.now at.now end.now)) }
    ensures { result ≡ settled s.now k at.now }
{
    if k.tag != REQUEST {
        return agree(s, k, f, at, end);
    }
    check_required(Run::Method, k, at)?;
    check_rules(s, Run::Method, k, at, end)?;
    agree(s, k, f, at, end)
}

// Row 9 on the fields of a ping or a pong, which is read with it.
fn settle_probe(s: &[u8], tag: u8, at: &[usize; 27], end: &[usize; 27]) -> Reading
    requires { (2 < tag) × ((tag < 5) × Ended s.now at.now end.now) }
    ensures { result ≡ unless (nine_from s.now true (first_setting tag) at.now 1) (Ok (probe_of tag)) }
{
    let k = Setting { tag, ..UNTOLD };
    check_rules(s, Run::Tag, k, at, end)?;
    Ok(probe_of(tag))
}

// The first run of rows 8 and 9, on the fields of the tag, and on.
fn judge(s: &[u8], tag: u8, at: &[usize; 27], end: &[usize; 27]) -> Reading
    requires { (0 < tag) × ((tag < 5) × Ended s.now at.now end.now) }
    ensures { result ≡ judged s.now tag at.now }
{
    let k = Setting { tag, ..UNTOLD };
    check_required(Run::Tag, k, at)?;
    if RESPONSE < tag {
        return settle_probe(s, tag, at, end);
    }
    let f = judge_envelope(s, tag, at, end)?;
    settle(s, setting_of(s, tag, f.method, at, end), f, at, end)
}

// Rows 6 and 7, and on.
fn shape(s: &[u8]) -> Reading
    ensures { result ≡ shaped s.now }
{
    let f = shape_of(s).ok_or(Refusal::Shape)?;
    let at = gather(s, f.object)?;
    judge(s, f.tag, &at, &[0usize; 27])
}

// A refusal before row 6: nothing is counted.
fn uncounted(why: Refusal) -> Report
    ensures { result ≡ uncounted why }
{
    Report {
        reading: Err(why),
        count: 0,
    }
}

// Rows 4, 5 and 11, and on: in one walk where the text has the usual shape, else row by row.
fn tell(s: &[u8], ceiling: usize) -> Report
    ensures { result ≡ on_json s.now (visited ceiling s.now) }
{
    if let Some(w) = walk_text(s, ceiling) {
        return Report {
            reading: judge(s, w.tag, &w.at, &w.end),
            count: ceiling - w.room,
        };
    }
    match json_text::read(s, ceiling) {
        Err(fault) => uncounted(Refusal::from(fault)),
        Ok(n) => Report {
            reading: shape(s),
            count: n,
        },
    }
}

// Reads any bytes as document 01 reads a message, with room for so many JSON values (02 §9), and tells how many it visited.
pub fn read_and_count(s: &[u8], ceiling: u32) -> Report
    ensures { result ≡ reporting ceiling s.now }
{
    if s.is_empty() || 32768 < s.len() {
        return uncounted(Refusal::Length);
    }
    match utf8::check(s) {
        Err(p) => uncounted(Refusal::Utf8(p)),
        Ok(()) => tell(s, ceiling as usize),
    }
}

// The same without the count.
pub fn read(s: &[u8], ceiling: u32) -> Reading
    ensures { result ≡ reading ceiling s.now }
{
    read_and_count(s, ceiling).reading
}
