// 01 Reading, row 9 on the fields that a request or a response must have, 1 to 6 and a response's 7: each is parsed once, and what it tells goes on.
ghost use Rattle.fields.specs.inner.Gathering.{Ended};
ghost use Rattle.std.specs.Prelude.{◌≡◌, ◌<◌};
ghost use Rattle.message.specs.inner.Facts.{Asked, EnvelopeSays, OpeningSays, SentSays, ToldSays};

use crate::checking::placed;
use crate::facts::Facts;
use crate::refusals::Refusal;
use crate::settings::UNTOLD;
use fields::{Setting, Trail, judge, judge_cseq, judge_party, judge_status, judge_via};
use rules::{CALL_ID, CSEQ, DATE, FROM, RESPONSE, STATUS, TO, VIA};
use values::value_at;

// What the fields 1 to 3 tell: CSeq's number and method, To and From.
#[derive(Clone, Copy)]
struct Opening {
    number: u32,
    method: u8,
    to: rules::Address,
    from: rules::Address,
}

fn judge_opening(s: &[u8], tag: u8, at: &[usize; 27], end: &[usize; 27]) -> Result<Opening, Refusal>
    requires { Asked s.now tag at.now × Ended s.now at.now end.now }
    ensures { OpeningSays s.now tag at.now result }
{
    let cseq = placed(judge_cseq(value_at(s, at[CSEQ], end[CSEQ])), at[CSEQ])?;
    let to = placed(judge_party(value_at(s, at[TO], end[TO])), at[TO])?;
    let from = placed(judge_party(value_at(s, at[FROM], end[FROM])), at[FROM])?;
    Ok(Opening {
        number: cseq.number,
        method: cseq.method,
        to,
        from,
    })
}

// What the fields 4 to 6 tell: Via's trail.
fn judge_sent(s: &[u8], tag: u8, at: &[usize; 27], end: &[usize; 27]) -> Result<Trail, Refusal>
    requires { Asked s.now tag at.now × Ended s.now at.now end.now }
    ensures { SentSays s.now tag at.now result }
{
    let k = Setting { tag, ..UNTOLD };
    placed(judge(k, DATE, value_at(s, at[DATE], end[DATE])), at[DATE])?;
    placed(
        judge(k, CALL_ID, value_at(s, at[CALL_ID], end[CALL_ID])),
        at[CALL_ID],
    )?;
    placed(judge_via(value_at(s, at[VIA], end[VIA])), at[VIA])
}

// What the field 7 of a response tells, its code; a request has none.
fn judge_told(s: &[u8], tag: u8, at: &[usize; 27], end: &[usize; 27]) -> Result<u16, Refusal>
    requires { Asked s.now tag at.now × Ended s.now at.now end.now }
    ensures { ToldSays s.now tag at.now result }
{
    if tag != RESPONSE {
        return Ok(0);
    }
    placed(
        judge_status(value_at(s, at[STATUS], end[STATUS])),
        at[STATUS],
    )
}

// What they all tell.
pub fn judge_envelope(
    s: &[u8],
    tag: u8,
    at: &[usize; 27],
    end: &[usize; 27],
) -> Result<Facts, Refusal>
    requires { Asked s.now tag at.now × Ended s.now at.now end.now }
    ensures { EnvelopeSays s.now tag at.now result }
{
    let opening = judge_opening(s, tag, at, end)?;
    let trail = judge_sent(s, tag, at, end)?;
    let code = judge_told(s, tag, at, end)?;
    Ok(Facts {
        number: opening.number,
        method: opening.method,
        to: opening.to,
        from: opening.from,
        trail,
        code,
    })
}
