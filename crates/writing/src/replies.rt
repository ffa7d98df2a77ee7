// The reply to a request (01 Writing).
ghost use Rattle.std.specs.Prelude.{◌≡◌, ◌≤◌, Ok};
ghost use Rattle.message.specs.Reading.{ample, reading};
ghost use Rattle.writing.specs.Outcome.{Writes};
ghost use Rattle.writing.specs.Reply.{reply_to, replying, unanswered, wrong_code};

use crate::answers::Refusal;
use crate::putting::put_parts;
use json_text::value_part;
use message::{AMPLE, Message};

// Not a request, or an ACK.
fn is_unanswered(m: Message) -> bool
    ensures { result ≡ unanswered m }
{
    m.tag != 1 || m.method == 4
}

// A code that is not listed, or 202 without REFER.
fn is_wrong_code(code: u16, method: u8) -> bool
    ensures { result ≡ wrong_code code method }
{
    !rules::is_listed(code) || (code == 202 && method != 7)
}

// The reply to what is read as m.
fn reply_to(out: &mut [u8], s: &[u8], m: Message, code: u16, date: &[u8]) -> Result<usize, Refusal>
    requires { reading ample s.now ≡ Ok m }
    ensures { Writes out.old (reply_to s.now m code date.now) result out.new }
{
    if is_unanswered(m) {
        return Err(Refusal::Kind);
    }
    if is_wrong_code(code, m.method) {
        return Err(Refusal::Code);
    }
    if !rules::is_date(date) {
        return Err(Refusal::Date);
    }
    let mut room = [0; 35];
    let end = rules::put_status(&mut room, 0, code);
    let status = &room[..end];
    put_parts(
        out,
        &[
            b"[\"response\",{\"Status\":\"",
            status,
            b"\",\"CSeq\":",
            value_part(s, m.cseq),
            b",\"To\":",
            value_part(s, m.to),
            b",\"From\":",
            value_part(s, m.from),
            b",\"Call-ID\":",
            value_part(s, m.call),
            b",\"Date\":\"",
            date,
            b"\",\"Via\":",
            value_part(s, m.via),
            b"}]",
        ],
    )
}

// Writes the reply to the request s into `out`, with a status code and a Date.
pub fn reply(out: &mut [u8], s: &[u8], code: u16, date: &[u8]) -> Result<usize, Refusal>
    ensures { Writes out.old (replying s.now code date.now) result out.new }
{
    match message::read(s, AMPLE) {
        Err(_) => Err(Refusal::Kind),
        Ok(m) => reply_to(out, s, m, code, date),
    }
}
