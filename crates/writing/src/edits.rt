// Our Via entry, added to a request or taken off a response, and the next host (01 Writing).
ghost use Rattle.std.specs.Prelude.{◌++◌, ◌∷◌, ◌≡◌, ◌≤◌, length, Ok};
ghost use Rattle.message.specs.Reading.{ample, reading};
ghost use Rattle.writing.specs.Adding.{add_to, adding, entry};
ghost use Rattle.writing.specs.Outcome.{Writes};
ghost use Rattle.writing.specs.Removing.{Took, host_in, next_hop, remove_from, removing};

use crate::answers::{Refusal, Taken};
use crate::objects::{has_ours, is_ours};
use crate::paths::Path;
use crate::putting::put_parts;
use json_text::{part, value_part};
use message::{AMPLE, Message};

// Our entry added to what is read as m.
fn add_to(out: &mut [u8], s: &[u8], m: Message, path: Path) -> Result<usize, Refusal>
    requires { reading ample s.now ≡ Ok m }
    ensures { Writes out.old (add_to s.now m path.entry.host.now path.entry.destination.now path.entry.organization.now) result out.new }
{
    if m.tag != 1 {
        return Err(Refusal::Kind);
    }
    if has_ours(s, m.via, path) {
        return Err(Refusal::Loop);
    }
    if m.trail.count == 16 {
        return Err(Refusal::Full);
    }
    put_parts(
        out,
        &[
            part(s, 0, m.trail.end),
            b",{\"host\":\"",
            path.host,
            b"\",\"destination\":\"",
            path.destination,
            b"\",\"organization\":\"",
            path.organization,
            b"\"}",
            part(s, m.trail.end, s.len()),
        ],
    )
}

// Writes the request s into `out` with our entry right after its last Via object.
pub fn add(out: &mut [u8], s: &[u8], path: Path) -> Result<usize, Refusal>
    ensures { Writes out.old (adding s.now path.entry.host.now path.entry.destination.now path.entry.organization.now) result out.new }
{
    if !path.is_kept() {
        return Err(Refusal::Path);
    }
    match message::read(s, AMPLE) {
        Err(_) => Err(Refusal::Kind),
        Ok(m) => add_to(out, s, m, path),
    }
}

// The last Via object of what is read as m taken off.
fn remove_from(out: &mut [u8], s: &[u8], m: Message, path: Path) -> Result<Taken, Refusal>
    requires { reading ample s.now ≡ Ok m }
    ensures { Took out.old m.trail.host (remove_from s.now m path.entry.host.now path.entry.destination.now) result out.new }
{
    if m.tag != 2 {
        return Err(Refusal::Kind);
    }
    let trail = m.trail;
    if trail.count < 2 {
        return Err(Refusal::Few);
    }
    if !is_ours(value_part(s, trail.last), path) {
        return Err(Refusal::Foreign);
    }
    let length = put_parts(out, &[part(s, 0, trail.seam), part(s, trail.end, s.len())])?;
    Ok(Taken {
        length,
        host: trail.host,
    })
}

// Writes the response s into `out` without its last Via object, which is ours.
pub fn remove(out: &mut [u8], s: &[u8], path: Path) -> Result<Taken, Refusal>
    ensures { Took out.old (host_in (reading ample s.now)) (removing s.now path.entry.host.now path.entry.destination.now path.entry.organization.now) result out.new }
{
    if !path.is_kept() {
        return Err(Refusal::Path);
    }
    match message::read(s, AMPLE) {
        Err(_) => Err(Refusal::Kind),
        Ok(m) => remove_from(out, s, m, path),
    }
}

// The next host, that of the last but one Via object of the response s, as a part of it, by what `remove` answered; empty on refusal.
pub fn next_hop<'a>(s: &'a [u8], answer: Result<Taken, Refusal>) -> &'a [u8]
    ensures { result.now ≡ next_hop s.now answer }
{
    match answer {
        Ok(taken) => part(s, taken.host.start, taken.host.end),
        Err(_) => &[],
    }
}
