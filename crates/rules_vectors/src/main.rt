// Reads lines `NAME HEX` and writes for each what the rule of that name says of those bytes: yes or no, a number, or
// the parts that the value has. A line that is none of these is answered `?`.
#![tactic(auto)]

ghost use Rattle.std.specs.Prelude.{◌≤◌, length, IfSome};

use std::io;

fn write(rt: &impl Print, text: &[u8]) -> io::Result<()> {
    rt.write_all(text)
}

fn verdict(rt: &impl Print, kept: bool) -> io::Result<()> {
    write(rt, if kept { b"yes" } else { b"no" })
}

fn number(rt: &impl Print, n: u8) -> io::Result<()> {
    print!(rt; "{n}")
}

fn show_sequence(rt: &impl Print, v: &[u8]) -> io::Result<()> {
    match rules::sequence_of(v) {
        Some(cseq) => print!(rt; "{} {}", cseq.number, cseq.method),
        None => write(rt, b"no"),
    }
}

fn show_address(rt: &impl Print, v: &[u8]) -> io::Result<()> {
    match rules::address_of(v) {
        Some(rules::Address::Caller { user, fire }) => print!(rt; "caller {user} {fire}"),
        Some(rules::Address::Callee { fire }) => print!(rt; "callee {fire}"),
        None => write(rt, b"no"),
    }
}

fn show_status(rt: &impl Print, v: &[u8]) -> io::Result<()> {
    match rules::status_of(v) {
        Some(code) => print!(rt; "{code}"),
        None => write(rt, b"no"),
    }
}

// Two bytes, the higher first.
fn pair(v: &[u8]) -> u16 {
    octets::byte(v, 0) as u16 * 256 + octets::byte(v, 1) as u16
}

// The text of a code of two bytes.
fn show_phrase(rt: &impl Print, v: &[u8]) -> io::Result<()> {
    let code = pair(v);
    let mut room = [0u8; 64];
    let n = rules::status_length(code);
    if !rules::is_listed(code) {
        return write(rt, b"no");
    }
    let end = rules::put_status(&mut room, 0, code);
    if end == n {
        return write(rt, &room[0..n]);
    }
    Ok(())
}

// What a tag asks of field n: two bytes, the tag and the field.
fn show_tag_asks(rt: &impl Print, v: &[u8]) -> io::Result<()> {
    let tag = octets::byte(v, 0) as usize;
    let n = octets::byte(v, 1) as usize;
    if 4 < tag || 26 < n {
        return write(rt, b"?");
    }
    number(rt, rules::tag_asks(tag, n))
}

// The same of a method.
fn show_method_asks(rt: &impl Print, v: &[u8]) -> io::Result<()> {
    let method = octets::byte(v, 0) as usize;
    let n = octets::byte(v, 1) as usize;
    if 8 < method || 26 < n {
        return write(rt, b"?");
    }
    number(rt, rules::method_asks(method, n))
}

fn answer(rt: &impl Print, name: &[u8], v: &[u8]) -> io::Result<()> {
    match name {
        // The rules that say yes or no.
        b"fire-id" => verdict(rt, rules::is_fire_id(v)),
        b"user-id" => verdict(rt, rules::is_user_id(v)),
        b"call-id" => verdict(rt, rules::is_call_id(v)),
        b"date" => verdict(rt, rules::is_date(v)),
        b"host" => verdict(rt, rules::is_host(v)),
        b"destination" => verdict(rt, rules::is_destination(v)),
        b"organization" => verdict(rt, rules::is_organization(v)),
        b"desk" => verdict(rt, rules::is_desk(v)),
        b"message-id" => verdict(rt, rules::is_message_id(v)),
        b"message-type" => verdict(rt, 0 < rules::message_type(v)),
        b"notify-type" => verdict(rt, 0 < rules::notify_type(v)),
        b"image" => verdict(rt, rules::is_image(v)),
        b"memo" => verdict(rt, rules::is_memo(v)),
        b"language" => verdict(rt, rules::is_language(v)),
        // One of a few words.
        b"availability" => number(rt, rules::availability(v)),
        b"content-type" => number(rt, rules::content_type(v)),
        b"presence" => number(rt, rules::presence(v)),
        b"call-mode" => number(rt, rules::call_mode(v)),
        b"call-test" => number(rt, rules::call_test(v)),
        b"secure-call" => number(rt, rules::secure_call(v)),
        b"rescuee" => number(rt, rules::rescuee(v)),
        b"service" => number(rt, rules::service(v)),
        b"tag" => number(rt, rules::tag(v)),
        b"method" => number(rt, rules::method(v)),
        b"field" => print!(rt; "{}", rules::field(v)),
        b"hop-member" => number(rt, rules::hop_member(v)),
        // What is taken apart or looked up.
        b"cseq" => show_sequence(rt, v),
        b"address" => show_address(rt, v),
        b"status" => show_status(rt, v),
        b"phrase" => show_phrase(rt, v),
        b"tag-asks" => show_tag_asks(rt, v),
        b"method-asks" => show_method_asks(rt, v),
        _ => write(rt, b"?"),
    }
}

// The bytes that a word of hex stands for, put into `room`; None where it stands for none, or for more than there is room.
fn decoded<'a>(word: &[u8], room: &'a mut [u8; 1024]) -> Option<&'a [u8]>
    ensures { IfSome result (λ bytes. length bytes.now ≤ 1024) }
{
    if 2048 < word.len() || !hex_text::is_hex(word) {
        return None;
    }
    let n = hex_text::decode(room, word);
    Some(&room[..n])
}

// The answer to a line: its first word, and what stands behind the space.
fn tell(rt: &impl Print, line: &[u8]) -> io::Result<()> {
    let mut room = [0u8; 1024];
    match line.iter().position(|b| *b == b' ') {
        None => write(rt, b"?"),
        Some(gap) => match decoded(&line[gap + 1..], &mut room) {
            None => write(rt, b"?"),
            Some(bytes) => answer(rt, &line[..gap], bytes),
        },
    }
}

fn main(rt: HostRuntime) -> io::Result<()> {
    let mut buffer = [0u8; 65536];
    let n = streams::fill(
        &mut rt.stdin(),
        &mut rt.stderr(),
        &mut buffer,
        b"rules_vectors: standard input",
    );
    // A last line without its line feed is not answered.
    for line in buffer[..n].split_inclusive(|b| *b == b'\n') {
        if let [text @ .., b'\n'] = line {
            tell(&rt, text)?;
            write(&rt, b"\n")?;
        }
    }
    Ok(())
}
