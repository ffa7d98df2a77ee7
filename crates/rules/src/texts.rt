// The rules of single texts.
ghost use Rattle.std.specs.Prelude.{◌≡◌};
ghost use Rattle.rules.specs.Pieces.{reads};
ghost use Rattle.rules.specs.Texts.{call_id_rule, desk_rule, destination_rule, fire_rule, host_rule, image_rule, language_rule, memo_rule, message_id_rule, message_tail, organization_rule, points, user_rule};

use crate::classes::Class;
use crate::pieces::{is_run, mark, run_end, within};
use octets::{among, stands_at};

// Fire-ID; also Refer-To and Referred-By.
pub fn is_fire_id(s: &[u8]) -> bool
    ensures { result ≡ fire_rule s.now }
{
    is_run(s, 2, 15, Class::Fire, Class::Small)
}

// User-ID.
pub fn is_user_id(s: &[u8]) -> bool
    ensures { result ≡ user_rule s.now }
{
    is_run(s, 1, 15, Class::Alnum, Class::Alnum)
}

// Call-ID and Session-ID.
pub fn is_call_id(s: &[u8]) -> bool
    ensures { result ≡ call_id_rule s.now }
{
    is_run(s, 2, 64, Class::Name, Class::Alnum)
}

// Via's host.
pub fn is_host(s: &[u8]) -> bool
    ensures { result ≡ host_rule s.now }
{
    is_run(s, 1, 253, Class::Name, Class::Name)
}

// Via's destination.
pub fn is_destination(s: &[u8]) -> bool
    ensures { result ≡ destination_rule s.now }
{
    is_run(s, 1, 64, Class::Graphic, Class::Graphic)
}

// Via's organization.
pub fn is_organization(s: &[u8]) -> bool
    ensures { result ≡ organization_rule s.now }
{
    is_run(s, 2, 10, Class::Label, Class::Alnum)
}

// Language.
pub fn is_language(s: &[u8]) -> bool
    ensures { result ≡ language_rule s.now }
{
    is_run(s, 2, 2, Class::Lower, Class::Lower)
}

// Destination and Responded-By.
pub fn is_desk(s: &[u8]) -> bool
    ensures { result ≡ desk_rule s.now }
{
    let end = run_end(s, 0, Class::Fire);
    within(s, 0, end, 2, 15, Class::Small) && stands_at(s, end, b".callee") && end + 7 == s.len()
}

// A Message-ID from byte 7 on, behind its side.
fn message_tail(s: &[u8]) -> bool
    ensures { result ≡ reads message_tail s.now 7 }
{
    let fire = run_end(s, 7, Class::Fire);
    let end = run_end(s, fire + 1, Class::Alnum);
    within(s, 7, fire, 2, 15, Class::Small)
        && mark(s, fire, b'-')
        && within(s, fire + 1, end, 1, 64, Class::Alnum)
        && end == s.len()
}

// Message-ID.
pub fn is_message_id(s: &[u8]) -> bool
    ensures { result ≡ message_id_rule s.now }
{
    s.len() <= 64 && (stands_at(s, 0, b"caller-") || stands_at(s, 0, b"callee-")) && message_tail(s)
}

// The Body of an image.
pub fn is_image(s: &[u8]) -> bool
    ensures { result ≡ image_rule s.now }
{
    stands_at(s, 0, b"https://")
}

// How many code points a text has.
pub fn points(s: &[u8]) -> usize
    ensures { result ≡ points s.now }
{
    s.iter().filter(|b| !among(128, 191, **b)).count()
}

// Refer-Memo: at most 128 code points, and no line break, which is a single byte in UTF-8.
pub fn is_memo(s: &[u8]) -> bool
    ensures { result ≡ memo_rule s.now }
{
    s.iter().all(|b| !matches!(*b, b'\n' | b'\r')) && points(s) <= 128
}
