// Texts and names by how they are spelled (02 §2). A text that keeps a rule has no backslash, and neither has a known name: so the bytes are tried as they
// stand, and decoded only where they fail. No rule here lets a text of 256 bytes through but Status', whose first four decide: so what does not fit the
// buffer changes nothing.
ghost use Rattle.std.specs.Prelude.{◌≡◌, ◌<◌};
ghost use Rattle.escapes.specs.Rfc7159.{text};
ghost use Rattle.values.specs.Value.{word_spelled};
ghost use Rattle.fields.specs.Via.{hop_rule};
ghost use Rattle.rules.specs.Address.{address_of};
ghost use Rattle.rules.specs.Names.{fields, hop_members, tags};
ghost use Rattle.rules.specs.Sequence.{sequence_of};
ghost use Rattle.rules.specs.Status.{status_of};
ghost use Rattle.rules.specs.Words.{call_modes, content_types, rescuees, services};

use escapes::is_escaped;
use values::of_text;

// What the CSeq that w spells says.
pub fn sequence_of(w: &[u8]) -> Option<rules::Sequence>
    ensures { result ≡ sequence_of (text w.now) }
{
    rules::sequence_of(w).or_else(|| of_text(w, |t| rules::sequence_of(t)))
}

// What the To or From that w spells says.
pub fn address_of(w: &[u8]) -> Option<rules::Address>
    ensures { result ≡ address_of (text w.now) }
{
    rules::address_of(w).or_else(|| of_text(w, |t| rules::address_of(t)))
}

// What the Status that w spells says: its first four characters are judged, and the rest is free.
pub fn status_of(w: &[u8]) -> Option<u16>
    ensures { result ≡ status_of (text w.now) }
{
    rules::status_of(w).or_else(|| of_text(w, |t| rules::status_of(t)))
}

// The rule of member n of an object of Via: 1 host, 2 destination, any other organization.
#[tactic(auto, unfolding(crate::specs::Via::hop_rule))]
fn is_hop(n: u8, t: &[u8]) -> bool
    ensures { result ≡ hop_rule n t.now }
{
    match n {
        1 => rules::is_host(t),
        2 => rules::is_destination(t),
        _ => rules::is_organization(t),
    }
}

// Whether the text that w spells keeps that rule.
pub fn is_hop_text(n: u8, w: &[u8]) -> bool
    ensures { result ≡ hop_rule n (text w.now) }
{
    is_hop(n, w) || of_text(w, |t| is_hop(n, t))
}

// The number of the tag that w spells.
pub fn tag(w: &[u8]) -> u8
    ensures { result ≡ word_spelled tags w.now }
{
    match rules::tag(w) {
        0 => of_text(w, |t| rules::tag(t)),
        k => k,
    }
}

// The number of the known field whose name w spells, and 0 for any other name. Unknown names are common: one without a backslash is not tried twice.
pub fn field(w: &[u8]) -> usize
    ensures { (result ≡ word_spelled fields w.now) × (result < 27) }
{
    match rules::field(w) {
        0 if is_escaped(w) => of_text(w, |t| rules::field(t)),
        k => k,
    }
}

// The number of the member of an object of Via whose name w spells, likewise.
pub fn hop_member(w: &[u8]) -> u8
    ensures { result ≡ word_spelled hop_members w.now }
{
    match rules::hop_member(w) {
        0 if is_escaped(w) => of_text(w, |t| rules::hop_member(t)),
        k => k,
    }
}

// The number of the Content-Type that w spells.
pub fn content_type(w: &[u8]) -> u8
    ensures { result ≡ word_spelled content_types w.now }
{
    match rules::content_type(w) {
        0 => of_text(w, |t| rules::content_type(t)),
        k => k,
    }
}

// The number of the Call-Mode that w spells.
pub fn call_mode(w: &[u8]) -> u8
    ensures { result ≡ word_spelled call_modes w.now }
{
    match rules::call_mode(w) {
        0 => of_text(w, |t| rules::call_mode(t)),
        k => k,
    }
}

// The number of the Rescuee that w spells.
pub fn rescuee(w: &[u8]) -> u8
    ensures { result ≡ word_spelled rescuees w.now }
{
    match rules::rescuee(w) {
        0 => of_text(w, |t| rules::rescuee(t)),
        k => k,
    }
}

// The number of the Request-Service that w spells.
pub fn service(w: &[u8]) -> u8
    ensures { result ≡ word_spelled services w.now }
{
    match rules::service(w) {
        0 => of_text(w, |t| rules::service(t)),
        k => k,
    }
}
