// What is read of a message (01 Reading): what its fields tell on the way through row 9, and the facts that go on.
ghost use Rattle.fields.specs.inner.Asked.{Within};
ghost use Rattle.fields.specs.inner.Gathering.{Ended};
ghost use Rattle.std.specs.Prelude.{cond, ◌≡◌, ◌<◌, ◌-◌, Some};
ghost use Rattle.json_text.specs.Places.{behind};
ghost use Rattle.message.specs.Message.{callee_span, caller_span, caller_in, message_of, probe_of, secure_of, user_span};
ghost use Rattle.message.specs.inner.Facts.{FactsOf, PartiesOf, Placed};
ghost use Rattle.fields.specs.Trail.{moved};

use fields::{Setting, Trail, no_trail};
use octets::same;
use rules::{Address, CALL_ID, CSEQ, FROM, INVITE, REQUEST, SECURE_CALL, TO, VIA};
use values::{Span, spelling_span, value_at};

const NOWHERE: Span = Span { start: 0, end: 0 };

// What the fields 1 to 7 tell on the way through row 9: CSeq's number and method, To and From, Via's trail, a response's status code.
#[derive(Clone, Copy)]
pub struct Facts {
    pub number: u32,
    pub method: u8,
    pub to: Address,
    pub from: Address,
    pub trail: Trail,
    pub code: u16,
}

// The facts that the keeper and the writer go by: the tag, the method's code, CSeq's number, a
// response's status code, whether it is from a caller, Secure-Call of an INVITE, where the five values stand that a reply copies, where
// the Call-ID and the two addresses are spelled, where the user and the Fire-IDs stand in the addresses' texts, and the trail.
#[derive(Clone, Copy)]
pub struct Message {
    pub tag: u8,
    pub method: u8,
    pub number: u32,
    pub status: u16,
    pub caller: bool,
    pub secure: bool,
    pub cseq: usize,
    pub to: usize,
    pub from: usize,
    pub call: usize,
    pub via: usize,
    pub callid: Span,
    pub calleraddress: Span,
    pub calleeaddress: Span,
    pub user: Span,
    pub callerfire: Span,
    pub calleefire: Span,
    pub trail: Trail,
}

// Whether an address is a caller's.
pub fn side_of(a: Address) -> bool
    ensures { result ≡ caller_in (Some a) }
{
    matches!(a, Address::Caller { .. })
}

// Secure-Call of an INVITE request.
#[tactic(auto, unfolding(crate::specs::Message::secure_of))]
fn secure_of(s: &[u8], k: Setting, v: usize, e: usize) -> bool
    requires { 0 < e → e ≡ behind s.now v }
    ensures { result ≡ secure_of s.now k v }
{
    k.tag == REQUEST && k.method == INVITE && same(value_at(s, v, e), b"true")
}

// The user in an address.
fn user_span(a: Address) -> Span
    ensures { result ≡ user_span (Some a) }
{
    let Address::Caller { user, .. } = a else {
        return NOWHERE;
    };
    Span {
        start: 7,
        end: user,
    }
}

// The caller's Fire-ID in an address.
fn caller_span(a: Address) -> Span
    requires { Placed a }
    ensures { result ≡ caller_span (Some a) }
{
    let Address::Caller { user, fire } = a else {
        return NOWHERE;
    };
    Span {
        start: user + 1,
        end: fire,
    }
}

// The callee's Fire-ID in an address.
fn callee_span(a: Address) -> Span
    ensures { result ≡ callee_span (Some a) }
{
    let Address::Callee { fire } = a else {
        return NOWHERE;
    };
    Span {
        start: 12,
        end: fire,
    }
}

// Where the two addresses are spelled, and where in their texts the parties stand.
#[derive(Drop)]
struct Parties {
    calleraddress: Span,
    calleeaddress: Span,
    user: Span,
    callerfire: Span,
    calleefire: Span,
}

// The parties of the caller's address a, spelled at v, and the callee's b at w.
fn parties_of(v: Span, a: Address, w: Span, b: Address) -> Parties
    requires { Placed a }
    ensures { PartiesOf v a w b result }
{
    Parties {
        calleraddress: v,
        calleeaddress: w,
        user: user_span(a),
        callerfire: caller_span(a),
        calleefire: callee_span(b),
    }
}

// The parties of From's address, spelled at v, and To's at w: the caller's is From's where the message is from a caller.
fn sorted(from: Address, to: Address, v: Span, w: Span) -> Parties
    requires { Placed from × Placed to }
    ensures { PartiesOf (cond (caller_in (Some from)) v w) (cond (caller_in (Some from)) from to) (cond (caller_in (Some from)) w v) (cond (caller_in (Some from)) to from) result }
{
    if side_of(from) {
        return parties_of(v, from, w, to);
    }
    parties_of(w, to, v, from)
}

// The trail by the places of the message, in which Via begins at a.
fn moved(a: usize, r: Trail) -> Trail
    requires { Within r (18446744073709551615 - a) }
    ensures { result ≡ moved a r }
{
    let host = r.host;
    Trail {
        count: r.count,
        last: a + r.last,
        end: a + r.end,
        seam: a + r.seam,
        host: Span {
            start: a + host.start,
            end: a + host.end,
        },
    }
}

// The message.
pub fn message_of(s: &[u8], k: Setting, f: Facts, at: &[usize; 27], end: &[usize; 27]) -> Message
    requires { FactsOf s.now k.tag at.now f × Ended s.now at.now end.now }
    ensures { result ≡ message_of s.now k at.now }
{
    let v = spelling_span(s, at[FROM], end[FROM]);
    let w = spelling_span(s, at[TO], end[TO]);
    let p = sorted(f.from, f.to, v, w);
    Message {
        tag: k.tag,
        method: k.method,
        number: f.number,
        status: f.code,
        caller: side_of(f.from),
        secure: secure_of(s, k, at[SECURE_CALL], end[SECURE_CALL]),
        cseq: at[CSEQ],
        to: at[TO],
        from: at[FROM],
        call: at[CALL_ID],
        via: at[VIA],
        callid: spelling_span(s, at[CALL_ID], end[CALL_ID]),
        calleraddress: p.calleraddress,
        calleeaddress: p.calleeaddress,
        user: p.user,
        callerfire: p.callerfire,
        calleefire: p.calleefire,
        trail: moved(at[VIA], f.trail),
    }
}

// A ping or a pong.
pub fn probe_of(tag: u8) -> Message
    ensures { result ≡ probe_of tag }
{
    Message {
        tag,
        method: 0,
        number: 0,
        status: 0,
        caller: false,
        secure: false,
        cseq: 0,
        to: 0,
        from: 0,
        call: 0,
        via: 0,
        callid: NOWHERE,
        calleraddress: NOWHERE,
        calleeaddress: NOWHERE,
        user: NOWHERE,
        callerfire: NOWHERE,
        calleefire: NOWHERE,
        trail: no_trail(),
    }
}
