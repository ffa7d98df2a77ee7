// Each known field's rule on its value's own bytes (01 Reading, 'Rules'): kept, with the facts that the value tells, or broken at a place.
ghost use Rattle.values.specs.inner.Asked.{Own};
ghost use Rattle.std.specs.Prelude.{◌≡◌, ◌<◌};
ghost use Rattle.fields.specs.Field.{strings_field};
ghost use Rattle.fields.specs.inner.Judging.{cseq_of, judged_value, party_of, status_in};
ghost use Rattle.fields.specs.inner.Chain.{by_kind, chain, kind_rule, later_rule, on_body, on_status, on_text, on_type, plain_rule};
ghost use Rattle.fields.specs.Via.{via_rule};
ghost use Rattle.values.specs.Value.{freely, ruled};
ghost use Rattle.rules.specs.Status.{status_rule};
ghost use Rattle.rules.specs.Texts.{memo_rule};

use crate::faults::letter_at;
use crate::holders::{holds_particulars, judge_particulars};
use crate::spelled::{address_of, sequence_of, status_of};
use crate::vias::judge_via;
use escapes::{is_escaped, measure};
use json_text::{element_at, skip};
use octets::byte;
use rules::{
    BODY, CALL_ID, CALL_MODE, CALL_TEST, CONTENT_TYPE, CSEQ, DATE, LANGUAGE, MESSAGE, MESSAGE_ID,
    MESSAGE_IMAGE_CONTENT, OPTIONS, PONG, PRESENCE_CONTENT, REFER_MEMO, REQUEST_SERVICE, RESCUEE,
    SECURE_CALL, SESSION_ID, STATUS, TEXT_CONTENT, TEXT_IMAGE_CONTENT, TO, USER_AGENT, VIA,
};
use values::{is_array, is_object, is_string, of_text, own_spelling};

// What a rule sees besides its value: the tag, the method's code, and the numbers of Content-Type, Call-Mode, Rescuee and Request-Service.
#[derive(Clone, Copy)]
pub struct Setting {
    pub tag: u8,
    pub method: u8,
    pub content: u8,
    pub mode: u8,
    pub rescuee: u8,
    pub service: u8,
}

// What a rule answers is what the value tells, or the place in the value where it breaks the rule.

// 1 CSeq: its number and its method's code.
pub fn judge_cseq(v: &[u8]) -> Result<rules::Sequence, usize>
    requires { Own v.now }
    ensures { result ≡ cseq_of v.now }
{
    if !is_string(v) {
        return Err(0);
    }
    let w = own_spelling(v);
    sequence_of(w).ok_or_else(|| letter_at(CSEQ, w))
}

// 2 To and 3 From: whose address it is.
pub fn judge_party(v: &[u8]) -> Result<rules::Address, usize>
    requires { Own v.now }
    ensures { result ≡ party_of v.now }
{
    if !is_string(v) {
        return Err(0);
    }
    let w = own_spelling(v);
    address_of(w).ok_or_else(|| letter_at(TO, w))
}

// 7 Status of a response: its code.
pub fn judge_status(v: &[u8]) -> Result<u16, usize>
    requires { Own v.now }
    ensures { result ≡ status_in v.now }
{
    if !is_string(v) {
        return Err(0);
    }
    status_of(own_spelling(v)).ok_or(0)
}

fn is_status(t: &[u8]) -> bool
    ensures { result ≡ status_rule t.now }
{
    rules::status_of(t).is_some()
}

// The text of field n, from 11 on.
#[tactic(auto, unfolding(crate::specs::inner::Chain::later_rule, values::specs::Value::one_of))]
fn is_later_text(n: usize, t: &[u8]) -> bool
    ensures { result ≡ later_rule n t.now }
{
    match n {
        ..REFER_MEMO => rules::is_fire_id(t),
        SESSION_ID => rules::is_call_id(t),
        CALL_MODE => 0 < rules::call_mode(t),
        RESCUEE => 0 < rules::rescuee(t),
        REQUEST_SERVICE => 0 < rules::service(t),
        LANGUAGE => rules::is_language(t),
        _ => rules::is_desk(t),
    }
}

// The text of field n, from 4 on, if its rule goes by n alone.
#[tactic(auto, unfolding(crate::specs::inner::Chain::plain_rule))]
fn is_plain_text(n: usize, t: &[u8]) -> bool
    ensures { result ≡ plain_rule n t.now }
{
    match n {
        DATE => rules::is_date(t),
        CALL_ID => rules::is_call_id(t),
        MESSAGE_ID => rules::is_message_id(t),
        _ => is_later_text(n, t),
    }
}

// An array of strings.
fn is_strings(v: &[u8]) -> bool
    ensures { result ≡ strings_field v.now }
{
    if !is_array(v) {
        return false;
    }
    if byte(v, skip(v, 1)) == b']' {
        return true;
    }
    let mut p: usize = 1;
    for _ in 0..v.len() {
        let q = skip(v, p);
        if byte(v, q) != b'"' {
            return false;
        }
        let then = element_at(v, q).then;
        if byte(v, then) != b',' {
            return true;
        }
        p = then + 1;
    }
    true
}

// Whether field n is taken by its value's bytes or kind.
#[tactic(auto, unfolding(crate::specs::inner::Chain::by_kind))]
fn is_by_kind(n: usize) -> bool
    ensures { result ≡ by_kind n }
{
    matches!(n, CALL_TEST..RESCUEE | USER_AGENT | OPTIONS)
}

#[tactic(auto, unfolding(crate::specs::inner::Chain::kind_rule, values::specs::Value::one_of))]
fn is_kind(n: usize, v: &[u8]) -> bool
    ensures { result ≡ kind_rule n v.now }
{
    match n {
        CALL_TEST => 0 < rules::call_test(v),
        SECURE_CALL => 0 < rules::secure_call(v),
        USER_AGENT => is_string(v),
        _ => is_strings(v),
    }
}

// The text of Status.
#[tactic(auto, unfolding(crate::specs::inner::Chain::on_status, values::specs::Value::one_of))]
fn is_status_text(tag: u8, t: &[u8]) -> bool
    ensures { result ≡ on_status tag t.now }
{
    if tag == PONG {
        0 < rules::availability(t)
    } else {
        is_status(t)
    }
}

// The text of Content-Type.
#[tactic(auto, unfolding(crate::specs::inner::Chain::on_type, values::specs::Value::one_of))]
fn is_type_text(method: u8, t: &[u8]) -> bool
    ensures { result ≡ on_type method t.now }
{
    if method == MESSAGE {
        0 < rules::message_type(t)
    } else {
        0 < rules::notify_type(t)
    }
}

// The text of Body.
#[tactic(auto, unfolding(crate::specs::inner::Chain::on_body, crate::specs::Field::names_image, values::specs::Value::one_of))]
fn is_body_text(content: u8, t: &[u8]) -> bool
    ensures { result ≡ on_body content t.now }
{
    match content {
        TEXT_CONTENT => true,
        TEXT_IMAGE_CONTENT | MESSAGE_IMAGE_CONTENT => rules::is_image(t),
        PRESENCE_CONTENT => 0 < rules::presence(t),
        _ => is_status(t),
    }
}

// The text of field n, from 4 on.
#[tactic(auto, unfolding(crate::specs::inner::Chain::on_text))]
fn is_text(k: Setting, n: usize, t: &[u8]) -> bool
    ensures { result ≡ on_text k n t.now }
{
    match n {
        STATUS => is_status_text(k.tag, t),
        CONTENT_TYPE => is_type_text(k.method, t),
        BODY => is_body_text(k.content, t),
        _ => is_plain_text(n, t),
    }
}

// A string whose text is that of field n: tried as it is spelled, and decoded only where that fails.
fn keeps_text(k: Setting, n: usize, v: &[u8]) -> bool
    requires { Own v.now }
    ensures { result ≡ freely (on_text k n) v.now }
{
    if !is_string(v) {
        return false;
    }
    let w = own_spelling(v);
    is_text(k, n, w) || of_text(w, |t| is_text(k, n, t))
}

// Refer-Memo, any text of at most 128 code points without a line break: where it is spelled with escapes it is measured, without a buffer.
fn keeps_memo(v: &[u8]) -> bool
    requires { Own v.now }
    ensures { result ≡ ruled memo_rule v.now }
{
    if !is_string(v) {
        return false;
    }
    let w = own_spelling(v);
    if !is_escaped(w) {
        return rules::is_memo(w);
    }
    let m = measure(w);
    !m.broken && !m.breaks && m.points <= 128
}

fn is_via(v: &[u8]) -> bool
    ensures { result ≡ via_rule v.now }
{
    judge_via(v).is_ok()
}

// Whether a value keeps the rule of field n, from 4 on, if it has to hold no particulars.
#[tactic(auto, unfolding(crate::specs::inner::Chain::chain))]
fn keeps_rule(k: Setting, n: usize, v: &[u8]) -> bool
    requires { Own v.now }
    ensures { result ≡ chain k n v.now }
{
    match n {
        VIA => is_via(v),
        REFER_MEMO => keeps_memo(v),
        _ if is_by_kind(n) => is_kind(n, v),
        _ => keeps_text(k, n, v),
    }
}

// The rule of field n, from 4 on.
pub fn judge(k: Setting, n: usize, v: &[u8]) -> Result<(), usize>
    requires { Own v.now × ((3 < n) × (n < 27)) }
    ensures { result ≡ judged_value k n v.now }
{
    if holds_particulars(k, n) {
        return judge_particulars(k, n, v);
    }
    if keeps_rule(k, n, v) {
        return Ok(());
    }
    if n < VIA && is_string(v) {
        return Err(letter_at(n, own_spelling(v)));
    }
    Err(0)
}
