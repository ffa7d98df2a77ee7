// 01 Reading, row 10: where fields disagree.
ghost use Rattle.fields.specs.inner.Gathering.{Ended};
ghost use Rattle.std.specs.Prelude.{◌&&◌, ◌≡◌, eqb, get_or};
ghost use Rattle.message.specs.Message.{callback_training, disagrees, request_disagrees, response_disagrees, same_side, sides_disagree, wrong_number, wrong_side};
ghost use Rattle.message.specs.inner.Facts.{FactsOf};

use crate::facts::{Facts, side_of};
use escapes::spells;
use fields::Setting;
use rules::{
    ACK, CALL_MODE, CALLBACK, CANCEL, INVITE, MESSAGE, NOTIFY, REFER, REQUEST, REQUEST_SERVICE,
    RESPONSE, TEXT_CONTENT,
};
use values::spelling_at;

// From and To on the same side.
#[tactic(auto, unfolding(crate::specs::Message::same_side))]
fn same_side(from: bool, to: bool) -> bool
    ensures { result ≡ same_side from to }
{
    from == to
}

// INVITE, CANCEL, ACK, NOTIFY not from a caller; CALLBACK, REFER not from a callee.
#[tactic(auto, unfolding(crate::specs::Message::wrong_side))]
fn wrong_side(m: u8, from: bool) -> bool
    ensures { result ≡ wrong_side m from }
{
    let inviting = m == INVITE || m == CANCEL || m == ACK || m == NOTIFY;
    (inviting && !from) || ((m == CALLBACK || m == REFER) && from)
}

// CALLBACK numbered other than 1.
#[tactic(auto, unfolding(crate::specs::Message::wrong_number))]
fn wrong_number(m: u8, n: u32) -> bool
    ensures { result ≡ wrong_number m n }
{
    m == CALLBACK && n != 1
}

// An INVITE with `callback` and `training`: its Request-Service and its Call-Mode.
#[tactic(auto, unfolding(crate::specs::Message::callback_training))]
fn is_callback_training(s: &[u8], at: &[usize; 27], end: &[usize; 27]) -> bool
    requires { Ended s.now at.now end.now }
    ensures { result ≡ callback_training s.now (get_or at.now 19 0) (get_or at.now 15 0) }
{
    spells(
        spelling_at(s, at[REQUEST_SERVICE], end[REQUEST_SERVICE]),
        b"callback",
    ) && spells(spelling_at(s, at[CALL_MODE], end[CALL_MODE]), b"training")
}

// What only a request can have.
#[tactic(auto, unfolding(crate::specs::Message::request_disagrees))]
fn request_disagrees(s: &[u8], k: Setting, at: &[usize; 27], end: &[usize; 27], from: bool) -> bool
    requires { Ended s.now at.now end.now }
    ensures { result ≡ (eqb k.tag 1 && request_disagrees s.now k at.now from) }
{
    if k.tag != REQUEST {
        return false;
    }
    if k.method == INVITE {
        return is_callback_training(s, at, end);
    }
    k.method == MESSAGE && !from && k.content != TEXT_CONTENT
}

// What only a response can have: status 202 outside REFER.
#[tactic(auto, unfolding(crate::specs::Message::response_disagrees))]
fn response_disagrees(k: Setting, code: u16) -> bool
    ensures { result ≡ (eqb k.tag 2 && response_disagrees code k.method) }
{
    k.tag == RESPONSE && code == 202 && k.method != REFER
}

// What binds both: the sides, and CALLBACK's 1.
#[tactic(auto, unfolding(crate::specs::Message::sides_disagree))]
fn sides_disagree(method: u8, number: u32, from: bool, to: bool) -> bool
    ensures { result ≡ sides_disagree method number from to }
{
    same_side(from, to) || wrong_side(method, from) || wrong_number(method, number)
}

// Whether fields disagree.
pub fn disagree(s: &[u8], k: Setting, f: Facts, at: &[usize; 27], end: &[usize; 27]) -> bool
    requires { FactsOf s.now k.tag at.now f × Ended s.now at.now end.now }
    ensures { result ≡ disagrees s.now k at.now }
{
    let from = side_of(f.from);
    let sides = sides_disagree(k.method, f.number, from, side_of(f.to));
    let request = request_disagrees(s, k, at, end, from);
    let response = response_disagrees(k, f.code);
    sides | request | response
}
