// What the rules of a request or a response see besides their value: tag, method and Content-Type (01 Reading, 'Rules'), and what an INVITE says of its call
// (02 §4).
ghost use Rattle.fields.specs.inner.Gathering.{Ended};
ghost use Rattle.std.specs.Fn.{FnOnceReturnsAt};
ghost use Rattle.std.specs.Prelude.{ℕ, ◌≡◌, ◌<◌};
ghost use Rattle.json_text.specs.Places.{behind};
ghost use Rattle.message.specs.Message.{method_of, setting_of};
ghost use Rattle.values.specs.Spans.{spelling_at};

use fields::{Setting, call_mode, content_type, rescuee, service};
use rules::{CALL_MODE, CONTENT_TYPE, REQUEST_SERVICE, RESCUEE};
use values::spelling_at;

// Nothing told yet.
pub const UNTOLD: Setting = Setting {
    tag: 0,
    method: 0,
    content: 0,
    mode: 0,
    rescuee: 0,
    service: 0,
};

// The number that f knows of how the value at v is spelled; 0 where there is none.
fn number_at<F: FnOnce(&[u8]) -> u8>(s: &[u8], v: usize, e: usize, f: F) -> u8
    requires ended { 0 < e → e ≡ behind s.now v }
    requires callable { F.IsAlwaysCallable f }
    ensures none { v ≡ 0 → result ≡ 0 }
    ensures told { (v ≡ 0 → ⊥) → FnOnceReturnsAt F.FnOnce f (spelling_at s.now v) result }
{
    if v == 0 {
        return 0;
    }
    f(spelling_at(s, v, e))
}

// What the rules of a request or a response see besides their value.
pub fn setting_of(s: &[u8], tag: u8, method: u8, at: &[usize; 27], end: &[usize; 27]) -> Setting
    requires { (method ≡ method_of s.now at.now) × Ended s.now at.now end.now }
    ensures { (result ≡ setting_of s.now tag at.now) × (result.method ≡ method) }
{
    let content = number_at(s, at[CONTENT_TYPE], end[CONTENT_TYPE], |w| content_type(w));
    let mode = number_at(s, at[CALL_MODE], end[CALL_MODE], |w| call_mode(w));
    let rescued = number_at(s, at[RESCUEE], end[RESCUEE], |w| rescuee(w));
    let asked = number_at(s, at[REQUEST_SERVICE], end[REQUEST_SERVICE], |w| service(w));
    Setting {
        tag,
        method,
        content,
        mode,
        rescuee: rescued,
        service: asked,
    }
}
