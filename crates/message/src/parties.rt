// The texts that name a call and its two parties (01 Reading, To and From): those above get them here alone. The Call-ID and the addresses are parts
// of the message that was read, as they are spelled there (02 §2); the user and the Fire-IDs are parts of an address's text.
ghost use Rattle.std.specs.Prelude.{◌≡◌};
ghost use Rattle.values.specs.Spans.{cut};

use crate::facts::Message;
use values::part_at;

// The Call-ID as it is spelled.
pub fn call_id(s: &[u8], m: Message) -> &[u8]
    ensures { result.now ≡ cut s.now m.callid }
{
    part_at(s, m.callid)
}

// The caller's address as it is spelled.
pub fn caller_address(s: &[u8], m: Message) -> &[u8]
    ensures { result.now ≡ cut s.now m.calleraddress }
{
    part_at(s, m.calleraddress)
}

// The callee's address as it is spelled.
pub fn callee_address(s: &[u8], m: Message) -> &[u8]
    ensures { result.now ≡ cut s.now m.calleeaddress }
{
    part_at(s, m.calleeaddress)
}

// The user in the text of the caller's address.
pub fn user(caller: &[u8], m: Message) -> &[u8]
    ensures { result.now ≡ cut caller.now m.user }
{
    part_at(caller, m.user)
}

// The caller's Fire-ID in the text of the caller's address.
pub fn caller_fire(caller: &[u8], m: Message) -> &[u8]
    ensures { result.now ≡ cut caller.now m.callerfire }
{
    part_at(caller, m.callerfire)
}

// The callee's Fire-ID in the text of the callee's address.
pub fn callee_fire(callee: &[u8], m: Message) -> &[u8]
    ensures { result.now ≡ cut callee.now m.calleefire }
{
    part_at(callee, m.calleefire)
}
