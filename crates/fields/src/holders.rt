// The fields whose values hold particulars (02 §4): 21 Locations, 23 Caller, and 10 Body where it is a location.
ghost use Rattle.std.specs.Prelude.{true, ◌≡◌};
ghost use Rattle.fields.specs.Field.{call_of, particulars_faults};
ghost use Rattle.fields.specs.inner.Chain.{holds_particulars};
ghost use Rattle.fields.specs.inner.Judging.{judged_value};
ghost use Rattle.particulars.specs.Lowest.{lowest};

use crate::judging::Setting;
use particulars::{Call, caller_fault, live_fault, locations_fault};
use rules::{AMBULANCE, BODY, CALLER, LOCATION_CONTENT, LOCATIONS, THIRD_PARTY, TRAINING};

// What the call says of its Caller.
#[tactic(auto, unfolding(crate::specs::Field::call_of))]
fn call_of(k: Setting) -> Call
    ensures { result ≡ call_of k }
{
    Call {
        training: k.mode == TRAINING,
        contacts: k.mode != TRAINING && k.rescuee != THIRD_PARTY && k.service == AMBULANCE,
    }
}

// Whether the value of field n has to hold particulars.
#[tactic(auto, unfolding(crate::specs::inner::Chain::holds_particulars))]
pub fn holds_particulars(k: Setting, n: usize) -> bool
    ensures { result ≡ holds_particulars k n }
{
    match n {
        LOCATIONS | CALLER => true,
        BODY => k.content == LOCATION_CONTENT,
        _ => false,
    }
}

// The lowest of their faults.
#[tactic(auto, unfolding(crate::specs::Field::particulars_faults))]
fn particulars_fault(k: Setting, n: usize, v: &[u8]) -> Option<usize>
    requires { holds_particulars k n ≡ true }
    ensures { result ≡ lowest (particulars_faults k n v.now) }
{
    match n {
        LOCATIONS => locations_fault(v),
        CALLER => caller_fault(call_of(k), v),
        _ => live_fault(v),
    }
}

// Such a field.
pub fn judge_particulars(k: Setting, n: usize, v: &[u8]) -> Result<(), usize>
    requires { holds_particulars k n ≡ true }
    ensures { result ≡ judged_value k n v.now }
{
    match particulars_fault(k, n, v) {
        None => Ok(()),
        Some(p) => Err(p),
    }
}
