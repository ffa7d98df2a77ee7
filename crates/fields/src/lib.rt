// The rules of a message's fields (01 Reading, 'Rules'), each on the bytes of its own value, and Via's objects.
// Proved: every answer equals a definition of specs/, which stands beside document 01's list of rules.
// Whoever reads a message says where its values stand; what kind of value it is, and how its text is spelled, is told by `values`.
#![tactic(auto)]

mod faults;
mod holders;
mod hops;
mod judging;
mod spelled;
mod trails;
mod vias;

pub use hops::{Hop, hop_of};
pub use judging::{Setting, judge, judge_cseq, judge_party, judge_status};
pub use spelled::{call_mode, content_type, field, rescuee, service, tag};
pub use trails::{Trail, no_trail};
pub use vias::judge_via;
