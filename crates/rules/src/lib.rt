// The texts of TS-1022 that documents 01 and 02 name: each field's rule, on the bytes of the field's own text; and a day alone.
// Proved: every answer equals a definition of specs/, which stands beside document 01's list of rules.
// Any bytes will do, a part of a message or not; only what is written or looked up by number asks for a range.
#![tactic(auto)]

mod addresses;
mod asks;
mod classes;
mod dates;
mod names;
mod numbers;
mod pieces;
mod sequences;
mod statuses;
mod texts;
mod words;

pub use addresses::{Address, address_of};
pub use asks::{method_asks, tag_asks};
pub use classes::{Class, holds};
pub use dates::{days_in, is_date, is_day};
pub use names::{field, hop_member, is_field, method, tag};
pub use numbers::{
    ACK, AMBULANCE, BODY, CALL_ID, CALL_MODE, CALL_TEST, CALLBACK, CALLER, CANCEL, CONTENT_TYPE,
    CSEQ, DATE, DESTINATION, FROM, INVITE, LANGUAGE, LOCATION_CONTENT, LOCATIONS, MESSAGE,
    MESSAGE_ID, MESSAGE_IMAGE_CONTENT, NOTIFY, OPTIONS, PONG, PRESENCE_CONTENT, REFER, REFER_MEMO,
    REQUEST, REQUEST_SERVICE, REQUIRED, RESCUEE, RESPONSE, SECURE_CALL, SESSION_ID, STATUS,
    TEXT_CONTENT, TEXT_IMAGE_CONTENT, THIRD_PARTY, TO, TRAINING, UNLISTED, USER_AGENT, VIA,
};
pub use pieces::{number_at, within, worth};
pub use sequences::{Sequence, sequence_of};
pub use statuses::{is_listed, put_status, status_length, status_of};
pub use texts::{
    is_call_id, is_desk, is_destination, is_fire_id, is_host, is_image, is_language, is_memo,
    is_message_id, is_organization, is_user_id, points,
};
pub use words::{
    availability, call_mode, call_test, content_type, live_provider, message_type, notify_type,
    presence, provider, rescuee, secure_call, service, sex,
};
