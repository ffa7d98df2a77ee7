// The numbers of tags, methods, Content-Types and known fields by name: places in the lists of names.rt and words.rt.

pub const REQUEST: u8 = 1;

pub const RESPONSE: u8 = 2;

pub const PING: u8 = 3;

pub const PONG: u8 = 4;

pub const INVITE: u8 = 1;

pub const BYE: u8 = 2;

pub const CANCEL: u8 = 3;

pub const ACK: u8 = 4;

pub const MESSAGE: u8 = 5;

pub const CALLBACK: u8 = 6;

pub const REFER: u8 = 7;

pub const NOTIFY: u8 = 8;

pub const TEXT_CONTENT: u8 = 1;

pub const TEXT_IMAGE_CONTENT: u8 = 2;

pub const MESSAGE_IMAGE_CONTENT: u8 = 3;

pub const PRESENCE_CONTENT: u8 = 4;

pub const LOCATION_CONTENT: u8 = 5;

pub const REFER_CONTENT: u8 = 6;

pub const CSEQ: usize = 1;

pub const TO: usize = 2;

pub const FROM: usize = 3;

pub const DATE: usize = 4;

pub const CALL_ID: usize = 5;

pub const VIA: usize = 6;

pub const STATUS: usize = 7;

pub const MESSAGE_ID: usize = 8;

pub const CONTENT_TYPE: usize = 9;

pub const BODY: usize = 10;

pub const REFER_MEMO: usize = 13;

pub const SESSION_ID: usize = 14;

pub const CALL_MODE: usize = 15;

pub const CALL_TEST: usize = 16;

pub const SECURE_CALL: usize = 17;

pub const RESCUEE: usize = 18;

pub const REQUEST_SERVICE: usize = 19;

pub const LANGUAGE: usize = 20;

pub const LOCATIONS: usize = 21;

pub const USER_AGENT: usize = 22;

pub const CALLER: usize = 23;

pub const OPTIONS: usize = 24;

pub const DESTINATION: usize = 25;

// What a run asks of a field.
pub const UNLISTED: u8 = 0;

pub const REQUIRED: u8 = 1;

// Of Call-Mode, Rescuee and Request-Service.
pub const TRAINING: u8 = 2;

pub const THIRD_PARTY: u8 = 2;

pub const AMBULANCE: u8 = 1;
