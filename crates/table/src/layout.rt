// Where things stand in the image (01 The table image), each place and size named once; specs/Image.antt and specs/Record.antt
// have the same names.
pub const HEADER_SIZE: usize = 16;

pub const RECORD_SIZE: usize = 160;

pub const MOST_RECORDS: usize = 255;

pub const VERSION: u8 = 1;

pub const STATE_AT: usize = 0;

pub const CALL_ID_AT: usize = 1;

pub const USER_AT: usize = 66;

pub const CALLER_FIRE_AT: usize = 82;

pub const CALLEE_FIRE_AT: usize = 98;

pub const SECURE_AT: usize = 114;

pub const CALLER_METHOD_AT: usize = 115;

pub const INVITE_AT: usize = 116;

pub const CALLER_AT: usize = 120;

pub const CALLEE_AT: usize = 124;

pub const LAST_AT: usize = 128;

pub const ENTRY_AT: usize = 136;

pub const CALLEE_METHOD_AT: usize = 144;

pub const SPARE_AT: usize = 145;

pub const CHAT_AT: usize = 152;

pub const CALL_ID_ROOM: usize = 64;

pub const PARTY_ROOM: usize = 15;
