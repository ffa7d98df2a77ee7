// An event as facts: what a message says, apart from its texts, or a tick.

// The eight methods, by their codes.
#[derive(Clone, Copy)]
pub enum Method {
    Invite = 1,
    Bye,
    Cancel,
    Ack,
    Message,
    Callback,
    Refer,
    Notify,
}

// Which side a message is from.
#[derive(Clone, Copy)]
pub enum Side {
    Caller,
    Callee,
}

#[derive(Drop)]
pub struct Request {
    pub method: Method,
    pub number: u32,
    pub from: Side,
    pub secure: bool,
}

#[derive(Drop)]
pub struct Response {
    pub method: Method,
    pub number: u32,
    pub from: Side,
    pub status: u16,
}

// A message's flag says whether its user and both Fire-IDs are the record's; without a record it says nothing.
#[derive(Drop)]
pub enum Event {
    Asks(Request, bool),
    Replies(Response, bool),
    Tick,
}
