// The leads of the three families of frames, the least of a reply, and the most data bytes that a frame carries: each number stands here once.
// Document 01, "Frames" and "Refusals, by number" (2 and 4).
#![tactic(auto)]

ghost use Rattle.std.specs.Prelude.{◌≡◌};
ghost use Rattle.lead.specs.Lead.{is_request, is_reply, is_event};

// "Basic request, 8 bytes: 04, .."
pub const REQUEST: u8 = 0x04;

// "Event, 14 + n bytes: 5A 43, .."
pub const EVENT: [u8; 2] = [0x5A, 0x43];

// "Reply, 4 + n bytes": those beside its data.
pub const REPLY_LEAST: usize = 4;

// "Reply, 4 + n bytes: .. n is 0 to 64."
pub const REPLY_DATA: usize = 64;

// "Event, 14 + n bytes: .. n is 0 to 48."
pub const EVENT_DATA: usize = 48;

// Whether a byte is the lead of a request.
pub fn is_request(b: u8) -> bool
    ensures { result ≡ is_request b }
{
    b == REQUEST
}

// Whether a byte is a reply's type: A0 OK, A1 ANSWER, A2 NO_ANSWER, A3 ERROR.
pub fn is_reply(b: u8) -> bool
    ensures { result ≡ is_reply b }
{
    (0xA0 <= b) & (b <= 0xA3)
}

// Whether two bytes are the lead of an event.
pub fn is_event(a: u8, b: u8) -> bool
    ensures { result ≡ is_event a b }
{
    (a == EVENT[0]) & (b == EVENT[1])
}
