// Replies as single datagrams, read, with their data part and error code (crate writers writes them). It leans on lead for the types and
// the most data, on error for the names of codes, on sum for the sum.
// Document 01, "Frames"; source 002, "TPI Advanced Response Frame" and "Error Codes".
#![tactic(auto)]

ghost use Rattle.std.specs.Prelude.{◌+◌, ◌≡◌};
ghost use Rattle.refusal.specs.Answer.{said};
ghost use Rattle.reply.specs.Reading.{read_reply, data_of, data_start, code_of};

use refusal::Refusal;

// "Reply, 4 + n bytes: type, sequence, n, n data bytes, sum": where the data begin.
pub const DATA_AT: usize = 3;

// "A3 ERROR"
const ERROR: u8 = 0xA3;

// A reply: its type, A0 OK, A1 ANSWER, A2 NO_ANSWER or A3 ERROR, its sequence number, and how many data bytes it has.
#[derive(Clone, Copy, Debug, PartialEq, Eq)]
pub struct Reply {
    pub kind: u8,
    pub sequence: u8,
    pub n: usize,
}

// The error code of a reply, and the number of its name, where it has one.
#[derive(Clone, Copy, Debug, PartialEq, Eq)]
pub struct Code {
    pub code: u8,
    pub name: Option<u8>,
}

// What a datagram says as a reply: the lowest refusal that applies, or a full reading.
#[tactic(auto, unfolding(crate::specs::Reading::read_reply))]
pub fn read(s: &[u8]) -> Result<Reply, Refusal>
    ensures { said result ≡ read_reply s.now }
{
    if s.len() < lead::REPLY_LEAST {
        return Err(Refusal::TooShort);
    }
    let kind = s[0];
    if !lead::is_reply(kind) {
        return Err(Refusal::BadLead);
    }
    let n = s[2] as usize;
    if lead::REPLY_DATA < n {
        return Err(Refusal::BadLengthByte);
    }
    if s.len() != n + lead::REPLY_LEAST {
        return Err(Refusal::BadLength);
    }
    if sum::xor(s) != 0 {
        return Err(Refusal::BadSum);
    }
    Ok(Reply {
        kind,
        sequence: s[1],
        n,
    })
}

// The data of a reply, as that part of the caller's own datagram; empty where the datagram is refused.
#[tactic(auto, using(crate::specs::Fits::read_fits))]
pub fn data(s: &[u8]) -> &[u8]
    ensures { (result.now ≡ data_of s.now)
        × (result.ref_ptr.0 ≡ s.entry.ref_ptr.0)
        × (result.ref_ptr.1 ≡ data_start s.now + s.entry.ref_ptr.1) }
{
    match read(s) {
        Ok(reply) => &s[DATA_AT..DATA_AT + reply.n],
        Err(_) => &s[..0],
    }
}

// The error code of an ERROR reply, its first data byte. Other replies, and an ERROR reply without data, have none.
#[tactic(auto, using(crate::specs::Fits::read_fits))]
pub fn error_code(s: &[u8]) -> Result<Option<Code>, Refusal>
    ensures { said result ≡ code_of s.now }
{
    let reply = read(s)?;
    if reply.kind != ERROR || reply.n == 0 {
        return Ok(None);
    }
    let code = s[DATA_AT];
    Ok(Some(Code {
        code,
        name: error::name_of(code),
    }))
}
