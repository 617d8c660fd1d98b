// Datagrams as programs in C have them: the structs that crate wickanchor hands over, laid out as C does, and what turns the answers of
// crates frame, reply, error and event into them, and addresses back; requests stand in crate c_requests and are handed on. A refusal is its number by
// document 01, 0 stands for none, and every other field of a refused call is 0: a number or a flag beside a value stays in these structs, since
// include/wickanchor.h lays them out so. Each contract is an equation over what the answer says.
#![tactic(auto)]

ghost use Rattle.std.specs.Prelude.{◌≡◌};
ghost use Rattle.refusal.specs.Answer.{full, said};
ghost use Rattle.refusal.specs.Refusals.{number_of};
ghost use Rattle.event.specs.Layout.{width_of};
ghost use Rattle.event.specs.Reading.{said_event};
ghost use Rattle.c_datagrams.specs.Written.{wrote_out};
ghost use Rattle.c_datagrams.specs.Replies.{reply_out, name_no, code_out};
ghost use Rattle.c_datagrams.specs.Events.{no_event, event_out, mac_in};

pub use c_requests::{WickAddress, WickAim, WickRequest, address_in, aim_out, request_out};
use event::{Event, Layout, Mac};
use refusal::Refusal;
use reply::{Code, Reply};

// How many bytes a writer wrote.
#[repr(C)]
#[derive(Drop)]
pub struct WickWrote {
    pub refusal: u8,
    pub count: u64,
}

// A reply: its data are n bytes of the datagram, from data_at on.
#[repr(C)]
#[derive(Drop)]
pub struct WickReply {
    pub refusal: u8,
    pub kind: u8,
    pub sequence: u8,
    pub data_at: u64,
    pub n: u64,
}

// The error code of a reply, and the number of its name, 0 where it has none.
#[repr(C)]
#[derive(Drop)]
pub struct WickCode {
    pub refusal: u8,
    pub has_code: u8,
    pub code: u8,
    pub name: u8,
}

// The MAC address of a controller, in the order in which it is written.
#[derive(Clone, Copy)]
#[repr(C)]
#[derive(Drop)]
pub struct WickMac {
    pub b0: u8,
    pub b1: u8,
    pub b2: u8,
    pub b3: u8,
    pub b4: u8,
    pub b5: u8,
}

// An event: its data are n bytes of the datagram, from data_at on.
#[repr(C)]
#[derive(Drop)]
pub struct WickEvent {
    pub refusal: u8,
    pub kind: u8,
    pub instance: u8,
    pub has_instance: u8,
    pub mac: WickMac,
    pub target: u32,
    pub data_at: u64,
    pub n: u64,
}

// What a writer answers.
pub fn wrote_out(w: Result<usize, Refusal>) -> WickWrote
    ensures { result ≡ wrote_out (said w) }
{
    match w {
        Ok(n) => WickWrote {
            refusal: 0,
            count: n as u64,
        },
        Err(k) => WickWrote {
            refusal: k.number(),
            count: 0,
        },
    }
}

// "type, sequence, n, n data bytes, sum": where the data begin.
const REPLY_DATA_AT: u64 = 3;

// What reading a reply datagram answers.
pub fn reply_out(r: Result<Reply, Refusal>) -> WickReply
    ensures { result ≡ reply_out (said r) }
{
    match r {
        Ok(x) => WickReply {
            refusal: 0,
            kind: x.kind,
            sequence: x.sequence,
            data_at: REPLY_DATA_AT,
            n: x.n as u64,
        },
        Err(k) => WickReply {
            refusal: k.number(),
            kind: 0,
            sequence: 0,
            data_at: 0,
            n: 0,
        },
    }
}

// The error code of a reply.
pub fn code_out(c: Result<Option<Code>, Refusal>) -> WickCode
    ensures { result ≡ code_out (said c) }
{
    match c {
        Ok(Some(c)) => WickCode {
            refusal: 0,
            has_code: 1,
            code: c.code,
            name: name_out(c.name),
        },
        Ok(None) => WickCode {
            refusal: 0,
            has_code: 0,
            code: 0,
            name: 0,
        },
        Err(k) => WickCode {
            refusal: k.number(),
            has_code: 0,
            code: 0,
            name: 0,
        },
    }
}

// The number of an error code's name, 0 where it has none.
pub fn name_out(n: Option<u8>) -> u8
    ensures { result ≡ name_no n }
{
    n.unwrap_or(0)
}

// An event that was accepted, by its layout.
pub fn event_out(layout: Layout, e: Event) -> WickEvent
    ensures { result ≡ event_out (width_of layout) (full (said_event e)) }
{
    let m = e.mac;
    WickEvent {
        refusal: 0,
        kind: e.kind.number(),
        instance: e.instance.unwrap_or(0),
        has_instance: e.instance.is_some() as u8,
        mac: WickMac {
            b0: m.0,
            b1: m.1,
            b2: m.2,
            b3: m.3,
            b4: m.4,
            b5: m.5,
        },
        target: e.target,
        data_at: layout.data_at() as u64,
        n: e.n as u64,
    }
}

// An event datagram that was refused.
pub fn event_refused(k: Refusal) -> WickEvent
    ensures { result ≡ no_event (number_of k) }
{
    WickEvent {
        refusal: k.number(),
        kind: 0,
        instance: 0,
        has_instance: 0,
        mac: WickMac {
            b0: 0,
            b1: 0,
            b2: 0,
            b3: 0,
            b4: 0,
            b5: 0,
        },
        target: 0,
        data_at: 0,
        n: 0,
    }
}

// The MAC address of crate event.
pub fn mac_in(m: WickMac) -> Mac
    ensures { result ≡ mac_in m }
{
    Mac(m.b0, m.b1, m.b2, m.b3, m.b4, m.b5)
}
