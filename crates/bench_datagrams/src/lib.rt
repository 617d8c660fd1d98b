// What replies and events are read as, and what a writer did, as the bench's answers. docs/BENCH.md, "Datagrams". It leans on
// crate bench_say, and on crates frame, reply and event for what is said.
#![tactic(auto)]

ghost use Rattle.std.specs.Prelude.{◌≡◌};
ghost use Rattle.lent.specs.All.{PutsAll};
ghost use Rattle.bench_say.specs.Pieces.{pieces_texts};
ghost use Rattle.bench_datagrams.specs.Datagrams.{buffer_texts, read_texts};
ghost use Rattle.bench_datagrams.specs.Pieces.{names, reply_pieces, code_pieces, kind_pieces, instance_pieces, refused_pieces, read_pieces, event_rest, count_pieces};

use bench_say::Pieces;
use event::Event;
use event_type::EventType;
use refusal::Refusal;
use reply::{Code, Reply};

// What a call that reads a reply, an event or a part of one answers.
#[derive(Clone, Copy, Debug, PartialEq, Eq)]
pub enum Read {
    Reply(Result<Reply, Refusal>),
    Code(Result<Option<Code>, Refusal>),
    Event(Result<Event, Refusal>),
    Kind(EventType),
}

// Pieces with the names of this family: the places of the names are in the pieces' kinds (crate bench_say).
fn put(out: &mut [u8], at: usize, p: Pieces) -> usize
    ensures { PutsAll (pieces_texts names p) out.old at result out.new }
{
    bench_say::put(
        out,
        at,
        b" type 0 BUTTON_PRESS, type 1 BUTTON_HOLD, type 2 ABSOLUTE_INPUT, \
type 3 LEVEL_CHANGE, type 4 GROUP_LEVEL_CHANGE, type 5 SCENE_CHANGE, \
type 6 IS_OCCUPIED, type 7 IS_UNOCCUPIED, type 8 COLOUR_CHANGED, \
type 9 PROFILE_CHANGED, type , OTHER,0 type , sequence , n ,0 code , name ,\
0 absent, target , instance , instance absent,0 count ,0",
        p,
    )
}

// What reading a reply datagram answers.
fn reply(d: Result<Reply, Refusal>) -> Pieces
    ensures { result ≡ reply_pieces d }
{
    match d {
        Ok(a) => Pieces(0xC3, 0, 0xD2, a.sequence as u64, 0xE2, a.n as u64, a.kind),
        Err(k) => Pieces(4, k.number() as u64, 0, 0, 0, 0, 0),
    }
}

// The error code of a reply.
fn code(c: Result<Option<Code>, Refusal>) -> Pieces
    ensures { result ≡ code_pieces c }
{
    match c {
        Ok(Some(c)) => match c.name {
            Some(n) => Pieces(0xF3, 0, 0x102, n as u64, 0, 0, c.code),
            None => Pieces(0xF3, 0, 0, 0, 0, 0, c.code),
        },
        Ok(None) => Pieces(0x111, 0, 0, 0, 0, 0, 0),
        Err(k) => Pieces(4, k.number() as u64, 0, 0, 0, 0, 0),
    }
}

// A piece, and behind it an event's type: its number, and its name.
fn kind(a: usize, x: u64, t: EventType) -> Pieces
    ensures { result ≡ kind_pieces a x t }
{
    match t {
        EventType::ButtonPress => Pieces(a, x, 0x01, 0, 0, 0, 0),
        EventType::ButtonHold => Pieces(a, x, 0x11, 0, 0, 0, 0),
        EventType::AbsoluteInput => Pieces(a, x, 0x21, 0, 0, 0, 0),
        EventType::LevelChange => Pieces(a, x, 0x31, 0, 0, 0, 0),
        EventType::GroupLevelChange => Pieces(a, x, 0x41, 0, 0, 0, 0),
        EventType::SceneChange => Pieces(a, x, 0x51, 0, 0, 0, 0),
        EventType::IsOccupied => Pieces(a, x, 0x61, 0, 0, 0, 0),
        EventType::IsUnoccupied => Pieces(a, x, 0x71, 0, 0, 0, 0),
        EventType::ColourChanged => Pieces(a, x, 0x81, 0, 0, 0, 0),
        EventType::ProfileChanged => Pieces(a, x, 0x91, 0, 0, 0, 0),
        EventType::Other(n) => Pieces(a, x, 0xA2, n as u64, 0xB1, 0, 0),
    }
}

// How many bytes of data an event has, and its instance.
fn instance(n: usize, i: Option<u8>) -> Pieces
    ensures { result ≡ instance_pieces n i }
{
    match i {
        Some(k) => Pieces(0xE2, n as u64, 0x132, k as u64, 0, 0, 0),
        None => Pieces(0xE2, n as u64, 0x141, 0, 0, 0, 0),
    }
}

// The refusal of an event datagram; of one that is accepted nothing.
fn refused(d: Result<Event, Refusal>) -> Pieces
    ensures { result ≡ refused_pieces d }
{
    match d {
        Ok(_) => Pieces(0, 0, 0, 0, 0, 0, 0),
        Err(k) => Pieces(4, k.number() as u64, 0, 0, 0, 0, 0),
    }
}

// An event datagram that is accepted.
fn event(out: &mut [u8], at: usize, d: Result<Event, Refusal>) -> usize
    ensures { PutsAll (event_rest d) out.old at result out.new }
{
    match d {
        Ok(v) => {
            let mac = v.mac;
            let b = [mac.0, mac.1, mac.2, mac.3, mac.4, mac.5];
            let e = bench_say::run(out, at, b"0 mac", &b);
            let f = put(out, e, kind(0x122, v.target as u64, v.kind));
            put(out, f, instance(v.n, v.instance))
        }
        Err(_) => at,
    }
}

fn count(w: Result<usize, Refusal>) -> Pieces
    ensures { result ≡ count_pieces w }
{
    match w {
        Ok(n) => Pieces(0x152, n as u64, 0, 0, 0, 0, 0),
        Err(k) => Pieces(4, k.number() as u64, 0, 0, 0, 0, 0),
    }
}

// What a writer answered, and the buffer that was lent to it before and after.
pub fn wrote(
    out: &mut [u8],
    at: usize,
    w: Result<usize, Refusal>,
    before: &[u8],
    after: &[u8],
) -> usize
    ensures { PutsAll (buffer_texts w before.now after.now) out.old at result out.new }
{
    let e = put(out, at, count(w));
    let f = bench_say::run(out, e, b" before", before);
    bench_say::run(out, f, b" after", after)
}

// An answer but for an event's.
fn answer(x: Read) -> Pieces
    ensures { result ≡ read_pieces x }
{
    match x {
        Read::Reply(d) => reply(d),
        Read::Code(c) => code(c),
        Read::Event(d) => refused(d),
        Read::Kind(t) => kind(0x161, 0, t),
    }
}

// The answer of a call that reads.
pub fn say(out: &mut [u8], at: usize, x: Read) -> usize
    ensures { PutsAll (read_texts x) out.old at result out.new }
{
    let e = put(out, at, answer(x));
    match x {
        Read::Reply(_) => e,
        Read::Code(_) => e,
        Read::Event(d) => event(out, e, d),
        Read::Kind(_) => e,
    }
}
