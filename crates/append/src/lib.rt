// A capture emptied and made longer by one event: by the letter, which judges the whole of it first, and by a mark, in the time of one
// datagram. It leans on capture for what is judged of it, on record for the bytes, on summary for the counts. Document 02, W-207.
#![tactic(auto)]

ghost use Rattle.std.specs.Prelude.{◌+◌, ◌≡◌, leb};
ghost use Rattle.append.specs.Append.{emptied, Empties, verdict_at, AppendsAt, verdict, Appends};
ghost use Rattle.append.specs.Judged.{Judges};

use capture::{Kept, Mark};
use event_type::EventType;
use refusal::Refusal;
use summary::Summary;

// What an append by the letter answers: bytes in use and summary.
#[derive(Clone, Copy, Debug, PartialEq, Eq)]
pub struct Appended {
    pub used: usize,
    pub summary: Summary,
}

// Empties a capture: writes the version byte, and nothing else.
pub fn empty(buf: &mut [u8], version: u8) -> Result<Kept, Refusal>
    ensures { Empties (emptied buf.old version) buf.old version result buf.new }
{
    if buf.len() < 1 {
        return Err(Refusal::NoRoom);
    }
    if !capture::is_version(version) {
        return Err(Refusal::UnknownVersion);
    }
    buf[0] = version;
    Ok(capture::keep(1, summary::nothing()))
}

// Whether a record with a datagram of n bytes has room in a buffer behind the bytes in use.
fn has_room(room: usize, used: usize, n: usize) -> bool
    ensures { result ≡ leb (used + (6 + n)) room }
{
    used <= room && record::HEAD <= room - used && n <= room - used - record::HEAD
}

// What is judged of an append by a mark before its counts: the type of its event.
fn judge(buf: &[u8], mark: Mark, seconds: u32, datagram: &[u8]) -> Result<EventType, Refusal>
    ensures { Judges buf.now mark seconds datagram.now result }
{
    let layout = capture::front(buf, mark.used)?;
    let event = event::read(layout, datagram)?;
    if !summary::not_before(mark.last, seconds) {
        return Err(Refusal::EarlierTime);
    }
    if has_room(buf.len(), mark.used, datagram.len()) {
        Ok(event.kind)
    } else {
        Err(Refusal::NoRoom)
    }
}

// Appends an event by a mark, and hands out the next. Of the capture the version byte is judged and whether so many bytes are there; the
// mark's last seconds are taken at its word, and no record is looked at. The record is written at the mark.
pub fn append_at(
    buf: &mut [u8],
    mark: Mark,
    x: Summary,
    seconds: u32,
    datagram: &[u8],
) -> Result<Kept, Refusal>
    ensures { AppendsAt (verdict_at buf.old mark x seconds datagram.now) buf.old mark seconds datagram.now result buf.new }
{
    let kind = judge(buf, mark, seconds, datagram)?;
    let summary = summary::count(x, seconds, kind)?;
    let used = record::put(buf, mark.used, seconds, datagram);
    Ok(Kept {
        mark: Mark {
            used,
            last: Some(seconds),
        },
        summary,
    })
}

// Appends an event by the letter: the whole capture is judged first.
pub fn append(
    buf: &mut [u8],
    used: usize,
    x: Summary,
    seconds: u32,
    datagram: &[u8],
) -> Result<Appended, Refusal>
    ensures { Appends (verdict buf.old used x seconds datagram.now) buf.old used seconds datagram.now result buf.new }
{
    let mark = capture::open(buf, used)?;
    let kept = append_at(buf, mark, x, seconds, datagram)?;
    Ok(Appended {
        used: kept.mark.used,
        summary: kept.summary,
    })
}
