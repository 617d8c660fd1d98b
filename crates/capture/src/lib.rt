// A capture: a lent buffer with a count of its bytes in use, a version byte at the front, then records one behind the other. Opened,
// counted afresh, walked record by record, and found again where a write was torn (crate append makes it longer). It leans on record for
// one record and on summary for what is counted. Document 02, W-207.
#![tactic(auto)]

ghost use Rattle.std.specs.Prelude.{◌+◌, ◌≤◌, ◌≡◌, length, drop};
ghost use Rattle.refusal.specs.Answer.{said, said_of};
ghost use Rattle.event.specs.Layout.{width_of};
ghost use Rattle.record.specs.Record.{standing, said_stored, said_standing};
ghost use Rattle.capture.specs.Capture.{layout_by, is_version, version_in, front_of, next_at, walked, kept, first_records};
ghost use Rattle.capture.specs.Capture.{opened, counted, prefixed, nothing_kept, step_at, datagram_at, datagram_start};

use event::Layout;
use record::Stored;
use refusal::Refusal;
use summary::Summary;

// "a version byte at the front (1 for three target bytes, 2 for two)"
pub const THREE: u8 = 1;

pub const TWO: u8 = 2;

// How many bytes of a capture are in use, and its last record's seconds.
#[derive(Clone, Copy, Debug, PartialEq, Eq)]
pub struct Mark {
    pub used: usize,
    pub last: Option<u32>,
}

// What is kept of a capture beside its bytes.
#[derive(Clone, Copy, Debug, PartialEq, Eq)]
pub struct Kept {
    pub mark: Mark,
    pub summary: Summary,
}

// Whether a number is a version.
pub fn is_version(version: u8) -> bool
    ensures { result ≡ is_version version }
{
    matches!(version, THREE | TWO)
}

// The layout of a version's datagrams.
fn layout_of(version: u8) -> Layout
    ensures { result ≡ layout_by version }
{
    if version == TWO {
        Layout::Two
    } else {
        Layout::Three
    }
}

// The layout by the version byte, however many bytes are claimed to be in use.
fn version_in(buf: &[u8], used: usize) -> Result<Layout, Refusal>
    ensures { said result ≡ version_in buf.now used }
{
    if buf.len() < 1 || used < 1 {
        return Err(Refusal::BadRecord);
    }
    let version = buf[0];
    if !is_version(version) {
        return Err(Refusal::UnknownVersion);
    }
    Ok(layout_of(version))
}

// What is judged of a capture before its records: the version byte and the bytes in use.
pub fn front(buf: &[u8], used: usize) -> Result<Layout, Refusal>
    ensures { said result ≡ front_of buf.now used }
{
    let layout = version_in(buf, used)?;
    if buf.len() < used {
        return Err(Refusal::BadRecord);
    }
    Ok(layout)
}

// The record at a place, behind one of these seconds; none where no good one stands there.
pub fn follow(layout: Layout, s: &[u8], at: usize, last: Option<u32>) -> Option<Stored>
    ensures { said_standing result ≡ standing at (next_at (width_of layout) last (drop at s.now)) }
{
    let x = record::read(layout, s, at)?;
    if summary::not_before(last, x.seconds) {
        Some(x)
    } else {
        None
    }
}

// Walks on from a mark over good records, to the end or to the first that is bad.
fn walk(layout: Layout, s: &[u8], from: Mark) -> Mark
    requires { from.used ≤ length s.now }
    ensures { result ≡ walked (width_of layout) s.now from }
{
    let mut at = from.used;
    let mut last = from.last;
    // a `while`: the step is the length of the record that was read
    while let Some(x) = follow(layout, s, at, last) {
        at = x.next;
        last = Some(x.seconds);
    }
    Mark { used: at, last }
}

// A summary, and the mark that ends in its last seconds.
pub fn keep(used: usize, summary: Summary) -> Kept
    ensures { result ≡ record { mark = record { used = used; last = summary.last }; summary = summary } }
{
    Kept {
        mark: Mark {
            used,
            last: summary.last,
        },
        summary,
    }
}

// Nothing in use, and nothing counted: what programs in C are shown beside a refusal (crate c_capture).
pub fn nothing_kept() -> Kept
    ensures { result ≡ nothing_kept }
{
    keep(0, summary::nothing())
}

// Walks over good records from behind the version byte and counts them, to the end, to the first that is bad, or as many as can be counted.
fn tally(layout: Layout, s: &[u8]) -> Kept
    requires { 1 ≤ length s.now }
    ensures { result ≡ kept (first_records (width_of layout) s.now) }
{
    let mut place: usize = 1;
    let mut x = summary::nothing();
    // a `while`, as in `walk`
    while let Some(y) = follow(layout, s, place, x.last) {
        let Ok(more) = summary::count(x, y.seconds, y.event.kind) else {
            return keep(place, x);
        };
        place = y.next;
        x = more;
    }
    keep(place, x)
}

// Opens a capture: walks it once, and hands out its mark.
pub fn open(buf: &[u8], used: usize) -> Result<Mark, Refusal>
    ensures { said result ≡ opened buf.now used }
{
    let layout = front(buf, used)?;
    let start = Mark {
        used: 1,
        last: None,
    };
    let m = walk(layout, &buf[..used], start);
    if m.used < used {
        return Err(Refusal::BadRecord);
    }
    Ok(m)
}

// Counts a capture afresh: its good records, where they are all of it.
pub fn count(buf: &[u8], used: usize) -> Result<Summary, Refusal>
    ensures { said result ≡ counted buf.now used }
{
    let layout = front(buf, used)?;
    let s = &buf[..used];
    let k = tally(layout, s);
    let m = walk(layout, s, k.mark);
    if m.used < s.len() {
        return Err(Refusal::BadRecord);
    }
    if k.mark.used < s.len() {
        return Err(Refusal::NoRoom);
    }
    Ok(k.summary)
}

// The longest good capture at the front of the bytes in use, whatever follows it: what a torn write left. Bytes claimed beyond the
// buffer's end count as not there.
pub fn prefix(buf: &[u8], used: usize) -> Result<Kept, Refusal>
    ensures { said result ≡ prefixed buf.now used }
{
    let layout = version_in(buf, used)?;
    let there = used.min(buf.len());
    Ok(tally(layout, &buf[..there]))
}

// The record that begins at a place of a capture: its seconds, its event, and the place of the next. 12 at the end of the bytes in use.
// The records before it are not looked at.
pub fn step(buf: &[u8], used: usize, place: usize) -> Result<Stored, Refusal>
    ensures { said_of said_stored result ≡ step_at buf.now used place }
{
    let layout = front(buf, used)?;
    if place == used {
        return Err(Refusal::NoneThere);
    }
    if place < 1 {
        return Err(Refusal::BadRecord);
    }
    record::read(layout, &buf[..used], place).ok_or(Refusal::BadRecord)
}

// The datagram of that record, as that part of the caller's own buffer; empty where none is good.
pub fn datagram(buf: &[u8], used: usize, place: usize) -> &[u8]
    ensures { (result.now ≡ datagram_at buf.now used place)
        × (result.ref_ptr.0 ≡ buf.entry.ref_ptr.0)
        × (result.ref_ptr.1 ≡ datagram_start buf.now used place + buf.entry.ref_ptr.1) }
{
    match step(buf, used, place) {
        Ok(x) => &buf[place + record::HEAD..x.next],
        Err(_) => &buf[..0],
    }
}
