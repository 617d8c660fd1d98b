// The report of one corridor, of a capture that comes in parts: a state by value that takes them one after the other, cut anywhere, and
// gives in the end the report of crate report, or its refusal, for the parts put together. Between two parts it holds at most one record
// less a byte. It leans on passing for the records of a part, on capture for the version, on report for what is answered. Document 02, W-213.
#![tactic(auto)]

ghost use Rattle.std.specs.Prelude.{◌≤◌, ◌≡◌, false, ◌++◌, length, take};
ghost use Rattle.refusal.specs.Answer.{said};
ghost use Rattle.event.specs.Layout.{width_of};
ghost use Rattle.by_parts.specs.Parts.{room, longest_rest, is_settled, held_of, holding, leaving, onward, begun, stopped, parted, ended};
ghost use Rattle.by_parts.specs.Turn.{turned, turned_to};
ghost use Rattle.by_parts.specs.Window.{joined};

use event::Layout;
use passing::Passed;
use refusal::Refusal;
use season::{Boundaries, Corridor, Season};

// The most bytes that are held between two parts: those of the longest record less one. A record has a length in two bytes, seconds in
// four, and a datagram, which has at most 62.
pub const ROOM: usize = 67;

// Bytes in front, and how many they are. What lies behind them is 0 in every state that a call leaves, and is not looked at.
#[derive(Clone, Copy)]
pub struct Held {
    pub bytes: [u8; ROOM],
    pub len: usize,
}

// What is known of a capture so far: not a byte of it; its layout, and only good records; or that it is refused.
#[derive(Clone, Copy)]
pub enum Stage {
    Fresh,
    Of(Layout),
    Refused(Refusal),
}

// A report between two parts: whose it is, what is known of the capture, the good records passed, and what is held of the next. It goes
// by value. Where a record is bad or cut short, the records and the bytes passed tell which and where: the version byte stands in front.
#[derive(Clone, Copy)]
pub struct SoFar {
    pub who: Corridor,
    pub bounds: Boundaries,
    pub stage: Stage,
    pub passed: Passed,
    pub held: Held,
}

// What a read makes of a report: a program goes on reading, or is at the end of the capture (or was told so much that no byte more matters).
#[derive(Clone, Copy)]
pub enum Turned {
    Goes(SoFar),
    Ended(SoFar),
}

// Bytes held and some behind them, as one record and more can need.
#[derive(Clone, Copy)]
struct Window {
    bytes: [u8; ROOM + 1],
    len: usize,
}

// The bytes of a run, held.
fn hold(s: &[u8]) -> Held
    requires { length s.now ≤ room }
    ensures { result ≡ holding s.now }
{
    let mut bytes = [0u8; ROOM];
    let len = lent::word(&mut bytes, 0, s);
    Held { bytes, len }
}

// A report of which no part has come.
pub fn begin(who: Corridor, bounds: Boundaries) -> SoFar
    ensures { result ≡ begun who bounds }
{
    SoFar {
        who,
        bounds,
        stage: Stage::Fresh,
        passed: passing::nothing(),
        held: hold(b""),
    }
}

// The most bytes that follow the length of a record: four of seconds, and the longest datagram of the layout.
fn longest_rest(layout: Layout) -> usize
    ensures { result ≡ longest_rest (width_of layout) }
{
    match layout {
        Layout::Three => 66,
        Layout::Two => 65,
    }
}

// Whether some bytes tell how the record that begins with them stands: its length is there, and no record has so many bytes, or all are there.
#[tactic(auto, unfolding(crate::specs::Parts::is_settled))]
fn is_settled(layout: Layout, s: &[u8]) -> bool
    ensures { result ≡ is_settled (width_of layout) s.now }
{
    if s.len() < led::LEAD {
        return false;
    }
    let n = order::high_first(s[0], s[1]) as usize;
    longest_rest(layout) < n || led::LEAD + n <= s.len()
}

// A report of a capture that is refused.
fn stop(x: SoFar, refusal: Refusal) -> SoFar
    ensures { result ≡ stopped x.who x.bounds x.passed refusal }
{
    SoFar {
        stage: Stage::Refused(refusal),
        held: hold(b""),
        ..x
    }
}

// What is left behind the good records, at whose front stands none: it is held, unless it tells that the next is bad.
#[tactic(auto, using(crate::specs::Onward::told_few))]
fn leave(layout: Layout, x: SoFar, s: &[u8]) -> SoFar
    ensures { result ≡ leaving layout x.who x.bounds x.passed s.now }
{
    if is_settled(layout, s) {
        return stop(x, Refusal::BadRecord);
    }
    SoFar {
        stage: Stage::Of(layout),
        held: hold(s),
        ..x
    }
}

// From the place of a record on.
fn go_on(layout: Layout, x: SoFar, s: &[u8]) -> SoFar
    ensures { result ≡ onward layout x.who x.bounds x.passed s.now }
{
    let p = passing::over(layout, s, x.who, x.bounds, x.passed);
    leave(
        layout,
        SoFar {
            passed: p.passed,
            ..x
        },
        &s[p.at..],
    )
}

// The bytes held, and behind them as many of the part as a record can need.
fn join(held: &[u8], part: &[u8]) -> Window
    requires { length held.now ≤ room }
    ensures { (take result.len result.bytes ≡ joined held.now part.now) × (result.len ≡ length (joined held.now part.now)) }
{
    let t = part.len().min(ROOM + 1 - held.len());
    let mut bytes = [0u8; ROOM + 1];
    let n = lent::word(&mut bytes, 0, held);
    let len = lent::word(&mut bytes, n, &part[..t]);
    Window { bytes, len }
}

// From bytes on that are held, and tell nothing yet.
fn resume(layout: Layout, x: SoFar, held: &[u8], part: &[u8]) -> SoFar
    requires { is_settled (width_of layout) held.now ≡ false }
    ensures { result ≡ onward layout x.who x.bounds x.passed (held.now ++ part.now) }
{
    let n = held.len();
    let w = join(held, part);
    let s = &w.bytes[..w.len];
    let p = passing::over(layout, s, x.who, x.bounds, x.passed);
    let y = SoFar {
        passed: p.passed,
        ..x
    };
    if p.at < n {
        return leave(layout, y, s);
    }
    go_on(layout, y, &part[p.at - n..])
}

// How many bytes are held: none where a state claims more than can be, or bytes that tell how their record stands.
fn holds(layout: Layout, h: Held) -> usize
    ensures { result ≡ length (held_of layout h) }
{
    if ROOM < h.len || is_settled(layout, &h.bytes[..h.len]) {
        0
    } else {
        h.len
    }
}

// A part of a capture whose layout is known.
fn take_in(layout: Layout, x: SoFar, part: &[u8]) -> SoFar
    ensures { result ≡ onward layout x.who x.bounds x.passed (held_of layout x.held ++ part.now) }
{
    let n = holds(layout, x.held);
    if 0 < n {
        return resume(layout, x, &x.held.bytes[..n], part);
    }
    go_on(layout, x, part)
}

// Takes the next part of a capture, of any bytes or none.
pub fn part(x: SoFar, s: &[u8]) -> SoFar
    ensures { result ≡ parted x s.now }
{
    match x.stage {
        Stage::Refused(_) => x,
        Stage::Of(layout) => take_in(layout, x, s),
        Stage::Fresh => {
            if s.is_empty() {
                return x;
            }
            match capture::front(s, s.len()) {
                Ok(layout) => go_on(layout, x, &s[1..]),
                Err(refusal) => stop(x, refusal),
            }
        }
    }
}

// The report, where no more parts come. It changes nothing, so that it may be asked after any part.
#[tactic(auto, unfolding(crate::specs::Parts::ended))]
pub fn end(x: SoFar) -> Result<[Season; tally::SEASONS], Refusal>
    ensures { said result ≡ ended x }
{
    let layout = match x.stage {
        Stage::Fresh => return Err(Refusal::BadRecord),
        Stage::Refused(refusal) => return Err(refusal),
        Stage::Of(layout) => layout,
    };
    if 0 < holds(layout, x.held) {
        return Err(Refusal::BadRecord);
    }
    if !season::rising(x.bounds) {
        return Err(Refusal::NotRising);
    }
    Ok(x.passed.tally.seasons)
}

// Whether a program goes on behind a part: where the capture is refused no byte more matters.
fn turn_to(x: SoFar) -> Turned
    ensures { result ≡ turned_to x }
{
    match x.stage {
        Stage::Fresh | Stage::Of(_) => Turned::Goes(x),
        Stage::Refused(_) => Turned::Ended(x),
    }
}

// What a read into a buffer makes of a report, by what it answered: a negative number is a failure, of which nothing is made, and no end of
// the capture; no byte is its end; else so many bytes of the buffer are its next part.
pub fn turn(x: SoFar, got: isize, buf: &[u8]) -> Option<Turned>
    ensures { result ≡ turned x got buf.now }
{
    if got < 0 {
        return None;
    }
    let n = got as usize;
    if n == 0 {
        return Some(Turned::Ended(x));
    }
    Some(turn_to(part(x, &buf[..n.min(buf.len())])))
}
