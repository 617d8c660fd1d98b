// One record of a capture: read at a place of a run, and put over a lent buffer from a place on. It leans on led for the length, on order
// for the numbers, on event for the datagram, on lent for the buffer. Document 02, W-207.
#![tactic(auto)]

ghost use Rattle.std.specs.Prelude.{◌+◌, ◌≤◌, ◌≡◌, length, drop};
ghost use Rattle.lent.specs.Puts.{Puts};
ghost use Rattle.event.specs.Layout.{width_of};
ghost use Rattle.event.specs.Reading.{read_event};
ghost use Rattle.record.specs.Record.{record_bytes, seconds_in, datagram_in, with_event, record_at, standing, said_standing};

use event::{Event, Layout};

// "The length counts what follows it": seconds in four bytes, then the datagram. The bytes of a record in front of its datagram.
const SECONDS: usize = 4;

pub const HEAD: usize = 2 + SECONDS;

// A good record: its seconds, what its datagram says, and the place behind it. The datagram begins HEAD bytes behind the record's place
// and ends at the next place.
#[derive(Clone, Copy, Debug, PartialEq, Eq)]
pub struct Stored {
    pub seconds: u32,
    pub event: Event,
    pub next: usize,
}

// The seconds of the record at a place.
fn seconds_at(s: &[u8], at: usize) -> u32
    requires { at + 6 ≤ length s.now }
    ensures { result ≡ seconds_in (drop at s.now) }
{
    order::high_first_of_four(s[at + 2], s[at + 3], s[at + 4], s[at + 5])
}

// The record at a place, where so many bytes follow its length.
fn read_part(layout: Layout, s: &[u8], at: usize, n: usize) -> Option<Stored>
    requires { (4 ≤ n) × (at + 2 + n ≤ length s.now) }
    ensures { said_standing result ≡ standing at (with_event (read_event (width_of layout) (datagram_in n (drop at s.now))) n (drop at s.now)) }
{
    let start = at + HEAD;
    let next = at + 2 + n;
    let Ok(event) = event::read(layout, &s[start..next]) else {
        return None;
    };
    Some(Stored {
        seconds: seconds_at(s, at),
        event,
        next,
    })
}

// The record that begins at a place of a run, whose datagrams have this layout; none where no good one does.
pub fn read(layout: Layout, s: &[u8], at: usize) -> Option<Stored>
    ensures { said_standing result ≡ standing at (record_at (width_of layout) (drop at s.now)) }
{
    let n = led::part_at(s, at)?;
    if n < SECONDS {
        return None;
    }
    read_part(layout, s, at, n)
}

// Puts a record over what stands in a buffer from a place on, and answers the place behind it. Where it has no room, nothing is written
// and the place is answered that was given.
pub fn put(out: &mut [u8], at: usize, seconds: u32, datagram: &[u8]) -> usize
    ensures { Puts (record_bytes seconds datagram.now) out.old at result out.new }
{
    if out.len() < at || out.len() - at < HEAD + datagram.len() {
        return at;
    }
    // a datagram may be longer than its length can say, so no u16 holds this number: its two low bytes are written
    let n = SECONDS + datagram.len();
    let [a, b, c, d] = seconds.to_be_bytes();
    let head = [(n / 256 % 256) as u8, (n % 256) as u8, a, b, c, d];
    let e = lent::word(out, at, &head);
    lent::word(out, e, datagram)
}
