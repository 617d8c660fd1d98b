// A season of one corridor: whose events count, in which season a time lies, the gap that an event ends, and what one event more makes of a
// season. It leans on event for an event and its MAC address, on event_type for its instance (crate tally has the four of them). Document 02,
// W-213.
#![tactic(auto)]

ghost use Rattle.std.specs.Prelude.{◌≡◌, None};
ghost use Rattle.event.specs.Reading.{said_event};
ghost use Rattle.season.specs.Season.{is_of, rises, season_of, plus, count_if, longer, with_gap, one_gap};
ghost use Rattle.season.specs.Season.{no_events, with_event, gap_between, gap_by, last_by};

use event::{Event, Mac};

// "occupied events (type 6), button presses (0), holds (1)"
const OCCUPIED: u8 = 6;

const PRESS: u8 = 0;

const HOLD: u8 = 1;

// "one controller MAC, one target and one instance". No number of them is refused: where no event is of it, all counts are 0.
#[derive(Clone, Copy)]
pub struct Corridor {
    pub mac: Mac,
    pub target: u32,
    pub instance: u8,
}

// "three rising season boundaries in seconds".
#[derive(Clone, Copy)]
pub struct Boundaries {
    pub first: u32,
    pub second: u32,
    pub third: u32,
}

// What is reported of a season: how many events of the three types lie in it; the longest gap from one occupied event to the next, both
// lying in it, or none; and for the mean gap the total of the gaps and their number.
#[derive(Clone, Copy)]
pub struct Season {
    pub occupied: u64,
    pub presses: u64,
    pub holds: u64,
    pub longest: Option<u32>,
    pub total: u64,
    pub gaps: u64,
}

// A season of which nothing is counted.
pub fn none() -> Season
    ensures { result ≡ no_events }
{
    Season {
        occupied: 0,
        presses: 0,
        holds: 0,
        longest: None,
        total: 0,
        gaps: 0,
    }
}

// Whether an event is of a corridor: its MAC address, its target and its instance all are.
#[tactic(auto, unfolding(crate::specs::Season::is_of))]
pub fn is_of(who: Corridor, event: Event) -> bool
    ensures { result ≡ is_of who (said_event event) }
{
    who.mac == event.mac && who.target == event.target && event.instance == Some(who.instance)
}

// Whether boundaries rise. Equal ones do not.
pub fn rising(b: Boundaries) -> bool
    ensures { result ≡ rises b }
{
    b.first < b.second && b.second < b.third
}

// The season in which a time lies, by its place from 0. A time equal to a boundary lies in the later.
#[tactic(auto, unfolding(crate::specs::Season::season_of))]
pub fn season_of(b: Boundaries, seconds: u32) -> usize
    ensures { result ≡ season_of b seconds }
{
    if seconds < b.first {
        0
    } else if seconds < b.second {
        1
    } else if seconds < b.third {
        2
    } else {
        3
    }
}

// A sum in 64 bits. One that is full stays so.
#[tactic(auto, using(crate::specs::Ways::plus_is))]
pub fn plus(a: u64, b: u64) -> u64
    ensures { result ≡ plus a b }
{
    a.saturating_add(b)
}

// A count with one more, where the test holds.
fn count_if(test: bool, n: u64) -> u64
    ensures { result ≡ count_if test n }
{
    if test { plus(n, 1) } else { n }
}

// The longer of two gaps, each of which may be absent: none is shorter than any.
pub fn longer(longest: Option<u32>, gap: Option<u32>) -> Option<u32>
    ensures { result ≡ longer longest gap }
{
    longest.max(gap)
}

// A total with a gap more, or none.
fn with_gap(total: u64, gap: Option<u32>) -> u64
    ensures { result ≡ with_gap total gap }
{
    gap.map_or(total, |g| plus(total, u64::from(g)))
}

// How many gaps there are with a gap more, or none.
fn one_gap(gaps: u64, gap: Option<u32>) -> u64
    ensures { result ≡ one_gap gaps gap }
{
    gap.map_or(gaps, |_| plus(gaps, 1))
}

// A season with one more event of this type, and with the gap that it ends.
#[tactic(auto, unfolding(crate::specs::Season::with_event))]
pub fn with_event(s: Season, kind: u8, gap: Option<u32>) -> Season
    ensures { result ≡ with_event s kind gap }
{
    Season {
        occupied: count_if(kind == OCCUPIED, s.occupied),
        presses: count_if(kind == PRESS, s.presses),
        holds: count_if(kind == HOLD, s.holds),
        longest: longer(s.longest, gap),
        total: with_gap(s.total, gap),
        gaps: one_gap(s.gaps, gap),
    }
}

// The gap between two occupied events: none where they lie in different seasons.
#[tactic(auto, unfolding(crate::specs::Season::gap_between))]
fn gap_between(b: Boundaries, from: u32, to: u32) -> Option<u32>
    ensures { result ≡ gap_between b from to }
{
    if season_of(b, from) != season_of(b, to) {
        return None;
    }
    Some(to.saturating_sub(from))
}

// The gap that an event of this type ends: none, unless it is an occupied one with one before it.
pub fn gap_by(b: Boundaries, last: Option<u32>, seconds: u32, kind: u8) -> Option<u32>
    ensures { result ≡ gap_by b last seconds kind }
{
    if kind != OCCUPIED {
        return None;
    }
    last.and_then(|t| gap_between(b, t, seconds))
}

// The last occupied event behind an event of this type.
pub fn last_by(last: Option<u32>, seconds: u32, kind: u8) -> Option<u32>
    ensures { result ≡ last_by last seconds kind }
{
    if kind == OCCUPIED {
        Some(seconds)
    } else {
        last
    }
}
