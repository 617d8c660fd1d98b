// The tally of one corridor through four seasons, with one record more. It leans on season for each of them, on event for an event, on
// event_type for its type (crate report takes the tally of a capture). Document 02, W-213.
#![tactic(auto)]

ghost use Rattle.std.specs.Prelude.{◌<◌, ◌≡◌};
ghost use Rattle.event.specs.Reading.{said_event};
ghost use Rattle.tally.specs.Tally.{changed, noted, one_more, no_tally};

use event::Event;
use season::{Boundaries, Corridor, Season};

// "for each of the four seasons"
pub const SEASONS: usize = 4;

// The tally of some records: the four seasons, and the seconds of the last occupied event of the corridor, from which the next gap is
// counted. It goes by value.
#[derive(Clone, Copy)]
pub struct Tally {
    pub seasons: [Season; SEASONS],
    pub last: Option<u32>,
}

// The tally of no records.
pub fn nothing() -> Tally
    ensures { result ≡ no_tally }
{
    Tally {
        seasons: [season::none(); SEASONS],
        last: None,
    }
}

// The four seasons with one more event in one of them. Its place is written out in each arm, so that the compiler keeps the others where
// they are: with an index an event of the corridor costs 67 instructions more (W-213 in docs/DECISIONS.md).
fn change(mut seasons: [Season; SEASONS], i: usize, kind: u8, gap: Option<u32>) -> [Season; SEASONS]
    requires { i < 4 }
    ensures { result ≡ changed seasons i kind gap }
{
    match i {
        0 => seasons[0] = season::with_event(seasons[0], kind, gap),
        1 => seasons[1] = season::with_event(seasons[1], kind, gap),
        2 => seasons[2] = season::with_event(seasons[2], kind, gap),
        _ => seasons[3] = season::with_event(seasons[3], kind, gap),
    }
    seasons
}

// An event of the corridor, in the season in which it lies.
#[tactic(auto, using(season::specs::Ways::season_small), unfolding(crate::specs::Tally::noted))]
fn note(b: Boundaries, x: Tally, seconds: u32, kind: u8) -> Tally
    ensures { result ≡ noted b x seconds kind }
{
    let gap = season::gap_by(b, x.last, seconds, kind);
    Tally {
        seasons: change(x.seasons, season::season_of(b, seconds), kind, gap),
        last: season::last_by(x.last, seconds, kind),
    }
}

// The tally with one record more, of these seconds and this event. Events that are not of the corridor leave it as it is.
#[tactic(auto, unfolding(crate::specs::Tally::one_more))]
pub fn one_more(who: Corridor, b: Boundaries, x: Tally, seconds: u32, event: Event) -> Tally
    ensures { result ≡ one_more who b x seconds (said_event event) }
{
    if season::is_of(who, event) {
        note(b, x, seconds, event.kind.number())
    } else {
        x
    }
}
