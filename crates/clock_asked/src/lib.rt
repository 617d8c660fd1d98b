// The day that the program clock is asked of: its midnight, and its date and weekday. It leans on asked and calendar for dates, on clock_day for
// what is known of a day, on refusal for the words of a test. docs/CLOCK.md, "The date".
#![tactic(auto)]

ghost use Rattle.std.specs.Prelude.{◌≡◌};
ghost use Rattle.clock_asked.specs.Asked.{no_day, day_of, given_of};

use asked::NoBoundary;
use clock_day::Given;

// "2000-01-01 to 2099-12-31"
const FIRST_YEAR: u32 = 2000;

const LAST_YEAR: u32 = 2099;

// The seconds of a day.
const DAY: u32 = 86400;

// The weekday of 1970-01-01, a Thursday, from Sunday.
const THURSDAY: u32 = 4;

// Why bytes are no day: they are no date; or what is wrong with the date.
#[derive(Clone, Copy, Debug, PartialEq, Eq)]
pub enum NoDay {
    NotADate,
    NoSuchDate,
    Outside,
}

impl From<NoBoundary> for NoDay {
    ghost from_gives = { λ b d. d ≡ no_day b };

    fn from(b: NoBoundary) -> NoDay {
        match b {
            NoBoundary::Neither => NoDay::NotADate,
            NoBoundary::NoSuchDate => NoDay::NoSuchDate,
            NoBoundary::Outside => NoDay::Outside,
        }
    }
}

// The midnight, in seconds since 1970, with which the day begins that the bytes of a date say.
#[tactic(auto, using(crate::specs::Dates::not_ten, crate::specs::Dates::not_dash, crate::specs::Dates::dated, crate::specs::Dates::too_early, crate::specs::Dates::too_late, crate::specs::Dates::in_time_lem))]
pub fn day_of(s: &[u8]) -> Result<u32, NoDay>
    ensures { result ≡ day_of s.now }
{
    // A number of seconds, which crate asked takes too, has a digit in place 4.
    if s.len() != 10 || s[4] != b'-' {
        return Err(NoDay::NotADate);
    }
    let midnight = asked::boundary_of(s)?;
    let year = calendar::date_of(midnight).year;
    if FIRST_YEAR <= year && year <= LAST_YEAR {
        Ok(midnight)
    } else {
        Err(NoDay::Outside)
    }
}

// The date of a midnight, and its weekday.
#[tactic(auto, using(crate::specs::Dates::small, crate::specs::Dates::given))]
pub fn given_of(midnight: u32) -> Given
    ensures { result ≡ given_of midnight }
{
    let d = calendar::date_of(midnight);
    Given {
        year: d.year as u16,
        month: d.month as u8,
        day: d.day as u8,
        weekday: ((midnight / DAY + THURSDAY) % 7) as u8,
    }
}
