// Whether a clock of a Domintell site runs on a day, and at which second from midnight. It leans on clock_text, which reads the clock, on calendar for
// the days of a month, on maps for the bits of a number. Document 02, W-214; source 000, section 4.5.b, type K.
#![tactic(auto)]

ghost use Rattle.std.specs.Prelude.{◌≤◌, ◌<◌, ◌≡◌};
ghost use Rattle.clock_day.specs.Day.{is_given, runs_on, seconds_in, second_of, day_said, on_day, runs_at};
ghost use Rattle.refusal.specs.Answer.{full, said_of};

use clock_text::{Clock, Offset, Time};
use refusal::Refusal;

// "years mean 2000 to 2099"
const FIRST_YEAR: u16 = 2000;

const LAST_YEAR: u16 = 2099;

// "its weekday (0 to 6 from Sunday, as given)"
const LAST_WEEKDAY: u8 = 6;

// A date that is given, with its weekday: no numbers are refused here.
#[derive(Clone, Copy, Debug, PartialEq, Eq)]
pub struct Given {
    pub year: u16,
    pub month: u8,
    pub day: u8,
    pub weekday: u8,
}

// Whether a date is there, in the years 2000 to 2099, and its weekday is one.
#[tactic(auto, unfolding(crate::specs::Day::is_given))]
pub fn is_given(g: Given) -> bool
    ensures { result ≡ is_given g }
{
    g.weekday <= LAST_WEEKDAY
        && (FIRST_YEAR..=LAST_YEAR).contains(&g.year)
        && 1 <= g.day
        && u32::from(g.day) <= calendar::days_in(u32::from(g.year), u32::from(g.month))
}

// Whether a clock runs on a day.
fn runs_on(c: Clock, g: Given) -> bool
    requires { g.weekday ≤ 6 }
    ensures { result ≡ runs_on c g }
{
    let on = ((c.weekdays >> 7) % 2 == 0) & ((c.weekdays >> g.weekday) % 2 == 1);
    let day = (c.day == 0) | (c.day == g.day);
    let month = (c.month == 0) | (c.month == g.month);
    let year = (c.year == 0) | (FIRST_YEAR + u16::from(c.year) == g.year);
    on & day & month & year
}

// The seconds of a time.
fn seconds_in(t: Time) -> u32
    ensures { (result ≡ seconds_in t) × (result < 1000000) }
{
    u32::from(t.hour) * 3600 + u32::from(t.minute) * 60 + u32::from(t.second)
}

// The second from midnight at which a clock runs.
fn second_of(c: Clock) -> i32
    ensures { result ≡ second_of c }
{
    let at = seconds_in(c.time) as i32;
    match c.offset {
        Offset::Absent => at,
        Offset::Later(t) => at + (seconds_in(t) as i32),
        Offset::Earlier(t) => at - (seconds_in(t) as i32),
    }
}

// What a clock does on a day.
#[tactic(auto, using(crate::specs::Days::given_weekday), unfolding(crate::specs::Day::on_day))]
fn on_day(c: Clock, g: Given) -> Result<Option<i32>, Refusal>
    ensures { said_of day_said result ≡ on_day g (full c) }
{
    if !is_given(g) {
        return Err(Refusal::OutOfRange);
    }
    Ok(runs_on(c, g).then(|| second_of(c)))
}

// The second from midnight at which the clock of a text runs on a day, which an offset may have carried below 0 or past 86,399; none where it does not
// run: 21 where the text is not of its form, 22 where a field of it, the date or the weekday is out of range.
#[tactic(auto, unfolding(crate::specs::Day::on_day))]
pub fn runs(astronomical: bool, g: Given, s: &[u8]) -> Result<Option<i32>, Refusal>
    ensures { said_of day_said result ≡ runs_at astronomical g s.now }
{
    on_day(clock_text::read(astronomical, s)?, g)
}
