// A clock of a Domintell site, and the reading of its text (crate clock_write writes it, clock_day says when it runs). It leans on words for
// quoted text, on calendar for two decimal digits, on text for two hexadecimal ones, on refusal for what a call answers.
// Document 02, W-214; source 000, section 4.5.b, type K.
#![tactic(auto)]

ghost use Rattle.std.specs.Prelude.{◌+◌, ◌≤◌, ◌≡◌, length, drop};
ghost use Rattle.refusal.specs.Answer.{said};
ghost use Rattle.clock_text.specs.Clock.{is_symbol, stands, has_form, is_text, symbol_of, number_in, byte_in, time_in, offset_in, clock_in};
ghost use Rattle.clock_text.specs.Clock.{is_time, is_none, is_offset, in_range, read_clock};

use refusal::Refusal;

// "hours reach 23, minutes and seconds 59, days 31, months 12, years mean 2000 to 2099"
const HOURS: u8 = 23;

const MINUTES: u8 = 59;

const SECONDS: u8 = 59;

const DAYS: u8 = 31;

const MONTHS: u8 = 12;

const YEARS: u8 = 99;

// A time of day, and a span of an offset.
#[derive(Clone, Copy, Debug, PartialEq, Eq)]
pub struct Time {
    pub hour: u8,
    pub minute: u8,
    pub second: u8,
}

// "an offset for astronomical clocks, which may be negative": later postpones, earlier anticipates. (Three cases: an Option of a span would need its sign
// beside it.)
#[derive(Clone, Copy, Debug, PartialEq, Eq)]
pub enum Offset {
    Absent,
    Later(Time),
    Earlier(Time),
}

// A clock: its time, the bits of its weekdays (01 is Sunday, 80 switches it off), day, month and year of its restriction, each 0 for none,
// and its offset, which an astronomical clock has.
#[derive(Clone, Copy, Debug, PartialEq, Eq)]
pub struct Clock {
    pub time: Time,
    pub weekdays: u8,
    pub day: u8,
    pub month: u8,
    pub year: u8,
    pub offset: Offset,
}

// Whether a byte is a hexadecimal digit, in capitals.
fn is_symbol(c: u8) -> bool
    ensures { result ≡ is_symbol c }
{
    matches!(c, b'0'..=b'9' | b'A'..=b'F')
}

// Whether a byte may stand where a form has this one: `0` is for digits, `F` for symbols, any other byte for itself.
#[tactic(auto, unfolding(crate::specs::Clock::stands))]
fn stands(f: u8, c: u8) -> bool
    ensures { result ≡ stands f c }
{
    match f {
        b'0' => c.is_ascii_digit(),
        b'F' => is_symbol(c),
        _ => c == f,
    }
}

// Whether a run has a form.
fn has_form(form: &[u8], s: &[u8]) -> bool
    ensures { result ≡ has_form form.now s.now }
{
    form.len() == s.len() && form.iter().zip(s).all(|(&f, &c)| stands(f, c))
}

// Whether a run is of the form of a clock's text: "an offset stands exactly where the clock is astronomical".
#[tactic(auto, unfolding(crate::specs::Clock::is_text))]
fn is_text(astronomical: bool, s: &[u8]) -> bool
    ensures { result ≡ is_text astronomical s.now }
{
    if astronomical {
        has_form(b"00:00:00 FF 00/00/00 00:00:00", s)
            || has_form(b"00:00:00 FF 00/00/00 -00:00:00", s)
    } else {
        has_form(b"00:00:00 FF 00/00/00", s)
    }
}

// What a symbol says; 0 for a byte that is none.
fn symbol(c: u8) -> u8
    ensures { (result ≡ symbol_of c) × (result ≤ 15) }
{
    match c {
        b'0'..=b'9' => c - b'0',
        b'A'..=b'F' => c - b'A' + 10,
        _ => 0,
    }
}

// What the two digits from a place on say.
#[tactic(auto, using(crate::specs::Forms::number_at))]
fn number_at(s: &[u8], i: usize) -> u8
    requires { i + 2 ≤ length s.now }
    ensures { result ≡ number_in (drop i s.now) }
{
    symbol(s[i]) * 10 + symbol(s[i + 1])
}

// What the two symbols from a place on say.
#[tactic(auto, using(crate::specs::Forms::byte_at))]
fn byte_at(s: &[u8], i: usize) -> u8
    requires { i + 2 ≤ length s.now }
    ensures { result ≡ byte_in (drop i s.now) }
{
    symbol(s[i]) * 16 + symbol(s[i + 1])
}

// The time from a place on.
#[tactic(auto, using(crate::specs::Forms::time_at))]
fn time_at(s: &[u8], i: usize) -> Time
    requires { i + 8 ≤ length s.now }
    ensures { result ≡ time_in (drop i s.now) }
{
    Time {
        hour: number_at(s, i),
        minute: number_at(s, i + 3),
        second: number_at(s, i + 6),
    }
}

// The offset of a text, by its length.
#[tactic(auto, unfolding(crate::specs::Clock::offset_in))]
fn offset_of(s: &[u8]) -> Offset
    ensures { result ≡ offset_in s.now }
{
    match s.len() {
        29 => Offset::Later(time_at(s, 21)),
        30 => Offset::Earlier(time_at(s, 22)),
        _ => Offset::Absent,
    }
}

// The clock of a text.
#[tactic(auto, unfolding(crate::specs::Clock::clock_in))]
fn clock_of(s: &[u8]) -> Clock
    requires { 20 ≤ length s.now }
    ensures { result ≡ clock_in s.now }
{
    Clock {
        time: time_at(s, 0),
        weekdays: byte_at(s, 9),
        day: number_at(s, 12),
        month: number_at(s, 15),
        year: number_at(s, 18),
        offset: offset_of(s),
    }
}

// Whether a time is in range.
fn is_time(t: Time) -> bool
    ensures { result ≡ is_time t }
{
    (t.hour <= HOURS) & (t.minute <= MINUTES) & (t.second <= SECONDS)
}

// Whether a span has no second.
fn is_none(t: Time) -> bool
    ensures { result ≡ is_none t }
{
    (t.hour == 0) & (t.minute == 0) & (t.second == 0)
}

// Whether an offset is in range: there is no -00:00:00.
fn is_offset(o: Offset) -> bool
    ensures { result ≡ is_offset o }
{
    match o {
        Offset::Absent => true,
        Offset::Later(t) => is_time(t),
        Offset::Earlier(t) => is_time(t) & !is_none(t),
    }
}

// Whether every field of a clock is in range.
#[tactic(auto, unfolding(crate::specs::Clock::in_range))]
pub fn in_range(c: Clock) -> bool
    ensures { result ≡ in_range c }
{
    is_time(c.time)
        & (c.day <= DAYS)
        & (c.month <= MONTHS)
        & (c.year <= YEARS)
        & is_offset(c.offset)
}

// What a text says as that of a clock, from its time field to its end: 21 where it is not of this form, 22 where a field is out of range.
pub fn read(astronomical: bool, s: &[u8]) -> Result<Clock, Refusal>
    ensures { said result ≡ read_clock astronomical s.now }
{
    if !is_text(astronomical, s) {
        return Err(Refusal::NotAClock);
    }
    let c = clock_of(s);
    if !in_range(c) {
        return Err(Refusal::OutOfRange);
    }
    Ok(c)
}
