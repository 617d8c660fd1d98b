// Clocks of Domintell sites as programs in C have them: the structs that crate wickanchor takes and hands over, laid out as C does, and what turns the
// answers of crates clock_text and clock_day into them, and a clock back, which crate clock_write writes. A refusal is its number by document 02, 0 stands for
// none, and every other field of a refused call is 0: a number beside a value stays in these structs, since include/wickanchor.h lays them out so. Each
// contract is an equation over what the answer says. Document 02, W-214.
#![tactic(auto)]

ghost use Rattle.std.specs.Prelude.{◌≡◌};
ghost use Rattle.refusal.specs.Answer.{said, said_of};
ghost use Rattle.clock_day.specs.Day.{day_said};
ghost use Rattle.c_clock.specs.Clocks.{offset_no, offset_by, clock_out, read_out, offset_in, clock_in, not_running, runs_out};

use clock_text::{Clock, Offset, Time};
use refusal::Refusal;

// A clock: its time, the bits of its weekdays, day, month and year of its restriction, each 0 for none, and its offset, 0 is none, 1 later, 2 earlier, with
// its span, 0 where there is none.
#[repr(C)]
#[derive(Clone, Copy)]
pub struct WickClock {
    pub hour: u8,
    pub minute: u8,
    pub second: u8,
    pub weekdays: u8,
    pub day: u8,
    pub month: u8,
    pub year: u8,
    pub offset: u8,
    pub offset_hour: u8,
    pub offset_minute: u8,
    pub offset_second: u8,
}

// What reading a clock's text gives.
#[repr(C)]
#[derive(Clone, Copy)]
pub struct WickClockRead {
    pub refusal: u8,
    pub clock: WickClock,
}

// Whether a clock runs on a day, and at which second from midnight, 0 where it does not.
#[repr(C)]
#[derive(Clone, Copy)]
pub struct WickClockRuns {
    pub refusal: u8,
    pub runs: u8,
    pub second: i32,
}

// The number of an offset, and its span, of no second where there is none.
fn offset_no(o: Offset) -> u8
    ensures { result ≡ offset_no o }
{
    match o {
        Offset::Absent => 0,
        Offset::Later(_) => 1,
        Offset::Earlier(_) => 2,
    }
}

fn offset_by(o: Offset) -> Time
    ensures { result ≡ offset_by o }
{
    match o {
        Offset::Absent => Time {
            hour: 0,
            minute: 0,
            second: 0,
        },
        Offset::Later(t) | Offset::Earlier(t) => t,
    }
}

// A clock of crate clock_text.
fn clock_out(c: Clock) -> WickClock
    ensures { result ≡ clock_out c }
{
    let by = offset_by(c.offset);
    WickClock {
        hour: c.time.hour,
        minute: c.time.minute,
        second: c.time.second,
        weekdays: c.weekdays,
        day: c.day,
        month: c.month,
        year: c.year,
        offset: offset_no(c.offset),
        offset_hour: by.hour,
        offset_minute: by.minute,
        offset_second: by.second,
    }
}

// What reading a clock's text answers.
pub fn read_out(r: Result<Clock, Refusal>) -> WickClockRead
    ensures { result ≡ read_out (said r) }
{
    match r {
        Ok(c) => WickClockRead {
            refusal: 0,
            clock: clock_out(c),
        },
        Err(k) => WickClockRead {
            refusal: k.number(),
            clock: WickClock {
                hour: 0,
                minute: 0,
                second: 0,
                weekdays: 0,
                day: 0,
                month: 0,
                year: 0,
                offset: 0,
                offset_hour: 0,
                offset_minute: 0,
                offset_second: 0,
            },
        },
    }
}

// An offset by its number and its span: 0 is none, 1 later, every other number earlier.
fn offset_in(n: u8, by: Time) -> Offset
    ensures { result ≡ offset_in n by }
{
    match n {
        0 => Offset::Absent,
        1 => Offset::Later(by),
        _ => Offset::Earlier(by),
    }
}

// A clock back.
pub fn clock_in(w: WickClock) -> Clock
    ensures { result ≡ clock_in w }
{
    let by = Time {
        hour: w.offset_hour,
        minute: w.offset_minute,
        second: w.offset_second,
    };
    Clock {
        time: Time {
            hour: w.hour,
            minute: w.minute,
            second: w.second,
        },
        weekdays: w.weekdays,
        day: w.day,
        month: w.month,
        year: w.year,
        offset: offset_in(w.offset, by),
    }
}

// A clock that does not run, or a refusal.
fn not_running(refusal: u8) -> WickClockRuns
    ensures { result ≡ not_running refusal }
{
    WickClockRuns {
        refusal,
        runs: 0,
        second: 0,
    }
}

// What a clock does on a day.
pub fn runs_out(r: Result<Option<i32>, Refusal>) -> WickClockRuns
    ensures { result ≡ runs_out (said_of day_said r) }
{
    match r {
        Ok(Some(second)) => WickClockRuns {
            refusal: 0,
            runs: 1,
            second,
        },
        Ok(None) => not_running(0),
        Err(k) => not_running(k.number()),
    }
}
