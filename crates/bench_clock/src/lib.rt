// Clocks of Domintell sites on the bench: what is handed in, and what is answered. docs/BENCH.md, "Clocks". It leans on crate bench_words, which takes
// bytes apart, on crates lent, text and signed, which put the texts, and on crates clock_text and clock_day for what is said.
#![tactic(auto)]

ghost use Rattle.std.specs.Prelude.{◌≡◌, [], ◌∷◌};
ghost use Rattle.text.specs.Text.{decimal_of};
ghost use Rattle.lent.specs.All.{PutsAll};
ghost use Rattle.clock_text.specs.Clock.{read_clock};
ghost use Rattle.clock_day.specs.Day.{runs_at};
ghost use Rattle.bench_clock.specs.Given.{flag_in, given_in, offset_by, clock_in};
ghost use Rattle.bench_clock.specs.Told.{time_texts, offset_texts, days_texts, clock_texts, day_texts};

use clock_day::Given;
use clock_text::{Clock, Offset, Time};

// Whether the clock is astronomical: 00 is no, every other byte is yes.
fn flag_in(s: &[u8]) -> bool
    ensures { result ≡ flag_in s.now }
{
    bench_words::byte_at(s, 0) != 0
}

// The date and the weekday that are handed in behind the flag.
fn given_in(s: &[u8]) -> Given
    ensures { result ≡ given_in s.now }
{
    Given {
        year: bench_words::wide16(bench_words::part(s, 1, 3)),
        month: bench_words::byte_at(s, 3),
        day: bench_words::byte_at(s, 4),
        weekday: bench_words::byte_at(s, 5),
    }
}

// The offset of a kind: 00 is none, 01 later, every other byte earlier.
fn offset_by(kind: u8, t: Time) -> Offset
    ensures { result ≡ offset_by kind t }
{
    match kind {
        0 => Offset::Absent,
        1 => Offset::Later(t),
        _ => Offset::Earlier(t),
    }
}

// The clock that is handed in to be written.
pub fn clock_in(s: &[u8]) -> Clock
    ensures { result ≡ clock_in s.now }
{
    let time = Time {
        hour: bench_words::byte_at(s, 0),
        minute: bench_words::byte_at(s, 1),
        second: bench_words::byte_at(s, 2),
    };
    let span = Time {
        hour: bench_words::byte_at(s, 8),
        minute: bench_words::byte_at(s, 9),
        second: bench_words::byte_at(s, 10),
    };
    Clock {
        time,
        weekdays: bench_words::byte_at(s, 3),
        day: bench_words::byte_at(s, 4),
        month: bench_words::byte_at(s, 5),
        year: bench_words::byte_at(s, 6),
        offset: offset_by(bench_words::byte_at(s, 7), span),
    }
}

// Hour, minute and second.
fn time(out: &mut [u8], at: usize, t: Time) -> usize
    ensures { PutsAll (time_texts t) out.old at result out.new }
{
    let e = text::decimal(out, at, u64::from(t.hour));
    let f = lent::byte(out, e, b' ');
    let g = text::decimal(out, f, u64::from(t.minute));
    let h = lent::byte(out, g, b' ');
    text::decimal(out, h, u64::from(t.second))
}

// An offset, or that there is none.
fn offset(out: &mut [u8], at: usize, o: Offset) -> usize
    ensures { PutsAll (offset_texts o) out.old at result out.new }
{
    match o {
        Offset::Absent => lent::word(out, at, b" offset absent"),
        Offset::Later(t) => {
            let e = lent::word(out, at, b" offset later ");
            time(out, e, t)
        }
        Offset::Earlier(t) => {
            let e = lent::word(out, at, b" offset earlier ");
            time(out, e, t)
        }
    }
}

// A number behind its name.
fn number(out: &mut [u8], at: usize, name: &[u8], n: u8) -> usize
    ensures { PutsAll (name.now ∷ decimal_of n ∷ []) out.old at result out.new }
{
    let e = lent::word(out, at, name);
    text::decimal(out, e, u64::from(n))
}

// The weekdays, day, month and year of a clock.
fn days(out: &mut [u8], at: usize, c: Clock) -> usize
    ensures { PutsAll (days_texts c) out.old at result out.new }
{
    let e = lent::word(out, at, b" weekdays ");
    let f = text::hex(out, e, c.weekdays);
    let g = number(out, f, b" day ", c.day);
    let h = number(out, g, b" month ", c.month);
    number(out, h, b" year ", c.year)
}

// The call `clock`, of a flag and a text: the fields of the clock, or the refusal.
pub fn clock(out: &mut [u8], at: usize, s: &[u8], t: &[u8]) -> usize
    ensures { PutsAll (clock_texts (read_clock (flag_in s.now) t.now)) out.old at result out.new }
{
    match clock_text::read(flag_in(s), t) {
        Err(k) => text::decimal(out, at, u64::from(k.number())),
        Ok(c) => {
            let e = lent::word(out, at, b"0 time ");
            let f = time(out, e, c.time);
            let g = days(out, f, c);
            offset(out, g, c.offset)
        }
    }
}

// The call `clock_runs`, of a flag, a day and a text: the second at which the clock runs, or that it does not, or the refusal.
pub fn clock_runs(out: &mut [u8], at: usize, s: &[u8], t: &[u8]) -> usize
    ensures { PutsAll (day_texts (runs_at (flag_in s.now) (given_in s.now) t.now)) out.old at result out.new }
{
    match clock_day::runs(flag_in(s), given_in(s), t) {
        Err(k) => text::decimal(out, at, u64::from(k.number())),
        Ok(None) => lent::word(out, at, b"0 idle"),
        Ok(Some(z)) => {
            let e = lent::word(out, at, b"0 second ");
            signed::decimal(out, e, z)
        }
    }
}
