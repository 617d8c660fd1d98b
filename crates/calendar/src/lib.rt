// Days of the Gregorian calendar and seconds since 1970, UTC: the midnight of a date, the date of a second, and a second as text. It leans
// on lent for what is put into a lent buffer, on refusal for the words of a test. docs/SHEET.md, "Arguments" and "`--text`".
#![tactic(auto)]

ghost use Rattle.std.specs.Prelude.{◌≤◌, ◌≡◌};
ghost use Rattle.lent.specs.Puts.{Puts};
ghost use Rattle.calendar.specs.Calendar.{is_leap, days_of, days_in, midnight_of, date_in, date_of, figure, time_text};
ghost use Rattle.calendar.specs.Calendar.{days_of_years, days_of_months};

const FIRST_YEAR: u32 = 1970;

// The year in which the seconds of 32 bits end.
const LAST_YEAR: u32 = 2106;

// The seconds of a day.
const DAY: u32 = 86400;

// The last day, counted from 0, whose midnight is a number of 32 bits: 2106-02-07.
const LAST_DAY: u32 = 49710;

// How many days each month has, from 1 on; February in a common year.
const DAYS: [u32; 13] = [0, 31, 28, 31, 30, 31, 30, 31, 31, 30, 31, 30, 31];

// A year, a month from 1 on, a day from 1 on: no number of them is refused.
#[derive(Clone, Copy, Debug, PartialEq, Eq)]
pub struct Date {
    pub year: u32,
    pub month: u32,
    pub day: u32,
}

// Why a date has no midnight in seconds since 1970: the calendar lacks the date, or its midnight is no number of 32 bits.
#[derive(Clone, Copy, Debug, PartialEq, Eq)]
pub enum NoMidnight {
    NoSuchDate,
    Outside,
}

#[tactic(auto, unfolding(crate::specs::Calendar::is_leap))]
fn is_leap(year: u32) -> bool
    ensures { result ≡ is_leap year }
{
    year % 4 == 0 && (year % 100 != 0 || year % 400 == 0)
}

// How many days a year has.
#[tactic(auto, using(crate::specs::Lengths::year_leap, crate::specs::Lengths::year_common))]
fn days_of(year: u32) -> u32
    ensures { result ≡ days_of year }
{
    if is_leap(year) { 366 } else { 365 }
}

// How many days a month has: none where there is no such month.
pub fn days_in(year: u32, month: u32) -> u32
    ensures { result ≡ days_in year month }
{
    if month == 2 {
        return if is_leap(year) { 29 } else { 28 };
    }
    if 12 < month {
        return 0;
    }
    DAYS[month as usize]
}

// The days of the years from 1970 on that lie before a year.
fn days_of_years(year: u32) -> u32
    requires { (1970 ≤ year) × (year ≤ 2106) }
    ensures { result ≡ days_of_years year }
{
    let mut total: u32 = 0;
    for y in FIRST_YEAR..year {
        total += days_of(y);
    }
    total
}

// The days of the months that lie before a month of a year.
fn days_of_months(year: u32, month: u32) -> u32
    requires { (1 ≤ month) × (month ≤ 12) }
    ensures { result ≡ days_of_months year month }
{
    let mut total: u32 = 0;
    for m in 1..month {
        total += days_in(year, m);
    }
    total
}

// The midnight with which a date begins, in seconds since 1970.
pub fn midnight_of(d: Date) -> Result<u32, NoMidnight>
    ensures { result ≡ midnight_of d }
{
    if d.day == 0 || days_in(d.year, d.month) < d.day {
        return Err(NoMidnight::NoSuchDate);
    }
    if d.year < FIRST_YEAR || LAST_YEAR < d.year {
        return Err(NoMidnight::Outside);
    }
    let days = days_of_years(d.year) + days_of_months(d.year, d.month) + (d.day - 1);
    if LAST_DAY < days {
        return Err(NoMidnight::Outside);
    }
    Ok(days * DAY)
}

// The date that lies so many days behind the first of January of a year.
fn date_in(year: u32, days: u32) -> Date
    requires { days ≤ 49710 }
    ensures { result ≡ date_in year days }
{
    let mut left = days;
    for month in 1..13 {
        let its = days_in(year, month);
        if left < its {
            return Date {
                year,
                month,
                day: left + 1,
            };
        }
        left -= its;
    }
    Date {
        year,
        month: 13,
        day: left + 1,
    }
}

// The date in which a second since 1970 lies.
pub fn date_of(seconds: u32) -> Date
    ensures { result ≡ date_of seconds }
{
    let mut left = seconds / DAY;
    for y in FIRST_YEAR..LAST_YEAR {
        let whole = days_of(y);
        if left < whole {
            return date_in(y, left);
        }
        left -= whole;
    }
    date_in(LAST_YEAR, left)
}

// The last decimal digit of a number.
fn figure(n: u32) -> u8
    ensures { result ≡ figure n }
{
    b'0' + (n % 10) as u8
}

// Puts a second since 1970 as `2026-03-01 00:00:00`.
pub fn put_time(out: &mut [u8], at: usize, seconds: u32) -> usize
    ensures { Puts (time_text seconds) out.old at result out.new }
{
    let d = date_of(seconds);
    let text: [u8; 19] = [
        figure(d.year / 1000),
        figure(d.year / 100),
        figure(d.year / 10),
        figure(d.year),
        b'-',
        figure(d.month / 10),
        figure(d.month),
        b'-',
        figure(d.day / 10),
        figure(d.day),
        b' ',
        figure(seconds / 3600 % 24 / 10),
        figure(seconds / 3600 % 24),
        b':',
        figure(seconds / 60 % 60 / 10),
        figure(seconds / 60 % 60),
        b':',
        figure(seconds % 60 / 10),
        figure(seconds % 60),
    ];
    lent::word(out, at, &text)
}
