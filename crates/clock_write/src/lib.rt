// A clock of a Domintell site written back as its text (crate clock_text reads it). It leans on frame for what a writer answers, on lent for
// what is put into a lent buffer, on text for hexadecimal digits, on calendar for decimal ones. Document 02, W-214.
#![tactic(auto)]

ghost use Rattle.std.specs.Prelude.{◌+◌, ◌≤◌, ◌≡◌, length};
ghost use Rattle.lent.specs.Puts.{Puts};
ghost use Rattle.frame.specs.Written.{Written};
ghost use Rattle.calendar.specs.Calendar.{figure};
ghost use Rattle.clock_text.specs.Clock.{three, time_text, days_text, date_text, offset_text};
ghost use Rattle.clock_write.specs.Writing.{write_clock};

use clock_text::{Clock, Offset, Time};
use refusal::Refusal;

// The last decimal digit of a number. (Crate calendar has it for its numbers of 32 bits: one line in each is plainer than a generic function.)
fn figure(n: u8) -> u8
    ensures { result ≡ figure n }
{
    b'0' + n % 10
}

// Puts three numbers, two digits each, with a byte between two of them.
fn put_three(out: &mut [u8], at: usize, parting: u8, x: u8, y: u8, z: u8) -> usize
    ensures { Puts (three parting x y z) out.old at result out.new }
{
    let text: [u8; 8] = [
        figure(x / 10),
        figure(x),
        parting,
        figure(y / 10),
        figure(y),
        parting,
        figure(z / 10),
        figure(z),
    ];
    lent::word(out, at, &text)
}

// Puts a time as `20:38:49`.
fn put_time(out: &mut [u8], at: usize, t: Time) -> usize
    ensures { Puts (time_text t) out.old at result out.new }
{
    put_three(out, at, b':', t.hour, t.minute, t.second)
}

// Puts the weekdays, with a blank on both sides.
fn put_days(out: &mut [u8], at: usize, weekdays: u8) -> usize
    ensures { Puts (days_text weekdays) out.old at result out.new }
{
    let text: [u8; 4] = [
        b' ',
        text::high_digit(weekdays),
        text::low_digit(weekdays),
        b' ',
    ];
    lent::word(out, at, &text)
}

// Puts the restriction of a clock as `01/12/26`.
fn put_date(out: &mut [u8], at: usize, c: Clock) -> usize
    ensures { Puts (date_text c) out.old at result out.new }
{
    put_three(out, at, b'/', c.day, c.month, c.year)
}

// How many bytes the text of an offset has.
fn offset_length(o: Offset) -> usize
    ensures { result ≡ length (offset_text o) }
{
    match o {
        Offset::Absent => 0,
        Offset::Later(_) => 9,
        Offset::Earlier(_) => 10,
    }
}

// Puts an offset, which has room.
fn put_offset(out: &mut [u8], at: usize, o: Offset) -> usize
    requires { at + length (offset_text o) ≤ length out.old }
    ensures { Puts (offset_text o) out.old at result out.new }
{
    match o {
        Offset::Absent => at,
        Offset::Later(t) => {
            let e = lent::word(out, at, b" ");
            put_time(out, e, t)
        }
        Offset::Earlier(t) => {
            let e = lent::word(out, at, b" -");
            put_time(out, e, t)
        }
    }
}

// Writes a clock as its text: 22 where a field is out of range, 8 where the buffer is shorter than the text.
pub fn write(c: Clock, out: &mut [u8]) -> Result<usize, Refusal>
    ensures { Written (write_clock c) out.old result out.new }
{
    if !clock_text::in_range(c) {
        return Err(Refusal::OutOfRange);
    }
    if out.len() < 20 + offset_length(c.offset) {
        return Err(Refusal::NoRoom);
    }
    let days = put_time(out, 0, c.time);
    let date = put_days(out, days, c.weekdays);
    let behind = put_date(out, date, c);
    Ok(put_offset(out, behind, c.offset))
}
