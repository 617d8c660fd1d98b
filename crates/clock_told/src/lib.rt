// A line that the program clock refuses: what its row says, and what is told of it on standard error. It leans on clock_day for what a clock's text is
// answered, on lent, text and words for what is put, on refusal for the words of a test. docs/CLOCK.md, "The rows" and "Lines on standard error".
#![tactic(auto)]

ghost use Rattle.lent.specs.Puts.{Puts};
ghost use Rattle.lent.specs.All.{PutsAll};
ghost use Rattle.clock_day.specs.Day.{day_said};
ghost use Rattle.refusal.specs.Answer.{said_of};
ghost use Rattle.refusal.specs.Refusals.{number_of};
ghost use Rattle.clock_told.specs.Told.{refusal_text, reason_text, refused_texts};

use refusal::Refusal;

// The most bytes of what is told of a line.
pub const TOLD: usize = 256;

// Puts a refusal's number and its name.
pub fn refusal(out: &mut [u8], at: usize, k: Refusal) -> usize
    ensures { Puts (refusal_text (number_of k)) out.old at result out.new }
{
    match k {
        Refusal::NotAClock => lent::word(out, at, b"21 NOT_A_CLOCK"),
        _ => lent::word(out, at, b"22 OUT_OF_RANGE"),
    }
}

// Puts what it says.
fn reason(out: &mut [u8], at: usize, k: Refusal) -> usize
    ensures { Puts (reason_text (number_of k)) out.old at result out.new }
{
    match k {
        Refusal::NotAClock => lent::word(
            out,
            at,
            b": a clock is HH:MM:SS WD DD/MM/YY, WD in capitals, and where it is astronomical behind a blank HH:MM:SS or -HH:MM:SS",
        ),
        _ => lent::word(
            out,
            at,
            b": hours reach 23, minutes and seconds 59, days 31 and months 12, and no offset is -00:00:00",
        ),
    }
}

// Puts what is told of a line that is refused, at the start of a buffer.
pub fn told(err: &mut [u8], n: u64, run: Result<Option<i32>, Refusal>) -> usize
    ensures { PutsAll (refused_texts n (said_of day_said run)) err.old 0 result err.new }
{
    let Err(k) = run else {
        return 0;
    };
    let a = lent::word(err, 0, b"clock: line ");
    let b = text::decimal(err, a, n);
    let c = lent::word(err, b, b": ");
    let d = refusal(err, c, k);
    let e = reason(err, d, k);
    lent::word(err, e, b"\n")
}
