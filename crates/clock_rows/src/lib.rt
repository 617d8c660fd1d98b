// The rows of the program clock: one turn of it, which puts the row of a line into a lent buffer and says where the next line begins. It leans on
// clock_day for what a clock does on a day, on clock_asked for the day, on clock_told for a line that is refused, on signed, calendar, text and lent for
// what is put, on words for the end of a line, on plan_wanted for the lines of a text, on clocks for where a second lies, on refusal for the words of a test. docs/CLOCK.md, "Lines" and
// "The rows".
#![tactic(auto)]

ghost use Rattle.std.specs.Prelude.{◌≤◌, ◌≡◌, length};
ghost use Rattle.lent.specs.Puts.{Puts};
ghost use Rattle.lent.specs.All.{PutsAll};
ghost use Rattle.refusal.specs.Answer.{said_of};
ghost use Rattle.clock_day.specs.Day.{day_said};
ghost use Rattle.clock_rows.specs.Rows.{length_of, answered, header_text, second_at, runs_texts, clock_texts, answer_texts, Put, Turned};
ghost use Rattle.clock_rows.specs.Times.{Near};

use refusal::Refusal;

// The most bytes of a row.
pub const ROW: usize = 128;

// The most bytes of a clock that is not astronomical.
const SHORT: usize = 20;

// What a turn answers: where the next line begins, the place behind the row, how many bytes are to go to standard error.
#[derive(Clone, Copy, Debug, PartialEq, Eq)]
pub struct Step {
    pub next: usize,
    pub at: usize,
    pub told: usize,
}

// The bytes of a line without the carriage return at its end.
fn length_of(l: &[u8]) -> usize
    ensures { (result ≡ length_of l.now) × (result ≤ length l.now) }
{
    let n = l.len();
    if n != 0 && l[n - 1] == b'\r' {
        n - 1
    } else {
        n
    }
}

// Puts the header.
pub fn header(out: &mut [u8], at: usize) -> usize
    ensures { Puts header_text out.old at result out.new }
{
    lent::word(out, at, b"line,answer,second,at,clock\n")
}

// A second of the day as one since 1970.
fn second_at(midnight: u32, z: i32) -> u32
    requires { Near midnight z }
    ensures { result ≡ second_at midnight z }
{
    (i64::from(midnight) + i64::from(z)) as u32
}

// Puts that a clock runs, at which second, and the time of it.
fn runs(out: &mut [u8], at: usize, midnight: u32, z: i32) -> usize
    requires { Near midnight z }
    ensures { PutsAll (runs_texts midnight z) out.old at result out.new }
{
    let a = lent::word(out, at, b"runs,");
    let b = signed::decimal(out, a, z);
    let c = lent::word(out, b, b",");
    let d = calendar::put_time(out, c, second_at(midnight, z));
    lent::word(out, d, b",")
}

// Puts a line that is a clock.
fn clock(out: &mut [u8], at: usize, line: &[u8]) -> usize
    ensures { PutsAll (clock_texts line.now) out.old at result out.new }
{
    let a = lent::word(out, at, line);
    lent::word(out, a, b"\n")
}

// Puts what a line's clock does, behind the line's number.
fn answer(
    out: &mut [u8],
    at: usize,
    midnight: u32,
    run: Result<Option<i32>, Refusal>,
    line: &[u8],
) -> usize
    requires { said_of day_said run ≡ answered midnight line.now }
    ensures { PutsAll (answer_texts midnight line.now (said_of day_said run)) out.old at result out.new }
{
    match run {
        Ok(Some(z)) => {
            let a = runs(out, at, midnight, z);
            clock(out, a, line)
        }
        Ok(None) => {
            let a = lent::word(out, at, b"idle,,,");
            clock(out, a, line)
        }
        Err(k) => {
            let a = clock_told::refusal(out, at, k);
            lent::word(out, a, b",,,\n")
        }
    }
}

// Puts the row of a line, and what is told of it; nothing where it is passed over.
fn line(
    midnight: u32,
    l: &[u8],
    next: usize,
    n: u64,
    out: &mut [u8],
    at: usize,
    err: &mut [u8],
) -> Step
    ensures { Put midnight l.now next n out.old at err.old result out.new err.new }
{
    if l.is_empty() {
        return Step { next, at, told: 0 };
    }
    let g = clock_asked::given_of(midnight);
    let run = clock_day::runs(SHORT < l.len(), g, l);
    let a = text::decimal(out, at, n);
    let b = lent::word(out, a, b",");
    let c = answer(out, b, midnight, run, l);
    Step {
        next,
        at: c,
        told: clock_told::told(err, n, run),
    }
}

// One turn: puts the row of the line that begins at a place of a text and has this number, behind what stands in a buffer, and at the start of another what
// is told of it. Where the text has ended there is no line.
pub fn turn(
    midnight: u32,
    text: &[u8],
    from: usize,
    n: u64,
    out: &mut [u8],
    at: usize,
    err: &mut [u8],
) -> Step
    ensures { Turned midnight text.now from n out.old at err.old result out.new err.new }
{
    if text.len() <= from {
        return Step {
            next: from,
            at,
            told: 0,
        };
    }
    let e = words::until(text, from, b'\n');
    let k = length_of(&text[from..e]);
    line(midnight, &text[from..from + k], e + 1, n, out, at, err)
}
