// Says of the clocks of a Domintell site whether each of them runs on a day, and when: docs/CLOCK.md. It reads its argument and standard input, and
// prints what crate clock_rows puts of each line; crate clock_asked reads the date.
#![tactic(auto)]

ghost use Rattle.std.specs.Prelude.{◌≤◌, ◌≡◌, ◌+◌, length, IfOk};

use clock_asked::NoDay;
use std::env::FillError;
use std::io;
use std::io::Read;
use std::rt::Env;

// The most bytes of the input, and the room to read it in: one byte more tells that it is longer.
const MOST: usize = 1048576;

const SPACE: usize = MOST + 1;

// The room for rows that are not written yet, and its last place from which on a row has room.
const ROOM: usize = 4096;

const LAST: usize = ROOM - clock_rows::ROW;

// The most bytes of an argument: as many as a path has.
const WORD: usize = 4095;

// Why there is no input.
#[derive(Clone, Copy, Debug, PartialEq, Eq)]
enum NoInput {
    Failed,
    Long,
}

// The room to read the input in. (That so many zeros have this length is said here once; their number is too great to be counted out in each proof.)
fn space() -> [u8; SPACE]
    ensures { 1048577 ≡ length result }
{
    [0; SPACE]
}

// A line on standard error that ends in a word of the command line.
fn complain(rt: &HostRuntime, what: &[u8], word: &[u8]) {
    let err = rt.stderr();
    let _ = err.write_all(b"clock: ");
    let _ = err.write_all(what);
    let _ = err.write_all(word);
    let _ = err.write_all(b"\n");
}

fn help(rt: &impl Eprint) {
    let _ = rt.eprint(
        "Usage: clock DATE\n\
\n\
Says of the clocks of a Domintell site whether each of them runs on a day, and\n\
when. Reads the clocks from standard input, a line for each, and prints a row for\n\
each as comma-separated values: its line, what it does, the second of the day, the\n\
date and time of that second, and the clock.\n\
\n\
\x20 DATE    the day, 2000-01-01 to 2099-12-31\n\
\x20 --help  prints this\n\
\n\
A clock is HH:MM:SS WD DD/MM/YY: its time, its weekdays as two hexadecimal digits\n\
in capitals (01 is Sunday, 40 Saturday, and 80 switches it off), and the day, month\n\
and year to which it is restricted, 00 for none. An astronomical clock has its\n\
offset behind that, HH:MM:SS or -HH:MM:SS. Empty lines are passed over.\n\
Example: clock 2026-03-02 < site.clocks\n",
    );
}

// Prints the header and the rows. Rows are written when no other has room behind them, before something is told of a line, and at the end.
fn print(rt: &HostRuntime, midnight: u32, text: &[u8]) -> io::Result<()> {
    let mut out = [0u8; ROOM];
    let mut err = [0u8; clock_told::TOLD];
    let mut at = clock_rows::header(&mut out, 0);
    let mut i: usize = 0;
    let mut n: u64 = 1;
    // A turn steps over a line, however long it is.
    while i < text.len() {
        let t = clock_rows::turn(midnight, text, i, n, &mut out, at, &mut err);
        i = t.next;
        n += 1;
        at = t.at;
        if 0 < t.told || LAST < at {
            rt.write_all(&out[..at])?;
            at = 0;
            let _ = rt.stderr().write_all(&err[..t.told]);
        }
    }
    rt.write_all(&out[..at])
}

// Reads once behind what was read.
fn read_behind(input: &mut impl Read, buf: &mut [u8], n: usize) -> io::Result<usize>
    requires { n ≤ length buf.old }
    ensures { IfOk result (λ k. n + k ≤ length buf.new) }
{
    input.read(&mut buf[n..])
}

// Reads standard input to its end, or until there is no room. (The loop has to count: nothing says that input ends.)
fn read_all(input: &mut impl Read, buf: &mut [u8]) -> Result<usize, NoInput>
    ensures { IfOk result (λ n. n ≤ length buf.new) }
{
    let mut n: usize = 0;
    for _ in 0..u64::MAX {
        if buf.len() <= n {
            return Err(NoInput::Long);
        }
        let Ok(k) = read_behind(input, buf, n) else {
            return Err(NoInput::Failed);
        };
        if k == 0 {
            return Ok(n);
        }
        n += k;
    }
    Err(NoInput::Long)
}

// The input read, and the rows printed.
fn rows(rt: &HostRuntime, midnight: u32) {
    let mut buf = space();
    match read_all(&mut rt.stdin(), &mut buf) {
        Ok(n) => {
            if print(rt, midnight, &buf[..n]).is_err() {
                complain(rt, b"writing standard output failed", b"");
            }
        }
        Err(NoInput::Failed) => complain(rt, b"reading standard input failed", b""),
        Err(NoInput::Long) => complain(rt, b"standard input has more than 1048576 bytes", b""),
    }
}

// The day that the argument says, and its rows.
fn day(rt: &HostRuntime, word: &[u8]) {
    match clock_asked::day_of(word) {
        Ok(midnight) => rows(rt, midnight),
        Err(NoDay::NotADate) => complain(rt, b"DATE is not a date as in 2026-03-02: ", word),
        Err(NoDay::NoSuchDate) => complain(rt, b"DATE is a date that does not exist: ", word),
        Err(NoDay::Outside) => complain(
            rt,
            b"DATE is a date before 2000-01-01 or behind 2099-12-31: ",
            word,
        ),
    }
}

// Whether the command line has an argument of this number, where 0 is the program's own name.
fn has_argument(rt: &impl Env, i: usize) -> bool {
    !matches!(rt.arg(i, &mut []), Err(FillError::NotPresent))
}

fn main(rt: HostRuntime) {
    if !has_argument(&rt, 1) {
        help(&rt);
        return;
    }
    let mut word = [0u8; WORD];
    let got = rt.arg(1, &mut word);
    let long = got.is_err();
    let n = got.unwrap_or(0);
    if options::same(&word[..n], b"--help") {
        help(&rt);
        return;
    }
    if options::is_option(&word[..n]) {
        complain(&rt, b"no such option: ", &word[..n]);
        return;
    }
    if has_argument(&rt, 2) {
        complain(
            &rt,
            b"1 argument is wanted, a date as in 2026-03-02; clock --help says more",
            b"",
        );
        return;
    }
    if long {
        complain(&rt, b"the argument is too long", b"");
        return;
    }
    day(&rt, &word[..n]);
}
