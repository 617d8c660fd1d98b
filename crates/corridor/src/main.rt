// Prints the sheet of one corridor through four seasons, of a capture in a file or on standard input: docs/SHEET.md. It reads its arguments,
// opens the file, reads it part by part, goes by the answers of by_parts::turn, and prints what crates sheet, sheet_text, sheet_svg and
// sheet_told put: what any program reports that goes so is `run_reports` of by_parts' specs/Run. Its memory does not grow with the capture.
#![tactic(auto)]

ghost use Rattle.std.specs.Prelude.{◌≤◌, length};

use asked::NoBoundary;
use by_parts::{SoFar, Turned};
use event::Mac;
use options::Asked;
use refusal::Refusal;
use season::{Boundaries, Corridor, Season};
use std::env::FillError;
use std::fs::File;
use std::io;
use std::io::{Read, Write};
use std::rt::Env;

// How many arguments there are behind the program's own name: the file, MAC, target, instance, and three boundaries.
const WORDS: usize = 7;

// The most bytes that one read gives, the room for a sheet, and how many bytes are read from one line that tells of it to the next.
const PART: usize = 65536;

const ROOM: usize = 32768;

const LINE: usize = 512;

const TELLS: u64 = 67108864;

// The most bytes of an argument: as many as a path has.
const WORD: usize = 4095;

// The room for what the system says of an error, and the error's number behind it: twice what the longest such text takes.
const SAID: usize = 128;

// The system's number for bytes that are no text.
const NO_TEXT: i32 = 84;

// The greatest target and instance.
const TARGET: u32 = u32::MAX;

const INSTANCE: u32 = 255;

// The form of the sheet.
#[derive(Clone, Copy)]
enum Form {
    Csv,
    Text,
    Svg,
}

// A line on standard error that ends in a word of the command line.
fn complain(rt: &HostRuntime, what: &[u8], word: &[u8]) {
    complain_of(rt, b"", what, word);
}

// One that ends in the name of an argument and what is wrong with it, and in the word.
fn complain_of(rt: &HostRuntime, name: &[u8], what: &[u8], word: &[u8]) {
    let err = rt.stderr();
    let _ = err.write_all(b"corridor: ");
    let _ = err.write_all(name);
    let _ = err.write_all(what);
    let _ = err.write_all(word);
    let _ = err.write_all(b"\n");
}

// What std says of an error, and zeros behind it: the system's text, and in brackets the error's number.
fn text_of(e: &io::Error) -> [u8; SAID] {
    let mut text = [0u8; SAID];
    let mut rest: &mut [u8] = &mut text;
    let _ = write!(rest, "{e}");
    text
}

// How many bytes the system's text has there: in none of them stands a bracket.
fn said(text: &[u8]) -> usize
    ensures { result ≤ length text.now }
{
    let end = words::until(text, 0, 0);
    let n = words::until(text, 0, b'(');
    if n < end && 0 < n { n - 1 } else { end }
}

// One that tells of a file what the system says of an error.
fn fail(rt: &HostRuntime, what: &[u8], word: &[u8], e: &io::Error) {
    let text = text_of(e);
    let n = said(&text);
    let err = rt.stderr();
    let _ = err.write_all(what);
    let _ = err.write_all(word);
    let _ = err.write_all(b": ");
    let _ = err.write_all(&text[..n]);
    let _ = err.write_all(b"\n");
}

fn help(rt: &impl Eprint) {
    let _ = rt.eprint(
        "Usage: corridor [--text | --svg] FILE MAC TARGET INSTANCE FIRST SECOND THIRD\n\
\n\
Reports the occupied events, button presses and holds of one corridor in a capture,\n\
and the gaps between its occupied events, in four seasons. Prints CSV.\n\
\n\
\x20 FILE      the capture, or - for standard input\n\
\x20 MAC       its controller: six bytes in hexadecimal, as 7C:BA:CC:2F:40:2E\n\
\x20 TARGET    the target of its events, 0 to 4294967295\n\
\x20 INSTANCE  their instance, 0 to 255\n\
\x20 FIRST, SECOND, THIRD\n\
\x20           where the second, the third and the fourth season begin: a date, as\n\
\x20           2026-03-01, at midnight UTC; or seconds since 1970\n\
\x20 --text    prints a page to read, with dates, mean gaps and bars\n\
\x20 --svg     prints a picture\n\
\x20 --help    prints this\n\
\n\
Without a sheet on standard output, a line on standard error tells why, and for a\n\
bad capture which record (from 1), and the byte where it begins (from 0).\n\
Example: corridor --text year.capture 7C:BA:CC:2F:40:2E 68 3 2026-03-01 2026-06-01 2026-09-01\n",
    );
}

// The bytes of an argument, or a line that it is too long.
fn argument<'a>(rt: &HostRuntime, i: usize, word: &'a mut [u8]) -> Option<&'a [u8]> {
    let Ok(n) = rt.arg(i, word) else {
        complain(rt, b"an argument is too long", b"");
        return None;
    };
    Some(&word[..n])
}

// An argument as a number, or a line that it is none.
fn number(rt: &HostRuntime, i: usize, most: u32, what: &[u8]) -> Option<u32> {
    let mut word = [0u8; WORD];
    let s = argument(rt, i, &mut word)?;
    let n = asked::number_of(s, most);
    if n.is_none() {
        complain(rt, what, s);
    }
    n
}

// An argument as a MAC address, or a line that it is none.
fn mac(rt: &HostRuntime, i: usize) -> Option<Mac> {
    let mut word = [0u8; WORD];
    let s = argument(rt, i, &mut word)?;
    let m = asked::mac_of(s);
    if m.is_none() {
        complain(
            rt,
            b"MAC is not six bytes in hexadecimal, as in 7C:BA:CC:2F:40:2E: ",
            s,
        );
    }
    m
}

// An argument as a boundary, or a line that it is none.
fn boundary(rt: &HostRuntime, i: usize, name: &[u8]) -> Option<u32> {
    let mut word = [0u8; WORD];
    let s = argument(rt, i, &mut word)?;
    match asked::boundary_of(s) {
        Ok(seconds) => return Some(seconds),
        Err(NoBoundary::Neither) => complain_of(
            rt,
            name,
            b" is neither seconds, 0 to 4294967295, nor a date, as in 2026-03-01: ",
            s,
        ),
        Err(NoBoundary::NoSuchDate) => complain_of(
            rt,
            name,
            b" is a date that does not exist: ",
            s,
        ),
        Err(NoBoundary::Outside) => complain_of(
            rt,
            name,
            b" is a date before 1970-01-01 or behind 2106-02-07: ",
            s,
        ),
    }
    None
}

// So many bytes of a text, and whether they were written.
fn write(to: &impl Print, out: &[u8], n: usize) -> bool {
    match out.get(..n) {
        Some(text) => to.write_all(text).is_ok(),
        None => false,
    }
}

// Puts the sheet in its form.
fn put(
    form: Form,
    out: &mut [u8],
    who: Corridor,
    bounds: Boundaries,
    seasons: [Season; tally::SEASONS],
) -> usize {
    match form {
        Form::Csv => sheet::csv(out, 0, bounds, seasons),
        Form::Text => sheet_text::page(out, 0, who, bounds, seasons),
        Form::Svg => sheet_svg::picture(out, 0, who, bounds, seasons),
    }
}

// Prints the sheet.
fn print(
    rt: &HostRuntime,
    form: Form,
    out: &mut [u8],
    who: Corridor,
    bounds: Boundaries,
    seasons: [Season; tally::SEASONS],
) {
    let n = put(form, out, who, bounds, seasons);
    if write(rt, out, n) {
        return;
    }
    complain(rt, b"writing standard output failed", b"");
}

// Tells why there is none.
fn tell(rt: &HostRuntime, out: &mut [u8], x: SoFar, refusal: Refusal) {
    let n = sheet_told::refused(out, 0, x, refusal);
    write(&rt.stderr(), out, n);
}

// The one or the other.
fn finish(rt: &HostRuntime, form: Form, x: SoFar) {
    let mut out = [0u8; ROOM];
    match by_parts::end(x) {
        Ok(seasons) => print(rt, form, &mut out, x.who, x.bounds, seasons),
        Err(refusal) => tell(rt, &mut out, x, refusal),
    }
}

// Tells how far a capture was read.
fn tell_read(rt: &HostRuntime, out: &mut [u8], bytes: u64, records: u64) {
    let n = sheet_told::read(out, 0, bytes, records);
    write(&rt.stderr(), out, n);
}

// The same, where that passed another step.
fn progress(rt: &HostRuntime, before: u64, bytes: u64, records: u64) {
    if before / TELLS == bytes / TELLS {
        return;
    }
    let mut line = [0u8; LINE];
    tell_read(rt, &mut line, bytes, records);
}

// Reads a capture, part by part, to its end or to where it is refused: the report then, or the error of a read that failed. What a read answered
// is handed to by_parts::turn, a failure as -1, and by its answer the run goes on or stops. (The loop has to count: nothing says that input ends.
// Where it never does there is no report.)
fn follow(
    rt: &HostRuntime,
    input: &mut impl Read,
    buf: &mut [u8],
    start: SoFar,
) -> io::Result<Option<SoFar>> {
    let mut x = start;
    let mut bytes: u64 = 0;
    for _ in 0..u64::MAX {
        let (got, more, fault) = match input.read(buf) {
            Ok(n) => (n as isize, n as u64, None),
            Err(e) => (-1, 0, Some(e)),
        };
        let before = bytes;
        bytes = bytes.saturating_add(more);
        match by_parts::turn(x, got, buf) {
            Some(Turned::Goes(y)) => {
                progress(rt, before, bytes, y.passed.records);
                x = y;
            }
            Some(Turned::Ended(y)) => {
                progress(rt, before, bytes, y.passed.records);
                return Ok(Some(y));
            }
            None => {
                return match fault {
                    Some(e) => Err(e),
                    None => Ok(None),
                };
            }
        }
    }
    Ok(None)
}

// The sheet of an open file, whose name is at hand for what fails.
fn report(
    rt: &HostRuntime,
    form: Form,
    input: &mut impl Read,
    path: &[u8],
    who: Corridor,
    bounds: Boundaries,
) {
    let mut buf = [0u8; PART];
    match follow(rt, input, &mut buf, by_parts::begin(who, bounds)) {
        Ok(Some(x)) => finish(rt, form, x),
        Ok(None) => (),
        Err(e) => fail(rt, b"corridor: reading ", path, &e),
    }
}

// Opens a file. (std takes text alone for a file's name: of other bytes is told what the system says where it takes none.)
fn open_file(rt: &HostRuntime, path: &[u8]) -> io::Result<File> {
    match str::from_utf8(path) {
        Ok(name) => File::open(rt, name),
        Err(_) => Err(io::Error::from_raw_os_error(NO_TEXT)),
    }
}

// Opens the file, or takes standard input for it.
fn open(rt: &HostRuntime, form: Form, i: usize, who: Corridor, bounds: Boundaries) {
    let mut word = [0u8; WORD];
    let n = rt.arg(i, &mut word).unwrap_or(0);
    let path = &word[..n];
    if options::is_input(path) {
        report(rt, form, &mut rt.stdin(), path, who, bounds);
        return;
    }
    match open_file(rt, path) {
        Ok(mut file) => report(rt, form, &mut file, path, who, bounds),
        Err(e) => fail(rt, b"corridor: ", path, &e),
    }
}

// The corridor, from the place of the file's argument on, or a line on what is no part of one.
fn corridor(rt: &HostRuntime, i: usize) -> Option<Corridor>
    requires { i ≤ 2 }
{
    let mac = mac(rt, i + 1)?;
    let target = number(
        rt,
        i + 2,
        TARGET,
        b"TARGET is not a number from 0 to 4294967295: ",
    )?;
    let instance = number(
        rt,
        i + 3,
        INSTANCE,
        b"INSTANCE is not a number from 0 to 255: ",
    )?;
    Some(Corridor {
        mac,
        target,
        instance: (instance % 256) as u8,
    })
}

// The boundaries, likewise.
fn boundaries(rt: &HostRuntime, i: usize) -> Option<Boundaries>
    requires { i ≤ 2 }
{
    Some(Boundaries {
        first: boundary(rt, i + 4, b"FIRST")?,
        second: boundary(rt, i + 5, b"SECOND")?,
        third: boundary(rt, i + 6, b"THIRD")?,
    })
}

// Whether the command line has an argument of this number, where 0 is the program's own name.
fn has_argument(rt: &impl Env, i: usize) -> bool {
    !matches!(rt.arg(i, &mut []), Err(FillError::NotPresent))
}

// The arguments from a place on, which has to be the file's.
fn go(rt: &HostRuntime, form: Form, i: usize)
    requires { i ≤ 2 }
{
    if !has_argument(rt, i + WORDS - 1) || has_argument(rt, i + WORDS) {
        complain(
            rt,
            b"7 arguments are wanted behind the option, if there is one; corridor --help names them",
            b"",
        );
        return;
    }
    let mut word = [0u8; WORD];
    if rt.arg(i, &mut word).is_err() {
        complain(rt, b"an argument is too long", b"");
        return;
    }
    let Some(who) = corridor(rt, i) else {
        return;
    };
    let Some(bounds) = boundaries(rt, i) else {
        return;
    };
    open(rt, form, i, who, bounds);
}

fn main(rt: HostRuntime) {
    if !has_argument(&rt, 1) {
        help(&rt);
        return;
    }
    let mut word = [0u8; WORD];
    let n = rt.arg(1, &mut word).unwrap_or(0);
    match options::option_of(&word[..n]) {
        Asked::Help => help(&rt),
        Asked::Text => go(&rt, Form::Text, 2),
        Asked::Svg => go(&rt, Form::Svg, 2),
        Asked::NoOption => go(&rt, Form::Csv, 1),
        Asked::NoSuch => complain(&rt, b"no such option: ", &word[..n]),
    }
}
