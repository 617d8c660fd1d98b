// Checks a contractor's filter plan against the events that are wanted: docs/PLAN.md. It reads its arguments and the two files, and prints what crate
// plan_told puts of the answers of crates filter_plan and filter_since; crate plan_wanted reads the text of the wanted events.
#![tactic(auto)]

ghost use Rattle.std.specs.Prelude.{◌≤◌, ◌≡◌, ◌+◌, length, IfOk};

use filter_plan::{Bad, Filters, Verdict};
use plan_wanted::NotWanted;
use std::env::FillError;
use std::fs::File;
use std::io;
use std::io::{Read, Write};
use std::rt::Env;

// The most bytes of a file, and the room to read one in: one byte more tells that a file is longer.
const MOST: usize = 1048576;

const SPACE: usize = MOST + 1;

// The room for the wanted events of a text: a line that says one has 6 bytes or more with its line feed, and gives 3.
const EVENTS: usize = 524290;

// The room for an answer.
const ROOM: usize = 4096;

// The most bytes of an argument: as many as a path has.
const WORD: usize = 4095;

// The room for what the system says of an error, and the error's number behind it: twice what the longest such text takes.
const SAID: usize = 128;

// The system's number for bytes that are no text.
const NO_TEXT: i32 = 84;

// Why a file was not read.
#[derive(Drop)]
enum Unread {
    Failed(io::Error),
    Long,
}

// The room to read a file in. (That so many zeros have this length is said here once; their number is too great to be counted out in each proof.)
fn space() -> [u8; SPACE]
    ensures { 1048577 ≡ length result }
{
    [0; SPACE]
}

// The room for the wanted events.
fn room() -> [u8; EVENTS]
    ensures { 524290 ≡ length result }
{
    [0; EVENTS]
}

// Two texts on standard error, behind the program's name.
fn complain_of(rt: &HostRuntime, first: &[u8], second: &[u8]) {
    let err = rt.stderr();
    let _ = err.write_all(b"plan: ");
    let _ = err.write_all(first);
    let _ = err.write_all(second);
}

// A line on standard error that ends in a word of the command line.
fn complain(rt: &HostRuntime, what: &[u8], word: &[u8]) {
    complain_of(rt, what, word);
    let _ = rt.stderr().write_all(b"\n");
}

// What std says of an error, and zeros behind it: the system's text, and in brackets the error's number.
fn text_of(e: &io::Error) -> [u8; SAID] {
    let mut text = [0u8; SAID];
    let mut rest: &mut [u8] = &mut text;
    let _ = write!(rest, "{e}");
    text
}

// How many bytes the system's text has there: in none of them stands a bracket.
fn said(text: &[u8]) -> usize
    ensures { result ≤ length text.now }
{
    let end = words::until(text, 0, 0);
    let n = words::until(text, 0, b'(');
    if 0 < n && n < end {
        return n - 1;
    }
    end
}

// One that tells of a file what the system says of an error.
fn fail(rt: &HostRuntime, what: &[u8], word: &[u8], e: &io::Error) {
    let text = text_of(e);
    let n = said(&text);
    let err = rt.stderr();
    let _ = err.write_all(what);
    let _ = err.write_all(word);
    let _ = err.write_all(b": ");
    let _ = err.write_all(&text[..n]);
    let _ = err.write_all(b"\n");
}

fn help(rt: &impl Eprint) {
    let _ = rt.eprint(
        "Usage: plan [--list] PLAN WANTED\n\
\n\
Checks a filter plan before it goes to a controller: whether each of its requests\n\
is a good 31 or 33, the controller's 64 filters are enough, and after the last\n\
request no event is hidden that is wanted. Answers yes or no, and why: with the\n\
request, its bytes and what they mean.\n\
\n\
\x20 PLAN    the requests, 8 bytes each, one behind the other\n\
\x20 WANTED  a text with a line for each wanted event: address instance type, as\n\
\x20         68 3 0 for button presses; empty lines and lines that begin with # are\n\
\x20         passed over\n\
\x20 --list  also prints the filters that the plan leaves, or those that stood\n\
\x20         before its first bad request\n\
\x20 --help  prints this\n\
\n\
Either file may be -, which is standard input. Requests and wanted events are\n\
counted from 0.\n\
Example: plan --list contractor.plan corridor.txt\n",
    );
}

// So many bytes of a text, and whether they were written.
fn write(rt: &impl Print, out: &[u8], n: usize) -> bool {
    if out.len() < n {
        return false;
    }
    rt.write_all(&out[..n]).is_ok()
}

// Puts the answer.
fn answer(
    out: &mut [u8],
    verdict: Verdict,
    plan: &[u8],
    wanted: &[u8],
    filters: &Filters,
) -> usize {
    match verdict {
        Verdict::Yes => plan_told::yes(
            out,
            0,
            (plan.len() / command::BASIC_BYTES) as u64,
            filters.count as u64,
            (wanted.len() / filter_plan::EVENT) as u64,
        ),
        Verdict::Bad(bad) => {
            let s = filter_since::request_at(plan, bad.request);
            plan_told::bad(out, 0, bad.request as u64, s, bad.refusal)
        }
        Verdict::Hidden(j) => {
            let e = filter_since::event_at(wanted, j);
            match filter_since::hidden_since(plan, e.address, e.instance, e.kind) {
                Some(k) => {
                    let s = filter_since::request_at(plan, k);
                    plan_told::hidden(out, 0, j as u64, e.address, e.instance, e.kind, k as u64, s)
                }
                // An event that is hidden after good requests is so since one of them (`since_hidden` of filter_answers).
                None => 0,
            }
        }
    }
}

// Prints the filters, a line for each.
fn list_each(rt: &impl Print, out: &mut [u8], filters: &Filters) -> bool {
    for f in filters.entries.iter().take(filters.count) {
        let n = filter_text::filter_line(out, 0, *f);
        if !write(rt, out, n) {
            return false;
        }
    }
    true
}

// Puts how many filters there are.
fn count(out: &mut [u8], went: Result<(), Bad>, n: usize) -> usize {
    match went {
        Ok(()) => plan_told::left(out, 0, n as u64),
        Err(bad) => plan_told::before(out, 0, bad.request as u64, n as u64),
    }
}

// Prints that, and the filters.
fn list(rt: &impl Print, out: &mut [u8], went: Result<(), Bad>, filters: &Filters) -> bool {
    let n = count(out, went, filters.count);
    if !write(rt, out, n) {
        return false;
    }
    list_each(rt, out, filters)
}

// Prints the answer, and the filters where they are asked for.
fn check(rt: &HostRuntime, listed: bool, plan: &[u8], wanted: &[u8]) {
    let mut out = [0u8; ROOM];
    let verdict = filter_plan::check(plan, wanted);
    let left = filter_plan::leaves(plan);
    let filters = left.filters;
    let n = answer(&mut out, verdict, plan, wanted, &filters);
    if !write(rt, &out, n) || listed && !list(rt, &mut out, left.went, &filters) {
        complain(rt, b"writing standard output failed", b"");
    }
}

// Tells of a bad line of the wanted list.
fn tell_line(rt: &HostRuntime, path: &[u8], n: usize) {
    let mut out = [0u8; ROOM];
    let e = plan_told::bad_line(&mut out, 0, n as u64);
    if e <= ROOM {
        complain_of(rt, path, &out[..e]);
    }
}

// The wanted list read, and then the check.
fn wanted(rt: &HostRuntime, listed: bool, plan: &[u8], path: &[u8], text: &[u8]) {
    let mut events = room();
    match plan_wanted::read(text, &mut events) {
        Ok(n) => {
            if n <= EVENTS {
                check(rt, listed, plan, &events[..n]);
            }
        }
        Err(NotWanted::BadLine(n)) => tell_line(rt, path, n),
        // There is room for all that a text of this size can say.
        Err(NotWanted::Full) => complain_of(rt, path, b": too many wanted events\n"),
    }
}

// Reads once behind what was read.
fn read_behind(input: &mut impl Read, buf: &mut [u8], n: usize) -> io::Result<usize>
    requires { n ≤ length buf.old }
    ensures { IfOk result (λ k. n + k ≤ length buf.new) }
{
    input.read(&mut buf[n..])
}

// Reads a file to its end, or until there is no room. (The loop has to count: nothing says that input ends.)
fn read_all(input: &mut impl Read, buf: &mut [u8]) -> Result<usize, Unread> {
    let mut n: usize = 0;
    for _ in 0..u64::MAX {
        if buf.len() <= n {
            return Err(Unread::Long);
        }
        match read_behind(input, buf, n) {
            Ok(0) => return Ok(n),
            Ok(k) => n += k,
            Err(e) => return Err(Unread::Failed(e)),
        }
    }
    Err(Unread::Long)
}

// Opens a file. (std takes text alone for a file's name: of other bytes is told what the system says where it takes none.)
fn open(rt: &HostRuntime, path: &[u8]) -> io::Result<File> {
    match str::from_utf8(path) {
        Ok(name) => File::open(rt, name),
        Err(_) => Err(io::Error::from_raw_os_error(NO_TEXT)),
    }
}

// How many bytes were read of a file; or says why none.
fn told(rt: &HostRuntime, path: &[u8], read: Result<usize, Unread>) -> Option<usize> {
    match read {
        Ok(n) => return Some(n),
        Err(Unread::Failed(e)) => fail(rt, b"plan: reading ", path, &e),
        Err(Unread::Long) => complain_of(rt, path, b": more than 1048576 bytes\n"),
    }
    None
}

// Opens a file, or takes standard input for it, and reads it; or says what failed.
fn load(rt: &HostRuntime, path: &[u8], buf: &mut [u8]) -> Option<usize> {
    if options::is_input(path) {
        let read = read_all(&mut rt.stdin(), buf);
        return told(rt, path, read);
    }
    match open(rt, path) {
        Ok(mut file) => {
            let read = read_all(&mut file, buf);
            told(rt, path, read)
        }
        Err(e) => {
            fail(rt, b"plan: ", path, &e);
            None
        }
    }
}

// The wanted list loaded.
fn then(rt: &HostRuntime, listed: bool, plan: &[u8], path: &[u8]) {
    let mut buf = space();
    let Some(n) = load(rt, path, &mut buf) else {
        return;
    };
    if n <= SPACE {
        wanted(rt, listed, plan, path, &buf[..n]);
    }
}

// The plan loaded, and then the wanted list.
fn first(rt: &HostRuntime, listed: bool, plan: &[u8], path: &[u8]) {
    let mut buf = space();
    let Some(n) = load(rt, plan, &mut buf) else {
        return;
    };
    if n <= SPACE {
        then(rt, listed, &buf[..n], path);
    }
}

// Whether the command line has an argument of this number, where 0 is the program's own name.
fn has_argument(rt: &impl Env, i: usize) -> bool {
    !matches!(rt.arg(i, &mut []), Err(FillError::NotPresent))
}

// The arguments from a place on, which has to be the plan's.
fn go(rt: &HostRuntime, listed: bool, i: usize)
    requires { i ≤ 2 }
{
    if !has_argument(rt, i + 1) || has_argument(rt, i + 2) {
        complain(
            rt,
            b"2 arguments are wanted behind the option, if there is one; plan --help names them",
            b"",
        );
        return;
    }
    let mut plan = [0u8; WORD];
    let mut list = [0u8; WORD];
    let (Ok(n), Ok(m)) = (rt.arg(i, &mut plan), rt.arg(i + 1, &mut list)) else {
        complain(rt, b"an argument is too long", b"");
        return;
    };
    if options::is_input(&plan[..n]) && options::is_input(&list[..m]) {
        complain(rt, b"only one of the two files can be standard input", b"");
        return;
    }
    first(rt, listed, &plan[..n], &list[..m]);
}

fn main(rt: HostRuntime) {
    if !has_argument(&rt, 1) {
        help(&rt);
        return;
    }
    let mut word = [0u8; WORD];
    let n = rt.arg(1, &mut word).unwrap_or(0);
    if options::same(&word[..n], b"--help") {
        help(&rt);
        return;
    }
    if options::same(&word[..n], b"--list") {
        go(&rt, true, 2);
        return;
    }
    if options::is_option(&word[..n]) {
        complain(&rt, b"no such option: ", &word[..n]);
        return;
    }
    go(&rt, false, 1);
}
