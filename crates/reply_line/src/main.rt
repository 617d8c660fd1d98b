// Reads a reply line from standard input to its end, and prints a line for each item. It only reads, writes and goes by the answers of
// crate turns: what any program prints that goes by them is `prints` of its specs/Run. A read or a write that fails ends the run, and
// standard error says so. Document 01, "A small program".
#![tactic(auto)]

ghost use Rattle.std.specs.Prelude.{◌≤◌, length};
ghost use Rattle.reply_line.specs.Room.{RoomBehind, Roomy};

use line::Line;
use std::io::Read;
use turns::{Act, Turn};

// The most bytes with which a reply line's rule waits: 67, one less than its longest frame has.
const HELD: usize = line::REPLY_LONGEST - 1;

// The most bytes that one read gives, and the room for text, where a line has at most 142 bytes.
const PART: usize = 65536;

// Reads once behind the bytes that are held, where there is always room.
fn read_behind(input: &mut impl Read, buf: &mut [u8], held: usize) -> isize
    requires { RoomBehind buf.old held }
{
    match input.read(&mut buf[held..]) {
        Ok(n) => n as isize,
        Err(_) => -1,
    }
}

// A turn that writes: so many bytes of the text, whole. Where that fails the run stops.
fn write(rt: &(impl Print + Eprint), turn: Turn, out: &[u8], n: usize) -> Option<Turn>
    requires { n ≤ length out.now }
{
    if rt.write_all(&out[..n]).is_err() {
        let _ = rt.eprint("reply_line: writing standard output failed\n");
        return None;
    }
    Some(turn)
}

// A turn that reads. Where that fails the run stops.
fn read(rt: &impl Eprint, input: &mut impl Read, turn: Turn, buf: &mut [u8]) -> Option<Turn>
    requires { RoomBehind buf.old turn.end }
{
    let got = read_behind(input, buf, turn.end);
    let on = turns::read(turn, got, buf.len());
    if on.is_none() {
        let _ = rt.eprint("reply_line: reading standard input failed\n");
    }
    on
}

// One turn, as it is to be: the run goes on from there, or it stops.
fn go_on(
    rt: &(impl Print + Eprint),
    input: &mut impl Read,
    turn: Turn,
    buf: &mut [u8],
    out: &mut [u8],
) -> Option<Turn>
    requires { Roomy buf.old out.old }
{
    match turns::next(Line::Reply, turn, buf, out) {
        Act::Write(n, on) => write(rt, on, out, n),
        Act::Read(on) => read(rt, input, on, buf),
        Act::Done => None,
    }
}

// Turn by turn. (The loop has to count: nothing says that input ends.)
fn run(rt: &(impl Print + Eprint), input: &mut impl Read, buf: &mut [u8], out: &mut [u8])
    requires { Roomy buf.old out.old }
{
    let mut turn = turns::fresh();
    for _ in 0..u64::MAX {
        let Some(on) = go_on(rt, input, turn, buf, out) else {
            return;
        };
        turn = on;
    }
}

fn main(rt: HostRuntime) {
    let mut buf = [0u8; HELD + PART];
    let mut out = [0u8; PART];
    run(&rt, &mut rt.stdin(), &mut buf, &mut out);
}
