// Says whether a run of requests on standard input is quiet: document 02, W-203. It only reads, writes and goes by the answers of crate
// quiet_turns: what any program says that goes by them is `says_answer` of its specs/Run. A read or a write that fails ends it, and standard
// error says so. Its memory does not grow with the run.
#![tactic(auto)]

ghost use Rattle.quiet.specs.Room.{Roomy, RoomBehind, SaysWithin};

use quiet_turns::Act;
use std::env::FillError;
use std::io::Read;
use std::rt::Env;

// The most bytes with which a request line's rule waits: 12, one less than its longest frame has.
const HELD: usize = line::REQUEST_LONGEST - 1;

// The most bytes that one read gives, and the room for the answer, which has at most 104 bytes.
const PART: usize = 65536;

const LINE: usize = 104;

fn help(rt: &impl Eprint) {
    let _ = rt.eprint(
        "Usage: quiet < RUN\n\
\n\
Says whether a run of bytes may go out where we are allowed to ask and never to\n\
switch: yes exactly if it is nothing but requests inside the quiet profile. Else\n\
no, with the first item that is not one: its number, the byte of the run where it\n\
begins (from 0), its bytes, and why.\n\
\n\
item 0: a request outside the profile    item 4: no such length byte or colour type\n\
item 1: the run ends inside a request    item 6: the sum is wrong\n\
item 2: no request begins here           item 7: an argument is out of range\n\
item 3: the command is unknown\n\
\n\
An example, and its answer:\n\
printf '\\4\\0\\241\\5\\0\\0\\3\\243' | quiet\n\
no: item 0 at byte 0, 0400A105000003A3: command A1 is outside the profile\n",
    );
}

// Reads once behind the bytes that are held, where there is always room.
fn read_behind(input: &mut impl Read, buf: &mut [u8], held: usize) -> isize
    requires { RoomBehind buf.old held }
{
    match input.read(&mut buf[held..]) {
        Ok(n) => n as isize,
        Err(_) => -1,
    }
}

// The end: the answer, or that there is none.
fn finish(rt: &(impl Print + Eprint), act: Act, out: &[u8])
    requires { SaysWithin act out.now }
{
    match act {
        Act::Says(n) => {
            if rt.write_all(&out[..n]).is_err() {
                let _ = rt.eprint("quiet: writing standard output failed\n");
            }
        }
        Act::Failed => {
            let _ = rt.eprint("quiet: reading standard input failed\n");
        }
        Act::Read(_) => {}
    }
}

// Read by read. (The loop has to count: nothing says that input ends.)
fn run(rt: &(impl Print + Eprint), input: &mut impl Read, buf: &mut [u8], out: &mut [u8])
    requires { Roomy buf.old out.old }
{
    let mut watch = quiet_turns::fresh();
    for _ in 0..u64::MAX {
        let got = read_behind(input, buf, watch.held);
        let act = quiet_turns::turn(watch, got, buf, out);
        let Act::Read(on) = act else {
            finish(rt, act, out);
            return;
        };
        watch = on;
    }
}

// Whether the command line has an argument of this number, where 0 is the program's own name.
fn has_argument(rt: &impl Env, i: usize) -> bool {
    !matches!(rt.arg(i, &mut []), Err(FillError::NotPresent))
}

fn main(rt: HostRuntime) {
    if has_argument(&rt, 1) {
        help(&rt);
        return;
    }
    let mut buf = [0u8; HELD + PART];
    let mut out = [0u8; LINE];
    run(&rt, &mut rt.stdin(), &mut buf, &mut out);
}
