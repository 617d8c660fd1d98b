// The program quiet turn by turn: what it does next after each read, so that a run of any length is checked in constant memory. The program
// above it only reads, writes and goes by these answers. It leans on crate quiet_run for the scan, on crate turns for what a read makes of what
// is held, and on crate quiet_told for the line that it answers. Document 02, W-203.
#![tactic(auto)]

ghost use Rattle.std.specs.Prelude.{◌≤◌, ◌≡◌, length};
ghost use Rattle.quiet_turns.specs.Turn.{start, Onward, Turns};

use quiet_run::Loud;
use quiet_told::{last, loud, plus};
use turns::Turn;

// Where a run stands: how many bytes of it are passed over, and how many stand at the front of the buffer, held and not passed yet.
#[derive(Clone, Copy, Debug, PartialEq, Eq)]
pub struct Watch {
    pub passed: u64,
    pub held: usize,
}

// What the program does next: the read failed, and there is no answer; it reads behind the bytes that it holds, which stand in front of its
// buffer; or it says the answer, so many bytes of text.
#[derive(Clone, Copy, Debug)]
pub enum Act {
    Failed,
    Read(Watch),
    Says(usize),
}

// A run begins with nothing passed and nothing held.
pub fn fresh() -> Watch
    ensures { result ≡ start }
{
    Watch { passed: 0, held: 0 }
}

// What to do where the buffer's bytes up to an end are there and more may come: they are passed over as far as they are quiet items, and
// the rest is kept in front; or the answer is no.
fn onward(passed: u64, end: usize, buf: &mut [u8], out: &mut [u8]) -> Act
    requires { end ≤ length buf.old }
    ensures { Onward passed end buf.old out.old result buf.new out.new }
{
    match quiet_run::scan(&buf[..end], false) {
        Ok(j) => Act::Read(Watch {
            passed: plus(passed, j as u64),
            held: turns::keep(buf, j, end),
        }),
        Err(
            Loud {
                place,
                number,
                size,
            },
        ) => Act::Says(loud(
            out,
            plus(passed, place as u64),
            number,
            &buf[place..place + size],
        )),
    }
}

// What a read behind the bytes that are held makes of the watch, by what it answered: a negative number is a failure and no end of the run;
// no byte is its end, and the answer is for what is held; else so many bytes more are there.
pub fn turn(watch: Watch, got: isize, buf: &mut [u8], out: &mut [u8]) -> Act
    ensures { Turns watch got buf.old out.old result buf.new out.new }
{
    let held = Turn {
        at: 0,
        end: watch.held,
        closed: false,
    };
    let Some(on) = turns::read(held, got, buf.len()) else {
        return Act::Failed;
    };
    let e = on.end.min(buf.len());
    if on.closed {
        return Act::Says(last(out, watch.passed, &buf[..e]));
    }
    onward(watch.passed, e, buf, out)
}
