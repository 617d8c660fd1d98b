// The small program turn by turn: what it does next, and what a read makes of what it holds. The program above it only reads, writes
// and goes by these answers. It leans on crate items for the text. Document 01, "A small program": "It reads a reply line from standard
// input to its end and prints one line for each item".
#![tactic(auto)]

ghost use Rattle.std.specs.Prelude.{◌+◌, min, ◌≡◌};
ghost use Rattle.turns.specs.Keep.{Keeps};
ghost use Rattle.turns.specs.Turn.{start, Turns, read_after};

use line::Line;

// Where a run stands: the bytes of its buffer from a place on, up to an end, are held and not poured yet; and whether the line is closed.
#[derive(Clone, Copy, Debug, PartialEq, Eq)]
pub struct Turn {
    pub at: usize,
    pub end: usize,
    pub closed: bool,
}

// What a program does next: it writes so many bytes of the text, and goes on; it reads behind the bytes that it holds, which stand in
// front of its buffer, and goes on by what the read answered; or it is done.
#[derive(Clone, Copy, Debug)]
pub enum Act {
    Write(usize, Turn),
    Read(Turn),
    Done,
}

// A run begins with nothing held.
pub fn fresh() -> Turn
    ensures { result ≡ start }
{
    Turn {
        at: 0,
        end: 0,
        closed: false,
    }
}

// Moves the bytes of a buffer from a place on, up to an end, to its front, and answers how many they are.
pub fn keep(buf: &mut [u8], from: usize, end: usize) -> usize
    ensures { Keeps buf.old from end result buf.new }
{
    let e = end.min(buf.len());
    if e <= from {
        return 0;
    }
    buf.copy_within(from..e, 0);
    e - from
}

// What to do next: the items that stand in what is held are poured, and where there are such their text is to be written; else more is
// to be read behind what is held, unless the line is closed.
pub fn next(line: Line, turn: Turn, buf: &mut [u8], out: &mut [u8]) -> Act
    ensures { Turns line turn buf.old out.old result buf.new out.new }
{
    let closed = turn.closed;
    let e = turn.end.min(buf.len());
    let poured = items::pour(line, &buf[..e], turn.at, closed, out);
    let wrote = poured.wrote;
    if 0 < wrote {
        return Act::Write(
            wrote,
            Turn {
                at: poured.read,
                end: e,
                closed,
            },
        );
    }
    if closed {
        return Act::Done;
    }
    let held = keep(buf, poured.read, e);
    Act::Read(Turn {
        at: 0,
        end: held,
        closed: false,
    })
}

// What a read behind the bytes that are held makes of the turn, by what it answered, in a buffer of so many bytes: a negative number is
// a failure, which is no end of the input, and the run does not go on; no byte is the end of the input, and the line is closed; else so many bytes more are held.
pub fn read(turn: Turn, got: isize, size: usize) -> Option<Turn>
    ensures { result ≡ read_after turn got size }
{
    if got < 0 {
        return None;
    }
    let n = got as usize;
    if n == 0 {
        return Some(Turn {
            closed: true,
            ..turn
        });
    }
    Some(Turn {
        end: behind(turn.end, n, size),
        ..turn
    })
}

// A place so many bytes further, or where the buffer ends before it, the buffer's end.
fn behind(end: usize, n: usize, size: usize) -> usize
    ensures { result ≡ min (end + n) size }
{
    end.saturating_add(n).min(size)
}
