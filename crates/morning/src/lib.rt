// A morning's datagrams in one call: a run of event datagrams, each led by its length, appended to a capture under one time, by the letter
// and by a mark. It leans on led for how the run is cut, on capture for what is judged of the capture, on append for each datagram.
// Document 02, W-208.
#![tactic(auto)]

ghost use Rattle.std.specs.Prelude.{Ok, ◌≡◌, true};
ghost use Rattle.led.specs.Led.{parts_of};
ghost use Rattle.refusal.specs.Answer.{full, is_full};
ghost use Rattle.morning.specs.Morning.{ran, Runs, ran_at, RunsAt};
ghost use Rattle.morning.specs.Going.{all_of};

use capture::{Kept, Mark};
use refusal::Refusal;
use summary::Summary;

// What a run by a mark answers: how many datagrams went in and how many were refused, mark and summary afterwards.
#[derive(Clone, Copy, Debug, PartialEq, Eq)]
pub struct RanAt {
    pub entered: usize,
    pub refused: usize,
    pub kept: Kept,
}

// What a run by the letter answers: the same, with bytes in use in place of a mark.
#[derive(Clone, Copy, Debug, PartialEq, Eq)]
pub struct Ran {
    pub entered: usize,
    pub refused: usize,
    pub used: usize,
    pub summary: Summary,
}

// Appends the datagrams of a run in their order by marks. One that is refused is counted, and passed over.
fn append_all(buf: &mut [u8], mark: Mark, x: Summary, seconds: u32, run: &[u8]) -> RanAt
    requires { is_full (parts_of run.now) ≡ true }
    ensures { RunsAt (full (all_of buf.old mark x seconds run.now)) buf.old (Ok result) buf.new }
{
    let mut kept = Kept { mark, summary: x };
    let mut entered: usize = 0;
    let mut refused: usize = 0;
    let mut i: usize = 0;
    // a `while`: the step is the length that was read
    while let Some(n) = led::part_at(run, i) {
        let start = i + led::LEAD;
        let end = start + n;
        match append::append_at(buf, kept.mark, kept.summary, seconds, &run[start..end]) {
            Ok(k) => {
                kept = k;
                entered += 1;
            }
            Err(_) => refused += 1,
        }
        i = end;
    }
    RanAt {
        entered,
        refused,
        kept,
    }
}

// Appends a run of datagrams by a mark. Of the capture the version byte is judged and whether so many bytes are there. Capture and run are
// judged before anything is appended.
pub fn run_at(
    buf: &mut [u8],
    mark: Mark,
    x: Summary,
    seconds: u32,
    run: &[u8],
) -> Result<RanAt, Refusal>
    ensures { RunsAt (ran_at buf.old mark x seconds run.now) buf.old result buf.new }
{
    capture::front(buf, mark.used)?;
    if !led::is_whole(run) {
        return Err(Refusal::BadRecord);
    }
    Ok(append_all(buf, mark, x, seconds, run))
}

// Appends a run of datagrams by the letter: the whole capture is judged first, once. Capture and run are judged before anything is appended.
pub fn run(
    buf: &mut [u8],
    used: usize,
    x: Summary,
    seconds: u32,
    run: &[u8],
) -> Result<Ran, Refusal>
    ensures { Runs (ran buf.old used x seconds run.now) buf.old result buf.new }
{
    let mark = capture::open(buf, used)?;
    if !led::is_whole(run) {
        return Err(Refusal::BadRecord);
    }
    let r = append_all(buf, mark, x, seconds, run);
    Ok(Ran {
        entered: r.entered,
        refused: r.refused,
        used: r.kept.mark.used,
        summary: r.kept.summary,
    })
}
