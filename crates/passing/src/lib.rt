// Passing over the good records at the front of some bytes: how many they are, how far they reach, and the tally of them, behind what was
// passed before. It leans on capture for one record behind another and on tally for the four seasons (crate report takes a capture whole,
// crate by_parts part by part). Document 02, W-213.
#![tactic(auto)]

ghost use Rattle.std.specs.Prelude.{◌≡◌};
ghost use Rattle.event.specs.Layout.{width_of};
ghost use Rattle.passing.specs.Passing.{none_passed, passed_over};

use event::Layout;
use season::{Boundaries, Corridor};
use tally::Tally;

// What good records left: how many they are and how many bytes they have, the seconds of the last, and the tally. It goes by value.
#[derive(Clone, Copy)]
pub struct Passed {
    pub records: u64,
    pub bytes: u64,
    pub last: Option<u32>,
    pub tally: Tally,
}

// What is passed, and the place of the bytes behind it.
#[derive(Clone, Copy)]
pub struct Pass {
    pub passed: Passed,
    pub at: usize,
}

// No records.
pub fn nothing() -> Passed
    ensures { result ≡ none_passed }
{
    Passed {
        records: 0,
        bytes: 0,
        last: None,
        tally: tally::nothing(),
    }
}

// Passes over the good records at the front of some bytes, behind those of x, to the end or to the first that is bad or cut short.
pub fn over(layout: Layout, s: &[u8], who: Corridor, b: Boundaries, x: Passed) -> Pass
    ensures { result ≡ passed_over (width_of layout) s.now who b x }
{
    let mut at: usize = 0;
    let mut n: usize = 0;
    let mut last = x.last;
    let mut tally = x.tally;
    // No `for` is plainer: a step is as long as the record that was read.
    while let Some(y) = capture::follow(layout, s, at, last) {
        tally = tally::one_more(who, b, tally, y.seconds, y.event);
        at = y.next;
        n += 1;
        last = Some(y.seconds);
    }
    Pass {
        passed: Passed {
            records: season::plus(x.records, n as u64),
            bytes: season::plus(x.bytes, at as u64),
            last,
            tally,
        },
        at,
    }
}
