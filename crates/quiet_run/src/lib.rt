// The quiet profile over a finished run of requests: whether each item of it is a request inside the profile, and where the first one is
// that is not. One pass over the bytes, nothing copied. It leans on crate line for what stands at a place and on crate profile for which
// commands are inside. Document 02, W-203.
#![tactic(auto)]

ghost use Rattle.std.specs.Prelude.{◌≡◌};
ghost use Rattle.stream.specs.Stream.{reading, items};
ghost use Rattle.extent.specs.declared.Line.TheVariants.{Request};
ghost use Rattle.line.specs.Rule.{settle};
ghost use Rattle.quiet_run.specs.Quiet.{is_quiet, quiet_run, first_loud};
ghost use Rattle.quiet_run.specs.Scan.{scanned, said_first};

use line::{Item, Line};

// An item that is not quiet, by its place, its number and its size.
#[derive(Clone, Copy, Debug, PartialEq, Eq)]
pub struct Loud {
    pub place: usize,
    pub number: u8,
    pub size: usize,
}

// Whether an item is quiet: a request that is accepted, and its command is inside the profile.
#[tactic(auto, using(crate::specs::Scanning::quiet_short))]
fn quiet(number: u8, item: &[u8]) -> bool
    ensures { result ≡ is_quiet (reading number item.now) }
{
    number == 0 && item.len() >= 3 && profile::inside(item[2])
}

// Passes over the quiet items from the front of a run on, and says past how many bytes it is: behind them nothing stands (the run is at its
// end, or what is left waits for more bytes). Or it ends at the first item that is not quiet. Where the run is closed, what would wait is
// item 1, which is not quiet.
pub fn scan(run: &[u8], closed: bool) -> Result<usize, Loud>
    ensures { result ≡ scanned closed run.now }
{
    let mut at: usize = 0;
    // No `for` is plainer: a step is as long as the item that was read.
    while let Some(Item { number, size }) = line::item_at(Line::Request, closed, &run[at..]) {
        let e = at + size;
        if !quiet(number, &run[at..e]) {
            return Err(Loud {
                place: at,
                number,
                size,
            });
        }
        at = e;
    }
    Ok(at)
}

// The first item of a run, read as a request line and closed, that is not quiet, where there is one.
pub fn first(run: &[u8]) -> Option<Loud>
    ensures { said_first result ≡ first_loud 0 (items (settle Request) run.now) }
{
    scan(run, true).err()
}

// "yes exactly if, read as a request line and closed, it gives only items 0 and each is inside the profile."
pub fn passes(run: &[u8]) -> bool
    ensures { result ≡ quiet_run run.now }
{
    first(run).is_none()
}
