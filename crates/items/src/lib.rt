// Items of a line as text, one line to an item, straight from the bytes that were read into a lent buffer. It leans on crate line for
// what stands at a position and on crate printed for the line of an item. Document 01, "A small program".
#![tactic(auto)]

ghost use Rattle.items.specs.Pour.{poured_from, Pours};

use line::{Item, Line};

// How far a pour read, and how much text it wrote.
#[derive(Clone, Copy, Debug, PartialEq, Eq)]
pub struct Poured {
    pub read: usize,
    pub wrote: usize,
}

// Pours the bytes of a line from a place on: writes the line of each item to the start of a buffer, one behind the other, as
// long as items stand there and their lines find room. Where the line is closed, one that needs more bytes is item 1.
pub fn pour(line: Line, s: &[u8], start: usize, closed: bool, out: &mut [u8]) -> Poured
    ensures { Pours (poured_from line closed s.now start out.old) start out.old result out.new }
{
    let mut at = start;
    let mut w: usize = 0;
    // No `for` is plainer: a step is as long as the item that was read.
    while at < s.len() {
        let Some(Item { number, size }) = line::item_at(line, closed, &s[at..]) else {
            return Poured { read: at, wrote: w };
        };
        let e = at + size;
        let next = printed::put_line(out, w, number, &s[at..e]);
        if next == w {
            return Poured { read: at, wrote: w };
        }
        at = e;
        w = next;
    }
    Poured { read: at, wrote: w }
}
