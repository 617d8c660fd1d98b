// The readers of the two lines on the bench: a reader as it is handed in, and what is answered of it. docs/BENCH.md, "Lines".
// It leans on crates bench_words and bench_say, and on crates reader and stream for what is said.
#![tactic(auto)]

ghost use Rattle.std.specs.Prelude.{◌≡◌};
ghost use Rattle.lent.specs.All.{PutsAll};
ghost use Rattle.bench_lines.specs.Lines.{handed_reader, done_texts, fed_texts, closed_texts, held_texts, step_texts, item_texts};
ghost use Rattle.bench_lines.specs.Shown.{plain_shown, given_shown, fed_shown, closed_shown, held_shown, step_shown, item_shown, shown_texts, Says};
ghost use Rattle.bench_say.specs.Pieces.{three};

use bench_say::Pieces;
use reader::{Given, Held, Item};
use stream::Step;

// An answer by value: pieces, and behind them the first of some bytes, of those that stand here (where run is 1), of those that a reader
// holds (2), or of none (0). The kinds of the pieces have the places of their names, which stand in `say` (crate bench_say).
#[derive(Drop)]
pub struct Shown {
    pub pieces: Pieces,
    pub bytes: [u8; 68],
    pub count: usize,
    pub run: usize,
}

// A reader that claims to hold so many bytes, with these in front, and zeros behind them.
pub fn handed(len: usize, s: &[u8]) -> Held
    ensures { result ≡ handed_reader len s.now }
{
    let mut bytes = [0u8; 67];
    for i in 0..67 {
        bytes[i] = bench_words::byte_at(s, i);
    }
    Held { bytes, len }
}

// Pieces, and no bytes behind them.
fn plain(pieces: Pieces) -> Shown
    ensures { result ≡ plain_shown pieces }
{
    Shown {
        pieces,
        bytes: [0u8; 68],
        count: 0,
        run: 0,
    }
}

// That a call was done.
pub fn done() -> Shown
    ensures value { result ≡ plain_shown (three 0x01 0 0 0 0 0) }
    ensures says { Says result done_texts }
{
    plain(Pieces(0x01, 0, 0, 0, 0, 0, 0))
}

// A piece, and the item that a call gave, or a word where it gave none; the count and the bytes of this one stand behind the word, where
// nothing is put.
fn given(a: usize, x: u64, f: Given, or: Item, none: usize) -> Shown
    ensures { result ≡ given_shown a x f or none }
{
    match f.item {
        None => {
            let bytes = or.bytes;
            Shown {
                pieces: Pieces(a, x, none, 0, 0, 0, 0),
                bytes,
                count: or.count,
                run: 0,
            }
        }
        Some(item) => {
            let bytes = item.bytes;
            Shown {
                pieces: Pieces(a, x, 0x42, item.number as u64, 0x52, item.count as u64, 0),
                bytes,
                count: item.count,
                run: 1,
            }
        }
    }
}

// What a feeding call gave; where it gave no item, the count and the bytes of this one stand, of which nothing is put.
pub fn fed(f: Given, or: Item) -> Shown
    ensures value { result ≡ fed_shown f or }
    ensures says { Says result (fed_texts f) }
{
    given(0x12, f.taken as u64, f, or, 0x21)
}

// What a closing call gave; the same.
pub fn closed(f: Given, or: Item) -> Shown
    ensures value { result ≡ closed_shown f or }
    ensures says { Says result (closed_texts f) }
{
    given(0x01, 0, f, or, 0x31)
}

// What a reader holds.
pub fn show(h: Held) -> Shown
    ensures value { result ≡ held_shown h }
    ensures h_value { shown_texts result h ≡ held_texts h }
{
    let len = h.len;
    let count = if len < 67 { len } else { 67 };
    Shown {
        pieces: Pieces(0x62, len as u64, 0, 0, 0, 0, 0),
        bytes: [0u8; 68],
        count,
        run: 2,
    }
}

// What the rule says at a position.
pub fn step(s: Option<Step>) -> Shown
    ensures value { result ≡ step_shown s }
    ensures says { Says result (step_texts s) }
{
    match s {
        None => plain(Pieces(0x71, 0, 0, 0, 0, 0, 0)),
        Some(x) => plain(Pieces(
            0x82,
            x.number as u64,
            0x52,
            x.size as u64,
            0x92,
            x.settled as u64,
            0,
        )),
    }
}

// What stands at a position.
pub fn item(a: Option<line::Item>) -> Shown
    ensures value { result ≡ item_shown a }
    ensures says { Says result (item_texts a) }
{
    match a {
        None => plain(Pieces(0xA1, 0, 0, 0, 0, 0, 0)),
        Some(x) => plain(Pieces(0x82, x.number as u64, 0x52, x.size as u64, 0, 0, 0)),
    }
}

// The answer of a call, with the reader that it leaves.
pub fn say(out: &mut [u8], at: usize, x: Shown, h: Held) -> usize
    ensures { PutsAll (shown_texts x h) out.old at result out.new }
{
    let pieces = x.pieces;
    let bytes = x.bytes;
    let held = h.bytes;
    let e = bench_say::put(
        out,
        at,
        b"0,0 taken , nothing, empty, item , count ,0 held ,0 more,0 item , by ,0 nothing",
        pieces,
    );
    if x.run == 0 {
        return e;
    }
    if x.run == 1 {
        return bench_say::run(out, e, b" bytes", bench_words::part(&bytes, 0, x.count));
    }
    bench_say::run(out, e, b" bytes", bench_words::part(&held, 0, x.count))
}
