// The book of unanswered requests on the bench: as it is handed in, and what is answered of it. docs/BENCH.md, "The book of
// unanswered requests". It leans on crates bench_words and bench_say, and on crate book for what is said.
#![tactic(auto)]

ghost use Rattle.std.specs.Prelude.{◌≡◌};
ghost use Rattle.lent.specs.All.{PutsAll};
ghost use Rattle.bench_words.specs.Words.{front_of};
ghost use Rattle.bench_book.specs.Pages.{tick_in, ticks_of, handed_book, entry_texts, entries_texts, page_texts};
ghost use Rattle.bench_book.specs.Pieces.{number_pieces, command_pieces, page_pieces};

use bench_say::Pieces;
use book::{Book, Timed};
use refusal::Refusal;

// What a call of this family answers: how many requests were given up is a number alone. A book that is shown is the one that the call leaves.
#[derive(Clone, Copy)]
pub enum Page {
    Done,
    Number(Result<u8, Refusal>),
    Command(Result<u8, Refusal>),
    GivenUp(u16),
    Book,
}

// The entries under 0, 1, and so on, and 0 behind them.
fn asked_in(s: &[u8]) -> [u8; 256]
    ensures { result ≡ front_of 256 s.now }
{
    let mut asked = [0u8; 256];
    for i in 0..256 {
        asked[i] = bench_words::byte_at(s, i);
    }
    asked
}

// The tick under a number: four bytes, 0 for one past the end.
fn tick_in(s: &[u8], n: u8) -> u32
    ensures { result ≡ tick_in s.now n }
{
    bench_words::wide32(bench_words::part(s, 4 * (n as usize), s.len()))
}

fn ticks_in(s: &[u8]) -> [u32; 256]
    ensures { result ≡ ticks_of s.now }
{
    let mut ticks = [0u32; 256];
    for i in 0..256 {
        ticks[i] = tick_in(s, i as u8);
    }
    ticks
}

// A book with this last number, that holds these commands under 0, 1, and so on, and nothing behind them, with these ticks.
pub fn handed(last: u8, s: &[u8], t: &[u8]) -> Timed
    ensures { result ≡ handed_book last s.now t.now }
{
    let asked = asked_in(s);
    let ticks = ticks_in(t);
    Timed {
        book: Book { asked, last },
        ticks,
    }
}

// The sequence number for a request.
fn number(r: Result<u8, Refusal>) -> Pieces
    ensures { result ≡ number_pieces r }
{
    match r {
        Ok(n) => Pieces(0x12, n as u64, 0, 0, 0, 0, 0),
        Err(k) => Pieces(4, k.number() as u64, 0, 0, 0, 0, 0),
    }
}

// The command that a reply answers.
fn command(r: Result<u8, Refusal>) -> Pieces
    ensures { result ≡ command_pieces r }
{
    match r {
        Ok(c) => Pieces(0x23, 0, 0, 0, 0, 0, c),
        Err(k) => Pieces(4, k.number() as u64, 0, 0, 0, 0, 0),
    }
}

// What is answered but for the entries of a book: the places of the names below are in the pieces' kinds (crate bench_say).
fn answer(p: Page, last: u8) -> Pieces
    ensures { result ≡ page_pieces p last }
{
    match p {
        Page::Done => Pieces(0x01, 0, 0, 0, 0, 0, 0),
        Page::Number(r) => number(r),
        Page::Command(r) => command(r),
        Page::GivenUp(n) => Pieces(0x52, n as u64, 0, 0, 0, 0, 0),
        Page::Book => Pieces(0x32, last as u64, 0x41, 0, 0, 0, 0),
    }
}

fn entry(out: &mut [u8], at: usize, n: u8, c: u8, t: u32) -> usize
    ensures { PutsAll (entry_texts n c t) out.old at result out.new }
{
    if c == 0 {
        return at;
    }
    let e = bench_say::put(out, at, b" ", Pieces(0x03, 0, 0, 0, 0, 0, n));
    bench_say::put(out, e, b" ", Pieces(0x03, 0, 0x02, t as u64, 0, 0, c))
}

fn entries(out: &mut [u8], at: usize, asked: &[u8; 256], ticks: &[u32; 256]) -> usize
    ensures { PutsAll (entries_texts 256 0 asked.now ticks.now) out.old at result out.new }
{
    let mut e = at;
    for i in 0..256 {
        e = entry(out, e, i as u8, asked[i], ticks[i]);
    }
    e
}

// The answer of a call, with the book that it leaves.
pub fn say(out: &mut [u8], at: usize, p: Page, b: Timed) -> usize
    ensures { PutsAll (page_texts p b) out.old at result out.new }
{
    let held = b.book;
    let asked = held.asked;
    let ticks = b.ticks;
    let e = bench_say::put(
        out,
        at,
        b"0,0 number ,0 command ,0 last , held,0 freed ",
        answer(p, held.last),
    );
    match p {
        Page::Done => e,
        Page::Number(_) => e,
        Page::Command(_) => e,
        Page::GivenUp(_) => e,
        Page::Book => entries(out, e, &asked, &ticks),
    }
}
