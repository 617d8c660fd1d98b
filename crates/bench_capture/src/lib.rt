// The capture on the bench: what is carried of it beside the bytes of its buffer, what is handed in, what each call moves, and what is
// answered. docs/BENCH.md, "The capture". It leans on crates bench_words and bench_say, and on crates summary, capture, append and
// morning for what is said.
#![tactic(auto)]

ghost use Rattle.std.specs.Prelude.{◌≤◌, ◌≡◌, [], ◌∷◌, ◌++◌};
ghost use Rattle.text.specs.Text.{decimal_of};
ghost use Rattle.lent.specs.All.{PutsAll};
ghost use Rattle.bench_say.specs.Pieces.{pieces_texts};
ghost use Rattle.bench_capture.specs.Carried.{at_first, number_at, seconds_at, counts_at, tells, capture_set, summary_set, mark_set};
ghost use Rattle.bench_capture.specs.Carried.{becomes, refuses, on_found, on_appended, on_ran, on_ran_at, on_opening, on_counting, on_step, on_show};
ghost use Rattle.bench_capture.specs.Told.{numbers_texts, summary_texts, head_texts, tail_texts};
ghost use Rattle.bench_capture.specs.Pieces.{names, mark_pieces, summary_pieces, head_pieces};

use append::Appended;
use bench_say::Pieces;
use capture::{Kept, Mark};
use morning::{Ran, RanAt};
use record::Stored;
use refusal::Refusal;
use summary::Summary;

// What is carried of a capture beside the bytes of its buffer: how many these are, how many are claimed to be in use, a mark, a summary.
#[derive(Clone, Copy, Debug, PartialEq, Eq)]
pub struct Carried {
    pub size: usize,
    pub used: usize,
    pub mark: Mark,
    pub summary: Summary,
}

// How an answer begins: nothing said, bytes in use, how many datagrams of a run went in and how many were refused with the bytes in use, a
// mark that was opened, a record's seconds, a refusal.
#[derive(Drop)]
pub enum Head {
    Done,
    Used(usize),
    Ran(usize, usize, usize),
    Open(Mark),
    At(u32),
    Refused(Refusal),
}

// How it goes on: not at all, with a summary, with a datagram and the next place, or with all that is carried.
#[derive(Drop)]
pub enum Tail {
    Nothing,
    Counted,
    Next(usize),
    All(Mark),
}

// What a call leaves and what it answers, with the summary that is shown where one is.
#[derive(Drop)]
pub struct Moved {
    pub carried: Carried,
    pub head: Head,
    pub tail: Tail,
    pub summary: Summary,
}

// What is carried at first.
pub fn fresh() -> Carried
    ensures { result ≡ at_first }
{
    Carried {
        size: 0,
        used: 0,
        mark: Mark {
            used: 0,
            last: None,
        },
        summary: summary::nothing(),
    }
}

// The number in four bytes of a group.
fn number_at(s: &[u8], i: usize) -> u32
    requires { i ≤ 54 }
    ensures { result ≡ number_at s.now i }
{
    bench_words::wide32(bench_words::part(s, i, i + 4))
}

// A flag byte of a group, and seconds in the four bytes behind it.
fn seconds_at(s: &[u8], i: usize) -> Option<u32>
    requires { i ≤ 53 }
    ensures { result ≡ seconds_at s.now i }
{
    if bench_words::byte_at(s, i) == 0 {
        None
    } else {
        Some(number_at(s, i + 1))
    }
}

// The eleven counts of a summary that is handed in.
fn counts_in(s: &[u8]) -> [u32; 11]
    ensures { result ≡ counts_at 11 s.now }
{
    let mut counts = [0u32; 11];
    for i in 0..11 {
        counts[i] = number_at(s, 14 + i * 4);
    }
    counts
}

// A call that leaves this and answers so. A summary that is shown is the one that is carried.
fn tells(c: Carried, head: Head, tail: Tail) -> Moved
    ensures { result ≡ tells c head tail }
{
    Moved {
        carried: c,
        head,
        tail,
        summary: c.summary,
    }
}

// A call that was refused.
fn refuses(c: Carried, k: Refusal) -> Moved
    ensures { result ≡ refuses c k }
{
    tells(c, Head::Refused(k), Tail::Nothing)
}

// A buffer of so many bytes, and how many are claimed to be in use.
pub fn capture_set(c: Carried, size: usize, used: usize) -> Moved
    ensures { result ≡ capture_set c size used }
{
    tells(Carried { size, used, ..c }, Head::Done, Tail::Nothing)
}

// A summary that is handed in.
pub fn summary_set(c: Carried, s: &[u8]) -> Moved
    ensures { result ≡ summary_set c s.now }
{
    let counts = counts_in(s);
    let summary = Summary {
        records: number_at(s, 0),
        first: seconds_at(s, 4),
        last: seconds_at(s, 9),
        counts,
    };
    tells(Carried { summary, ..c }, Head::Done, Tail::Nothing)
}

// A mark that is handed in.
pub fn mark_set(c: Carried, s: &[u8]) -> Moved
    ensures { result ≡ mark_set c s.now }
{
    let mark = Mark {
        used: bench_words::wide64(s) as usize,
        last: seconds_at(s, 8),
    };
    tells(Carried { mark, ..c }, Head::Done, Tail::Nothing)
}

// What is carried where bytes in use, mark and summary become those that are kept.
fn becomes(c: Carried, kept: Kept) -> Carried
    ensures { result ≡ becomes c kept }
{
    Carried {
        size: c.size,
        used: kept.mark.used,
        mark: kept.mark,
        summary: kept.summary,
    }
}

// What emptying a capture answered, an append by a mark, or a look for the longest good prefix, behind which more is shown.
pub fn found(c: Carried, r: Result<Kept, Refusal>, more: Tail) -> Moved
    ensures { result ≡ on_found r c more }
{
    match r {
        Ok(kept) => tells(becomes(c, kept), Head::Used(kept.mark.used), more),
        Err(k) => refuses(c, k),
    }
}

// What an append by the letter answered.
pub fn appended(c: Carried, r: Result<Appended, Refusal>) -> Moved
    ensures { result ≡ on_appended r c }
{
    match r {
        Ok(a) => tells(
            Carried {
                used: a.used,
                summary: a.summary,
                ..c
            },
            Head::Used(a.used),
            Tail::Nothing,
        ),
        Err(k) => refuses(c, k),
    }
}

// What a run by the letter answered.
pub fn ran(c: Carried, r: Result<Ran, Refusal>) -> Moved
    ensures { result ≡ on_ran r c }
{
    match r {
        Ok(a) => tells(
            Carried {
                used: a.used,
                summary: a.summary,
                ..c
            },
            Head::Ran(a.entered, a.refused, a.used),
            Tail::Nothing,
        ),
        Err(k) => refuses(c, k),
    }
}

// What a run by a mark answered.
pub fn ran_at(c: Carried, r: Result<RanAt, Refusal>) -> Moved
    ensures { result ≡ on_ran_at r c }
{
    match r {
        Ok(a) => tells(
            becomes(c, a.kept),
            Head::Ran(a.entered, a.refused, a.kept.mark.used),
            Tail::Nothing,
        ),
        Err(k) => refuses(c, k),
    }
}

// What opening a capture answered.
pub fn opened(c: Carried, r: Result<Mark, Refusal>) -> Moved
    ensures { result ≡ on_opening r c }
{
    match r {
        Ok(mark) => tells(Carried { mark, ..c }, Head::Open(mark), Tail::Nothing),
        Err(k) => refuses(c, k),
    }
}

// What counting afresh answered.
pub fn counted(c: Carried, r: Result<Summary, Refusal>) -> Moved
    ensures { result ≡ on_counting r c }
{
    match r {
        Ok(summary) => Moved {
            carried: c,
            head: Head::Done,
            tail: Tail::Counted,
            summary,
        },
        Err(k) => refuses(c, k),
    }
}

// What stands at a place.
pub fn stepped(c: Carried, r: Result<Stored, Refusal>) -> Moved
    ensures { result ≡ on_step r c }
{
    match r {
        Ok(x) => tells(c, Head::At(x.seconds), Tail::Next(x.next)),
        Err(k) => refuses(c, k),
    }
}

// All that is carried.
pub fn shown(c: Carried) -> Moved
    ensures { result ≡ on_show c }
{
    tells(c, Head::Used(c.used), Tail::All(c.mark))
}

// Pieces with the names of this family: the places of the names are in the pieces' kinds (crate bench_say).
fn put(out: &mut [u8], at: usize, p: Pieces) -> usize
    ensures { PutsAll (pieces_texts names p) out.old at result out.new }
{
    bench_say::put(
        out,
        at,
        b"0,0 used , last , last absent,0 seconds , mark , next , records , first , first absent,0 in , refused , used ",
        p,
    )
}

// A mark's bytes in use behind a name, and its last seconds.
fn mark(a: usize, m: Mark) -> Pieces
    ensures { result ≡ mark_pieces a m.used m.last }
{
    match m.last {
        None => Pieces(a, m.used as u64, 0x31, 0, 0, 0, 0),
        Some(t) => Pieces(a, m.used as u64, 0x22, t as u64, 0, 0, 0),
    }
}

// A summary but for its counts.
fn times(records: u32, first: Option<u32>, last: Option<u32>) -> Pieces
    ensures { result ≡ summary_pieces records first last }
{
    let n = records as u64;
    match (first, last) {
        (None, None) => Pieces(0x72, n, 0x91, 0, 0x31, 0, 0),
        (None, Some(u)) => Pieces(0x72, n, 0x91, 0, 0x22, u as u64, 0),
        (Some(t), None) => Pieces(0x72, n, 0x82, t as u64, 0x31, 0, 0),
        (Some(t), Some(u)) => Pieces(0x72, n, 0x82, t as u64, 0x22, u as u64, 0),
    }
}

// A number behind a blank.
fn number(out: &mut [u8], at: usize, n: u32) -> usize
    ensures { PutsAll ((32 ∷ []) ∷ decimal_of n ∷ []) out.old at result out.new }
{
    let e = lent::byte(out, at, b' ');
    text::decimal(out, e, n as u64)
}

// Eleven of them.
fn numbers(out: &mut [u8], at: usize, n: &[u32; 11]) -> usize
    ensures { PutsAll (numbers_texts 11 0 n.now) out.old at result out.new }
{
    let mut e = at;
    for k in n {
        e = number(out, e, *k);
    }
    e
}

// A summary.
fn summary(out: &mut [u8], at: usize, x: Summary) -> usize
    ensures { PutsAll (summary_texts x) out.old at result out.new }
{
    let counts = x.counts;
    let e = put(out, at, times(x.records, x.first, x.last));
    let f = lent::word(out, e, b" counts");
    numbers(out, f, &counts)
}

// How an answer begins.
fn front(h: Head) -> Pieces
    ensures { result ≡ head_pieces h }
{
    match h {
        Head::Done => Pieces(0x01, 0, 0, 0, 0, 0, 0),
        Head::Used(n) => Pieces(0x12, n as u64, 0, 0, 0, 0, 0),
        Head::Ran(n, k, u) => Pieces(0xA2, n as u64, 0xB2, k as u64, 0xC2, u as u64, 0),
        Head::Open(m) => mark(0x12, m),
        Head::At(t) => Pieces(0x42, t as u64, 0, 0, 0, 0, 0),
        Head::Refused(k) => Pieces(4, k.number() as u64, 0, 0, 0, 0, 0),
    }
}

// The answer of a call, with the summary that it shows, and with bytes: of a record its datagram, of the capture its buffer.
pub fn say(out: &mut [u8], at: usize, h: Head, t: Tail, x: Summary, bytes: &[u8]) -> usize
    ensures { PutsAll (head_texts h ++ tail_texts t x bytes.now) out.old at result out.new }
{
    let e = put(out, at, front(h));
    match t {
        Tail::Nothing => e,
        Tail::Counted => summary(out, e, x),
        Tail::Next(n) => {
            let f = bench_say::run(out, e, b" datagram", bytes);
            put(out, f, Pieces(0x62, n as u64, 0, 0, 0, 0, 0))
        }
        Tail::All(m) => {
            let f = bench_say::run(out, e, b" bytes", bytes);
            let g = summary(out, f, x);
            put(out, g, mark(0x52, m))
        }
    }
}
