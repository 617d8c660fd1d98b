// Captures as programs in C have them: the structs that crate wickanchor takes and hands over, laid out as C does, and what turns the
// answers of crates capture, append and morning into them, and marks and summaries back (crate c_seasons has reports). A refusal is its number
// by documents 01 and 02, and 0 stands for none. Beside a time stands a flag: 0 where it is absent, and then it is handed over as 0; every other
// flag that is handed in says that there is one. Each contract is an equation over what the answer says. Document 02, W-207 and W-208.
#![tactic(auto)]

ghost use Rattle.std.specs.Prelude.{◌-◌, ◌≡◌};
ghost use Rattle.refusal.specs.Answer.{said, said_of};
ghost use Rattle.record.specs.Record.{said_stored};
ghost use Rattle.c_capture.specs.Times.{time_in, time_is, time_no};
ghost use Rattle.c_capture.specs.Captures.{summary_in, summary_out, mark_in, mark_out, went_no, found_out, appended_out, run_out, run_at_out, opened_out, counted_out};
ghost use Rattle.c_capture.specs.Records.{stood_out};

use append::Appended;
use capture::{Kept, Mark};
use morning::{Ran, RanAt};
use record::Stored;
use refusal::Refusal;
use summary::Summary;

// A summary of records: how many there are, the first and the last seconds, and how many of each event type.
#[repr(C)]
#[derive(Drop)]
pub struct WickSummary {
    pub records: u32,
    pub has_first: u8,
    pub has_last: u8,
    pub first: u32,
    pub last: u32,
    pub counts: [u32; summary::COUNTS],
}

// How many bytes of a capture are in use, and its last record's seconds.
#[repr(C)]
#[derive(Drop)]
pub struct WickMark {
    pub used: usize,
    pub has_last: u8,
    pub last: u32,
}

// What is kept of a capture beside its bytes.
#[repr(C)]
#[derive(Drop)]
pub struct WickCapture {
    pub refusal: u8,
    pub mark: WickMark,
    pub summary: WickSummary,
}

// What an append by the letter gives: bytes in use and summary afterwards.
#[repr(C)]
#[derive(Drop)]
pub struct WickAppended {
    pub refusal: u8,
    pub used: usize,
    pub summary: WickSummary,
}

// What a run by the letter gives: how many datagrams went in and how many were refused, bytes in use and summary afterwards.
#[repr(C)]
#[derive(Drop)]
pub struct WickRan {
    pub refusal: u8,
    pub entered: usize,
    pub refused: usize,
    pub used: usize,
    pub summary: WickSummary,
}

// What a run by a mark gives: the same, with a mark in place of bytes in use.
#[repr(C)]
#[derive(Drop)]
pub struct WickRanAt {
    pub refusal: u8,
    pub entered: usize,
    pub refused: usize,
    pub mark: WickMark,
    pub summary: WickSummary,
}

// The mark of a capture that was opened.
#[repr(C)]
#[derive(Drop)]
pub struct WickOpened {
    pub refusal: u8,
    pub mark: WickMark,
}

// The summary of a capture that was counted afresh.
#[repr(C)]
#[derive(Drop)]
pub struct WickCounted {
    pub refusal: u8,
    pub summary: WickSummary,
}

// A record: its seconds, its datagram, which is n bytes of the buffer from datagram_at on, and the place of the next record.
#[repr(C)]
#[derive(Drop)]
pub struct WickRecord {
    pub refusal: u8,
    pub seconds: u32,
    pub datagram_at: usize,
    pub n: usize,
    pub next: usize,
}

// A time by its flag, and back.
pub fn time_in(has: u8, seconds: u32) -> Option<u32>
    ensures { result ≡ time_in has seconds }
{
    if has == 0 { None } else { Some(seconds) }
}

pub fn time_is(s: Option<u32>) -> u8
    ensures { result ≡ time_is s }
{
    s.is_some() as u8
}

pub fn time_no(s: Option<u32>) -> u32
    ensures { result ≡ time_no s }
{
    s.unwrap_or(0)
}

// A summary of crate summary, and back.
pub fn summary_in(w: WickSummary) -> Summary
    ensures { result ≡ summary_in w }
{
    // the borrow checker takes an array from a field by a variable only
    let counts = w.counts;
    Summary {
        records: w.records,
        first: time_in(w.has_first, w.first),
        last: time_in(w.has_last, w.last),
        counts,
    }
}

fn summary_out(x: Summary) -> WickSummary
    ensures { result ≡ summary_out x }
{
    let counts = x.counts;
    WickSummary {
        records: x.records,
        has_first: time_is(x.first),
        has_last: time_is(x.last),
        first: time_no(x.first),
        last: time_no(x.last),
        counts,
    }
}

// A mark of crate capture, and back.
pub fn mark_in(w: WickMark) -> Mark
    ensures { result ≡ mark_in w }
{
    Mark {
        used: w.used,
        last: time_in(w.has_last, w.last),
    }
}

fn mark_out(m: Mark) -> WickMark
    ensures { result ≡ mark_out m }
{
    WickMark {
        used: m.used,
        has_last: time_is(m.last),
        last: time_no(m.last),
    }
}

// The number of a refusal, 0 where a call went well.
pub fn went_no<T>(r: &Result<T, Refusal>) -> u8
    ensures { result ≡ went_no (said r.now) }
{
    match r {
        Ok(_) => 0,
        Err(k) => k.number(),
    }
}

// Mark and summary of a capture that was emptied, appended to by a mark, or found at the front of some bytes; beside a refusal stand these.
pub fn found_out(r: Result<Kept, Refusal>, or: Kept) -> WickCapture
    ensures { result ≡ found_out (said r) or }
{
    let refusal = went_no(&r);
    let kept = r.unwrap_or(or);
    WickCapture {
        refusal,
        mark: mark_out(kept.mark),
        summary: summary_out(kept.summary),
    }
}

// What an append by the letter answers; beside a refusal stand the bytes in use and the summary that were handed in.
pub fn appended_out(r: Result<Appended, Refusal>, used: usize, x: Summary) -> WickAppended
    ensures { result ≡ appended_out (said r) used x }
{
    let refusal = went_no(&r);
    let a = r.unwrap_or(Appended { used, summary: x });
    WickAppended {
        refusal,
        used: a.used,
        summary: summary_out(a.summary),
    }
}

// What a run by the letter answers; beside a refusal of the whole call stand these.
pub fn ran_out(r: Result<Ran, Refusal>, or: Ran) -> WickRan
    ensures { result ≡ run_out (said r) or }
{
    let refusal = went_no(&r);
    let r = r.unwrap_or(or);
    WickRan {
        refusal,
        entered: r.entered,
        refused: r.refused,
        used: r.used,
        summary: summary_out(r.summary),
    }
}

// What a run by a mark answers; beside a refusal of the whole call stand these.
pub fn ran_at_out(r: Result<RanAt, Refusal>, or: RanAt) -> WickRanAt
    ensures { result ≡ run_at_out (said r) or }
{
    let refusal = went_no(&r);
    let a = r.unwrap_or(or);
    WickRanAt {
        refusal,
        entered: a.entered,
        refused: a.refused,
        mark: mark_out(a.kept.mark),
        summary: summary_out(a.kept.summary),
    }
}

// What opening a capture answers; beside a refusal stands a mark of nothing.
pub fn opened_out(r: Result<Mark, Refusal>) -> WickOpened
    ensures { result ≡ opened_out (said r) }
{
    let refusal = went_no(&r);
    let mark = r.unwrap_or(Mark {
        used: 0,
        last: None,
    });
    WickOpened {
        refusal,
        mark: mark_out(mark),
    }
}

// What counting a capture afresh answers; beside a refusal stands this summary.
pub fn counted_out(r: Result<Summary, Refusal>, or: Summary) -> WickCounted
    ensures { result ≡ counted_out (said r) or }
{
    let refusal = went_no(&r);
    let x = r.unwrap_or(or);
    WickCounted {
        refusal,
        summary: summary_out(x),
    }
}

// How many bytes a record's datagram has, by the record's place and the next.
fn size_between(place: usize, next: usize) -> usize
    ensures { result ≡ next - 6 - place }
{
    next.saturating_sub(record::HEAD).saturating_sub(place)
}

// The record that begins at a place; every field beside a refusal is 0.
pub fn record_out(place: usize, r: Result<Stored, Refusal>) -> WickRecord
    ensures { result ≡ stood_out place (said_of said_stored r) }
{
    match r {
        Ok(x) => {
            let n = size_between(place, x.next);
            WickRecord {
                refusal: 0,
                seconds: x.seconds,
                datagram_at: x.next - n,
                n,
                next: x.next,
            }
        }
        Err(k) => WickRecord {
            refusal: k.number(),
            seconds: 0,
            datagram_at: 0,
            n: 0,
            next: 0,
        },
    }
}
