// What the program corridor tells beside its sheet, put into a lent buffer from a place on: why there is no sheet, with the refusal's number,
// what it means, and where in the capture; and how far it has read. It leans on crate by_parts for what is known of the capture, on crates
// lent and text for what is put. docs/SHEET.md, "Lines on standard error".
#![tactic(auto)]

ghost use Rattle.lent.specs.All.{PutsAll};
ghost use Rattle.refusal.specs.Refusals.{number_of};
ghost use Rattle.sheet_told.specs.Told.{place_texts, bad_texts, level_texts, reason_texts, refused_texts, read_texts};

use by_parts::{SoFar, Stage};
use passing::Passed;
use refusal::Refusal;
use season::Boundaries;

// Which record, and where it begins.
fn place(out: &mut [u8], at: usize, x: Passed) -> usize
    ensures { PutsAll (place_texts x) out.old at result out.new }
{
    let a = lent::word(out, at, b"15 BAD_RECORD: record ");
    let b = text::decimal(out, a, season::plus(x.records, 1));
    let c = lent::word(out, b, b", which begins at byte ");
    text::decimal(out, c, season::plus(x.bytes, 1))
}

// 15: no byte at all, the end inside a record, or a bad one.
fn bad(out: &mut [u8], at: usize, stage: Stage, x: Passed) -> usize
    ensures { PutsAll (bad_texts stage x) out.old at result out.new }
{
    match stage {
        Stage::Fresh => lent::word(
            out,
            at,
            b"15 BAD_RECORD: no byte at all (byte 0): a capture begins with its version",
        ),
        Stage::Of(_) => {
            let e = place(out, at, x);
            lent::word(out, e, b", is cut short by the end")
        }
        Stage::Refused(_) => {
            let e = place(out, at, x);
            lent::word(
                out,
                e,
                b", has a length, a time or a datagram that cannot be",
            )
        }
    }
}

// 20: the boundaries.
fn level(out: &mut [u8], at: usize, b: Boundaries) -> usize
    ensures { PutsAll (level_texts b) out.old at result out.new }
{
    let c = lent::word(out, at, b"20 NOT_RISING: the boundaries do not rise: ");
    let d = text::decimal(out, c, b.first as u64);
    let e = lent::word(out, d, b", ");
    let f = text::decimal(out, e, b.second as u64);
    let g = lent::word(out, f, b", ");
    text::decimal(out, g, b.third as u64)
}

// The refusal of a report: of any other its number.
fn reason(out: &mut [u8], at: usize, x: SoFar, refusal: Refusal) -> usize
    ensures { PutsAll (reason_texts x (number_of refusal)) out.old at result out.new }
{
    match refusal {
        Refusal::UnknownVersion => lent::word(
            out,
            at,
            b"14 UNKNOWN_VERSION: the first byte (byte 0) is neither 01 nor 02: no capture, or one of another version",
        ),
        Refusal::BadRecord => bad(out, at, x.stage, x.passed),
        Refusal::NotRising => level(out, at, x.bounds),
        _ => text::decimal(out, at, refusal.number() as u64),
    }
}

// Puts the line that tells why there is no sheet.
pub fn refused(out: &mut [u8], at: usize, x: SoFar, refusal: Refusal) -> usize
    ensures { PutsAll (refused_texts x (number_of refusal)) out.old at result out.new }
{
    let e = lent::word(out, at, b"corridor: ");
    let f = reason(out, e, x, refusal);
    lent::byte(out, f, b'\n')
}

// Puts the line that tells how far a capture was read: so many bytes, and so many records that they have whole.
pub fn read(out: &mut [u8], at: usize, bytes: u64, records: u64) -> usize
    ensures { PutsAll (read_texts bytes records) out.old at result out.new }
{
    let a = lent::word(out, at, b"corridor: read ");
    let b = text::decimal(out, a, bytes);
    let c = lent::word(out, b, b" bytes, ");
    let d = text::decimal(out, c, records);
    lent::word(out, d, b" records\n")
}
