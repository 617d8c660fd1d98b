// The report of seasons on the bench: what is handed in, what is carried of one that comes in parts, and what is answered. docs/BENCH.md,
// "Seasons". It leans on crates bench_words and bench_say, and on crates season, report and by_parts for what is said.
#![tactic(auto)]

ghost use Rattle.std.specs.Prelude.{◌≡◌};
ghost use Rattle.refusal.specs.Answer.{said};
ghost use Rattle.lent.specs.All.{PutsAll};
ghost use Rattle.bench_say.specs.Pieces.{pieces_texts};
ghost use Rattle.bench_seasons.specs.Told.{corridor_in, boundaries_in, season_texts, report_texts};
ghost use Rattle.bench_seasons.specs.Carried.{begun_in, at_first, moved_by, told_by};
ghost use Rattle.bench_seasons.specs.Pieces.{names, held_pieces};

use bench_say::Pieces;
use by_parts::SoFar;
use event::Mac;
use refusal::Refusal;
use season::{Boundaries, Corridor, Season};

// The corridor that is handed in.
pub fn corridor_in(s: &[u8]) -> Corridor
    ensures { result ≡ corridor_in s.now }
{
    Corridor {
        mac: Mac(
            bench_words::byte_at(s, 0),
            bench_words::byte_at(s, 1),
            bench_words::byte_at(s, 2),
            bench_words::byte_at(s, 3),
            bench_words::byte_at(s, 4),
            bench_words::byte_at(s, 5),
        ),
        target: bench_words::wide32(bench_words::part(s, 6, 10)),
        instance: bench_words::byte_at(s, 10),
    }
}

// The boundaries that are handed in behind it.
pub fn boundaries_in(s: &[u8]) -> Boundaries
    ensures { result ≡ boundaries_in s.now }
{
    Boundaries {
        first: bench_words::wide32(bench_words::part(s, 11, 15)),
        second: bench_words::wide32(bench_words::part(s, 15, 19)),
        third: bench_words::wide32(bench_words::part(s, 19, 23)),
    }
}

// A report of which no part has come, of the corridor and the boundaries that are handed in.
fn begun_in(s: &[u8]) -> SoFar
    ensures { result ≡ begun_in s.now }
{
    by_parts::begin(corridor_in(s), boundaries_in(s))
}

// What is carried at first: as begun with 23 bytes 00.
pub fn fresh() -> SoFar
    ensures { result ≡ at_first }
{
    begun_in(&[0u8; 23])
}

// What is carried behind a call, by its number: D1 begins, D2 takes a part, D3 and every other move nothing.
pub fn moved(n: usize, x: SoFar, s: &[u8]) -> SoFar
    ensures { result ≡ moved_by n x s.now }
{
    match n {
        0xD1 => begun_in(s),
        0xD2 => by_parts::part(x, s),
        _ => x,
    }
}

// Pieces with the names of this family: the places of the names are in the pieces' kinds (crate bench_say).
fn put(out: &mut [u8], at: usize, p: Pieces) -> usize
    ensures { PutsAll (pieces_texts names p) out.old at result out.new }
{
    bench_say::put(
        out,
        at,
        b" season , occupied , presses , holds , longest , longest absent, total , gaps ",
        p,
    )
}

// Holds, the longest gap and the total.
fn held(holds: u64, longest: Option<u32>, total: u64) -> Pieces
    ensures { result ≡ held_pieces holds longest total }
{
    match longest {
        None => Pieces(0x32, holds, 0x51, 0, 0x62, total, 0),
        Some(g) => Pieces(0x32, holds, 0x42, g as u64, 0x62, total, 0),
    }
}

// One season.
fn season(out: &mut [u8], at: usize, n: u64, s: Season) -> usize
    ensures { PutsAll (season_texts n s) out.old at result out.new }
{
    let e = put(
        out,
        at,
        Pieces(0x02, n, 0x12, s.occupied, 0x22, s.presses, 0),
    );
    let f = put(out, e, held(s.holds, s.longest, s.total));
    put(out, f, Pieces(0x72, s.gaps, 0, 0, 0, 0, 0))
}

// The four seasons, or the refusal.
pub fn say(out: &mut [u8], at: usize, r: Result<[Season; tally::SEASONS], Refusal>) -> usize
    ensures { PutsAll (report_texts (said r)) out.old at result out.new }
{
    match r {
        Err(refusal) => text::decimal(out, at, refusal.number() as u64),
        Ok(seasons) => {
            let e = lent::byte(out, at, b'0');
            let f = season(out, e, 1, seasons[0]);
            let g = season(out, f, 2, seasons[1]);
            let h = season(out, g, 3, seasons[2]);
            season(out, h, 4, seasons[3])
        }
    }
}

// The answer of a call, by its number and what is carried behind it: of D3 the report of all parts so far, of every other that it went well.
pub fn tell(out: &mut [u8], at: usize, n: usize, x: SoFar) -> usize
    ensures { PutsAll (told_by n x) out.old at result out.new }
{
    if n == 0xD3 {
        say(out, at, by_parts::end(x))
    } else {
        lent::byte(out, at, b'0')
    }
}
