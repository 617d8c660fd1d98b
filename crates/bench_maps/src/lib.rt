// Reply data as the bench's answers. docs/BENCH.md, "Reply data". It leans on crate bench_say, and on crates maps and filters
// for what is said.
#![tactic(auto)]

ghost use Rattle.std.specs.Prelude.{◌≡◌};
ghost use Rattle.lent.specs.All.{PutsAll};
ghost use Rattle.bench_maps.specs.Maps.{data_texts};
ghost use Rattle.bench_maps.specs.Pieces.{numbered_pieces, filters_pieces, entry_pieces, data_pieces};

use bench_say::Pieces;
use filters::{Filter, Filters};
use refusal::Refusal;

// What a call of this family answers.
#[derive(Clone, Copy, Debug, PartialEq, Eq)]
pub enum Data {
    Number(u16),
    Bits16(Result<u16, Refusal>),
    Bits32(Result<u32, Refusal>),
    Bits64(Result<u64, Refusal>),
    Count(u32),
    Lowest(Result<u32, Refusal>),
    Filters(Result<Filters, Refusal>),
    Filter(Result<Filter, Refusal>),
}

// The kinds of pieces have the places of their names, which stand in `say` (crate bench_say).
// A number behind the name of this kind, or a refusal.
fn numbered(kind: usize, r: Result<u64, Refusal>) -> Pieces
    ensures { result ≡ numbered_pieces kind r }
{
    match r {
        Ok(n) => Pieces(kind, n, 0, 0, 0, 0, 0),
        Err(k) => Pieces(4, k.number() as u64, 0, 0, 0, 0, 0),
    }
}

// The filters of a reply.
fn filters(h: Result<Filters, Refusal>) -> Pieces
    ensures { result ≡ filters_pieces h }
{
    match h {
        Ok(f) => Pieces(0x42, f.mode as u64, 0x52, f.entries as u64, 0, 0, 0),
        Err(k) => Pieces(4, k.number() as u64, 0, 0, 0, 0, 0),
    }
}

// One entry.
fn entry(f: Result<Filter, Refusal>) -> Pieces
    ensures { result ≡ entry_pieces f }
{
    match f {
        Ok(n) => Pieces(
            0x62,
            n.address as u64,
            0x72,
            n.instance as u64,
            0x82,
            n.mask as u64,
            0,
        ),
        Err(k) => Pieces(4, k.number() as u64, 0, 0, 0, 0, 0),
    }
}

fn answer(d: Data) -> Pieces
    ensures { result ≡ data_pieces d }
{
    match d {
        Data::Number(n) => Pieces(0x02, n as u64, 0, 0, 0, 0, 0),
        Data::Bits16(m) => numbered(0x12, m.map(|n| n as u64)),
        Data::Bits32(m) => numbered(0x12, m.map(|n| n as u64)),
        Data::Bits64(m) => numbered(0x12, m),
        Data::Count(n) => Pieces(0x22, n as u64, 0, 0, 0, 0, 0),
        Data::Lowest(l) => numbered(0x32, l.map(|n| n as u64)),
        Data::Filters(f) => filters(f),
        Data::Filter(f) => entry(f),
    }
}

// The answer of a call.
pub fn say(out: &mut [u8], at: usize, d: Data) -> usize
    ensures { PutsAll (data_texts d) out.old at result out.new }
{
    bench_say::put(
        out,
        at,
        b"0 number ,0 bits ,0 count ,0 lowest ,0 mode , entries ,0 address , instance , mask ",
        answer(d),
    )
}
