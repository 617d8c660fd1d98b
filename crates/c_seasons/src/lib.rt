// Seasons of one corridor as programs in C have them: the structs that crate wickanchor takes and hands over, laid out as C does, and what
// turns the answers of crates report and by_parts into them, and corridors, boundaries and the state of a report between two parts back.
// Times and refusals stand as crate c_capture puts them, MAC addresses as c_datagrams does. Each contract is an equation over what the answer
// says, and every value of a struct that is handed in has a meaning. Document 02, W-213.
#![tactic(auto)]

ghost use Rattle.std.specs.Prelude.{◌≡◌, map};
ghost use Rattle.refusal.specs.Answer.{said};
ghost use Rattle.by_parts.specs.declared.Stage.TheVariants.{Refused};
ghost use Rattle.by_parts.specs.Numbered.{refusal_of};
ghost use Rattle.c_seasons.specs.Seasons.{corridor_in, corridor_out, boundaries_in, boundaries_out, season_in, season_out, seasons_out};
ghost use Rattle.c_seasons.specs.States.{stage_in, version_no, stage_no, stage_refusal, passed_in, state_in, state_out};

use by_parts::{Held, SoFar, Stage};
use c_datagrams::WickMac;
use event::Layout;
use passing::Passed;
use refusal::Refusal;
use season::{Boundaries, Corridor, Season};
use tally::Tally;

// Whose events are reported: one controller, one target and one instance.
#[derive(Clone, Copy)]
#[repr(C)]
#[derive(Drop)]
pub struct WickCorridor {
    pub mac: WickMac,
    pub target: u32,
    pub instance: u8,
}

// Where the second, the third and the fourth season begin, in seconds.
#[derive(Clone, Copy)]
#[repr(C)]
#[derive(Drop)]
pub struct WickBoundaries {
    pub first: u32,
    pub second: u32,
    pub third: u32,
}

// A season: how many events of the three types lie in it, the longest gap, the total of the gaps and their number.
#[derive(Clone, Copy)]
#[repr(C)]
#[derive(Drop)]
pub struct WickSeason {
    pub occupied: u64,
    pub presses: u64,
    pub holds: u64,
    pub has_longest: u8,
    pub longest: u32,
    pub total: u64,
    pub gaps: u64,
}

// What a report gives: the four seasons.
#[repr(C)]
#[derive(Drop)]
pub struct WickSeasons {
    pub refusal: u8,
    pub seasons: [WickSeason; tally::SEASONS],
}

// A report between two parts of a capture: whose it is; the number of its stage, and that of a refusal beside it; the good records that were
// passed, how many bytes they have, and the last one's seconds; the tally of them, with the seconds of the last occupied event; and how many
// bytes are held of the next, these in front.
#[derive(Clone, Copy)]
#[repr(C)]
#[derive(Drop)]
pub struct WickSeasonsState {
    pub who: WickCorridor,
    pub boundaries: WickBoundaries,
    pub stage: u8,
    pub refusal: u8,
    pub records: u64,
    pub bytes: u64,
    pub has_last: u8,
    pub last: u32,
    pub seasons: [WickSeason; tally::SEASONS],
    pub has_occupied: u8,
    pub occupied: u32,
    pub held: [u8; by_parts::ROOM],
    pub len: usize,
}

// A corridor of crate season, and back.
pub fn corridor_in(w: WickCorridor) -> Corridor
    ensures { result ≡ corridor_in w }
{
    Corridor {
        mac: c_datagrams::mac_in(w.mac),
        target: w.target,
        instance: w.instance,
    }
}

fn corridor_out(c: Corridor) -> WickCorridor
    ensures { result ≡ corridor_out c }
{
    WickCorridor {
        mac: WickMac {
            b0: c.mac.0,
            b1: c.mac.1,
            b2: c.mac.2,
            b3: c.mac.3,
            b4: c.mac.4,
            b5: c.mac.5,
        },
        target: c.target,
        instance: c.instance,
    }
}

// Boundaries of crate season, and back.
pub fn boundaries_in(w: WickBoundaries) -> Boundaries
    ensures { result ≡ boundaries_in w }
{
    Boundaries {
        first: w.first,
        second: w.second,
        third: w.third,
    }
}

fn boundaries_out(b: Boundaries) -> WickBoundaries
    ensures { result ≡ boundaries_out b }
{
    WickBoundaries {
        first: b.first,
        second: b.second,
        third: b.third,
    }
}

// A season of crate season, and back.
fn season_in(w: WickSeason) -> Season
    ensures { result ≡ season_in w }
{
    Season {
        occupied: w.occupied,
        presses: w.presses,
        holds: w.holds,
        longest: c_capture::time_in(w.has_longest, w.longest),
        total: w.total,
        gaps: w.gaps,
    }
}

fn season_out(s: Season) -> WickSeason
    ensures { result ≡ season_out s }
{
    WickSeason {
        occupied: s.occupied,
        presses: s.presses,
        holds: s.holds,
        has_longest: c_capture::time_is(s.longest),
        longest: c_capture::time_no(s.longest),
        total: s.total,
        gaps: s.gaps,
    }
}

// The four seasons, and back. (The hints here and below: a state and a report that are handed to C are written straight into its struct.)
#[inline(always)]
fn four_in(w: [WickSeason; tally::SEASONS]) -> [Season; tally::SEASONS]
    ensures { result ≡ map season_in w }
{
    w.map(season_in)
}

#[inline(always)]
fn four_out(s: [Season; tally::SEASONS]) -> [WickSeason; tally::SEASONS]
    ensures { result ≡ map season_out s }
{
    s.map(season_out)
}

// What a report answers; beside a refusal stand these seasons.
#[inline(always)]
pub fn seasons_out(
    r: Result<[Season; tally::SEASONS], Refusal>,
    or: [Season; tally::SEASONS],
) -> WickSeasons
    ensures { result ≡ seasons_out (said r) or }
{
    match r {
        Ok(seasons) => WickSeasons {
            refusal: 0,
            seasons: four_out(seasons),
        },
        Err(refusal) => WickSeasons {
            refusal: refusal.number(),
            seasons: four_out(or),
        },
    }
}

// The stage of a capture that is refused, by the refusal's number.
fn refused(number: u8) -> Stage
    ensures { result ≡ Refused (refusal_of number) }
{
    Stage::Refused(Refusal::from(number))
}

// A stage by its number and that of a refusal: every number but 0, 1 and 2 says that the capture is refused.
fn stage_in(n: u8, refusal: u8) -> Stage
    ensures { result ≡ stage_in n refusal }
{
    match n {
        0 => Stage::Fresh,
        1 => Stage::Of(Layout::Three),
        2 => Stage::Of(Layout::Two),
        _ => refused(refusal),
    }
}

// The version byte of a layout.
fn version_no(l: Layout) -> u8
    ensures { result ≡ version_no l }
{
    match l {
        Layout::Three => 1,
        Layout::Two => 2,
    }
}

// The number of a stage, and that of its refusal, 0 where there is none.
fn stage_no(s: Stage) -> u8
    ensures { result ≡ stage_no s }
{
    match s {
        Stage::Fresh => 0,
        Stage::Of(l) => version_no(l),
        Stage::Refused(_) => 3,
    }
}

fn stage_refusal(s: Stage) -> u8
    ensures { result ≡ stage_refusal s }
{
    match s {
        Stage::Fresh | Stage::Of(_) => 0,
        Stage::Refused(refusal) => refusal.number(),
    }
}

// The good records that a state has passed.
fn passed_in(w: WickSeasonsState) -> Passed
    ensures { result ≡ passed_in w }
{
    Passed {
        records: w.records,
        bytes: w.bytes,
        last: c_capture::time_in(w.has_last, w.last),
        tally: Tally {
            seasons: four_in(w.seasons),
            last: c_capture::time_in(w.has_occupied, w.occupied),
        },
    }
}

// A state of crate by_parts, and back.
#[inline(always)]
pub fn state_in(w: WickSeasonsState) -> SoFar
    ensures { result ≡ state_in w }
{
    let bytes = w.held;
    SoFar {
        who: corridor_in(w.who),
        bounds: boundaries_in(w.boundaries),
        stage: stage_in(w.stage, w.refusal),
        passed: passed_in(w),
        held: Held { bytes, len: w.len },
    }
}

#[inline(always)]
pub fn state_out(x: SoFar) -> WickSeasonsState
    ensures { result ≡ state_out x }
{
    let passed = x.passed;
    let tally = passed.tally;
    let held = x.held.bytes;
    WickSeasonsState {
        who: corridor_out(x.who),
        boundaries: boundaries_out(x.bounds),
        stage: stage_no(x.stage),
        refusal: stage_refusal(x.stage),
        records: passed.records,
        bytes: passed.bytes,
        has_last: c_capture::time_is(passed.last),
        last: c_capture::time_no(passed.last),
        seasons: four_out(tally.seasons),
        has_occupied: c_capture::time_is(tally.last),
        occupied: c_capture::time_no(tally.last),
        held,
        len: x.held.len,
    }
}
