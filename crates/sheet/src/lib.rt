// The sheet of one corridor as comma-separated values, put into a lent buffer from a place on. It leans on crate figures for where a season
// begins and ends, on crates lent and text for what is put. docs/SHEET.md, "CSV".
#![tactic(auto)]

ghost use Rattle.std.specs.Prelude.{◌<◌};
ghost use Rattle.lent.specs.All.{PutsAll};
ghost use Rattle.sheet.specs.Csv.{number_field, seconds_field, when_texts, count_texts, gap_texts, row_texts, csv_texts};

use season::{Boundaries, Season};

// A number behind a comma.
fn number(out: &mut [u8], at: usize, n: u64) -> usize
    ensures { PutsAll (number_field n) out.old at result out.new }
{
    let e = lent::byte(out, at, b',');
    text::decimal(out, e, n)
}

// Seconds behind a comma: nothing behind it where they are absent.
fn seconds(out: &mut [u8], at: usize, t: Option<u32>) -> usize
    ensures { PutsAll (seconds_field t) out.old at result out.new }
{
    match t {
        None => lent::byte(out, at, b','),
        Some(s) => number(out, at, s as u64),
    }
}

// A season's number, where it begins and where it ends.
fn when(out: &mut [u8], at: usize, b: Boundaries, g: usize) -> usize
    requires { g < 4 }
    ensures { PutsAll (when_texts b g) out.old at result out.new }
{
    let e = text::decimal(out, at, (g + 1) as u64);
    let f = seconds(out, e, figures::begins(b, g));
    seconds(out, f, figures::ends(b, g))
}

// Its counts.
fn counts(out: &mut [u8], at: usize, s: Season) -> usize
    ensures { PutsAll (count_texts s) out.old at result out.new }
{
    let e = number(out, at, s.occupied);
    let f = number(out, e, s.presses);
    number(out, f, s.holds)
}

// Its gaps.
fn gaps(out: &mut [u8], at: usize, s: Season) -> usize
    ensures { PutsAll (gap_texts s) out.old at result out.new }
{
    let e = seconds(out, at, s.longest);
    let f = number(out, e, s.total);
    number(out, f, s.gaps)
}

// The row of a season, by its place from 0.
fn row(out: &mut [u8], at: usize, b: Boundaries, g: usize, s: Season) -> usize
    requires { g < 4 }
    ensures { PutsAll (row_texts b g s) out.old at result out.new }
{
    let e = when(out, at, b, g);
    let f = counts(out, e, s);
    let h = gaps(out, f, s);
    lent::byte(out, h, b'\n')
}

// Puts the sheet: the header, and a row for each season.
pub fn csv(out: &mut [u8], at: usize, b: Boundaries, seasons: [Season; tally::SEASONS]) -> usize
    ensures { PutsAll (csv_texts b seasons) out.old at result out.new }
{
    let d = lent::word(
        out,
        at,
        b"season,from,to,occupied,presses,holds,longest gap,total,gaps\n",
    );
    let e = row(out, d, b, 0, seasons[0]);
    let f = row(out, e, b, 1, seasons[1]);
    let g = row(out, f, b, 2, seasons[2]);
    row(out, g, b, 3, seasons[3])
}
