// The sheet of one corridor as a page of text, put into a lent buffer from a place on. It leans on crate figures for times, spans and the
// title, on crate sheet_bars for how long a bar is, on crates lent and text for what is put. docs/SHEET.md, "`--text`".
#![tactic(auto)]

ghost use Rattle.std.specs.Prelude.{◌-◌, ◌≤◌, ◌<◌, ◌≡◌, [], ◌∷◌, length, replicate};
ghost use Rattle.words.specs.Words.{text};
ghost use Rattle.text.specs.Text.{decimal_of};
ghost use Rattle.lent.specs.Puts.{Puts};
ghost use Rattle.lent.specs.All.{PutsAll};
ghost use Rattle.figures.specs.Figures.{greater_of, span_text, span_or, time_or};
ghost use Rattle.sheet_text.specs.Layout.{feed, right as right_in, left as left_in, bar as bar_of};
ghost use Rattle.sheet_text.specs.Page.{season_texts, counts_head, when_texts, count_texts, counts_row, counts_texts, gaps_head, mean_or, gaps_row, gaps_texts};
ghost use Rattle.sheet_text.specs.Page.{bar_row, bar_rows, bars_of, bars_texts, page_texts};

use season::{Boundaries, Corridor, Season};

// How wide a bar is. No column is wider.
const WIDEST: usize = 40;

// So many times a byte.
fn same(out: &mut [u8], at: usize, b: u8, n: usize) -> usize
    requires { n ≤ 40 }
    ensures { Puts (replicate n b) out.old at result out.new }
{
    let all = [b; WIDEST];
    lent::word(out, at, &all[..n])
}

// How many blanks stand in front of n bytes that are right in w: one at least.
fn gap(w: usize, n: usize) -> usize
    requires { w ≤ 40 }
    ensures { (result ≡ greater_of 1 (w - n)) × (result ≤ 40) }
{
    w.saturating_sub(n).max(1)
}

// A run of bytes, right in w.
fn right(out: &mut [u8], at: usize, s: &[u8], w: usize) -> usize
    requires { w ≤ 40 }
    ensures { PutsAll (right_in w s.now) out.old at result out.new }
{
    let e = same(out, at, b' ', gap(w, s.len()));
    lent::word(out, e, s)
}

// A number, right in w.
fn number(out: &mut [u8], at: usize, n: u64, w: usize) -> usize
    requires { w ≤ 40 }
    ensures { PutsAll (right_in w (decimal_of n)) out.old at result out.new }
{
    let e = same(out, at, b' ', gap(w, text::places(n)));
    text::decimal(out, e, n)
}

// A span of seconds, right in 19. It is made aside first: its length tells the blanks.
fn span(out: &mut [u8], at: usize, seconds: u64) -> usize
    ensures { PutsAll (right_in 19 (span_text seconds)) out.old at result out.new }
{
    let mut aside = [0u8; figures::SPAN];
    let n = figures::put_span(&mut aside, 0, seconds);
    right(out, at, &aside[..n], 19)
}

// The span of a longest gap, right in 19.
fn longest(out: &mut [u8], at: usize, t: Option<u32>) -> usize
    ensures { PutsAll (right_in 19 (span_or t)) out.old at result out.new }
{
    match t {
        None => right(out, at, b"-", 19),
        Some(s) => span(out, at, s as u64),
    }
}

// The span of a mean gap, right in 19.
fn mean(out: &mut [u8], at: usize, s: Season) -> usize
    ensures { PutsAll (right_in 19 (mean_or s)) out.old at result out.new }
{
    if s.gaps == 0 {
        return right(out, at, b"-", 19);
    }
    span(out, at, s.total / s.gaps)
}

// How many blanks stand behind a time that is left in 19.
fn behind(t: Option<u32>) -> usize
    ensures { (result ≡ 19 - length (time_or t)) × (result ≤ 40) }
{
    match t {
        None => 18,
        Some(_) => 0,
    }
}

// A time behind two blanks, left in 19.
fn time(out: &mut [u8], at: usize, t: Option<u32>) -> usize
    ensures { PutsAll (text "  " ∷ left_in 19 (time_or t)) out.old at result out.new }
{
    let e = lent::word(out, at, b"  ");
    let f = figures::put_time(out, e, t);
    same(out, f, b' ', behind(t))
}

// Five blanks and a season's number, by its place from 0.
fn season(out: &mut [u8], at: usize, g: usize) -> usize
    requires { g < 4 }
    ensures { PutsAll (season_texts g) out.old at result out.new }
{
    let e = lent::word(out, at, b"     ");
    text::decimal(out, e, (g + 1) as u64)
}

// Its number, where it begins and where it ends.
fn when(out: &mut [u8], at: usize, b: Boundaries, g: usize) -> usize
    requires { g < 4 }
    ensures { PutsAll (when_texts b g) out.old at result out.new }
{
    let e = season(out, at, g);
    let f = time(out, e, figures::begins(b, g));
    time(out, f, figures::ends(b, g))
}

// Its three counts, and the end of the line.
fn counts(out: &mut [u8], at: usize, s: Season) -> usize
    ensures { PutsAll (count_texts s) out.old at result out.new }
{
    let e = number(out, at, s.occupied, 11);
    let f = number(out, e, s.presses, 11);
    let h = number(out, f, s.holds, 11);
    lent::byte(out, h, b'\n')
}

// Its row of counts.
fn counts_row(out: &mut [u8], at: usize, b: Boundaries, g: usize, s: Season) -> usize
    requires { g < 4 }
    ensures { PutsAll (counts_row b g s) out.old at result out.new }
{
    let e = when(out, at, b, g);
    counts(out, e, s)
}

// An empty line, and the head of the counts.
fn counts_head(out: &mut [u8], at: usize) -> usize
    ensures { PutsAll (feed ∷ counts_head ∷ []) out.old at result out.new }
{
    let e = lent::byte(out, at, b'\n');
    lent::word(
        out,
        e,
        b"season  from                 to                    occupied    presses      holds\n",
    )
}

// The counts of the four seasons.
fn put_counts(out: &mut [u8], at: usize, b: Boundaries, seasons: [Season; tally::SEASONS]) -> usize
    ensures { PutsAll (counts_texts b seasons) out.old at result out.new }
{
    let d = counts_head(out, at);
    let e = counts_row(out, d, b, 0, seasons[0]);
    let f = counts_row(out, e, b, 1, seasons[1]);
    let g = counts_row(out, f, b, 2, seasons[2]);
    counts_row(out, g, b, 3, seasons[3])
}

// A season's row of gaps.
fn gaps_row(out: &mut [u8], at: usize, g: usize, s: Season) -> usize
    requires { g < 4 }
    ensures { PutsAll (gaps_row g s) out.old at result out.new }
{
    let d = season(out, at, g);
    let e = longest(out, d, s.longest);
    let f = mean(out, e, s);
    let h = number(out, f, s.total, 21);
    let i = number(out, h, s.gaps, 11);
    lent::byte(out, i, b'\n')
}

// An empty line, and the head of the gaps.
fn gaps_head(out: &mut [u8], at: usize) -> usize
    ensures { PutsAll (feed ∷ gaps_head ∷ []) out.old at result out.new }
{
    let e = lent::byte(out, at, b'\n');
    lent::word(
        out,
        e,
        b"season        longest gap           mean gap        total seconds       gaps\n",
    )
}

// The gaps of the four seasons.
fn put_gaps(out: &mut [u8], at: usize, seasons: [Season; tally::SEASONS]) -> usize
    ensures { PutsAll (gaps_texts seasons) out.old at result out.new }
{
    let d = gaps_head(out, at);
    let e = gaps_row(out, d, 0, seasons[0]);
    let f = gaps_row(out, e, 1, seasons[1]);
    let g = gaps_row(out, f, 2, seasons[2]);
    gaps_row(out, g, 3, seasons[3])
}

// A bar: its marks, and blanks behind them.
fn bar(out: &mut [u8], at: usize, n: u64, most: u64) -> usize
    ensures { PutsAll (bar_of n most) out.old at result out.new }
{
    let k = sheet_bars::length_of(n, most);
    let e = same(out, at, b'#', k);
    same(out, e, b' ', WIDEST - k)
}

// A season's row of a bar.
fn bar_row(out: &mut [u8], at: usize, g: usize, n: u64, most: u64) -> usize
    requires { g < 4 }
    ensures { PutsAll (bar_row g n most) out.old at result out.new }
{
    let d = season(out, at, g);
    let e = lent::word(out, d, b"  ");
    let f = bar(out, e, n, most);
    let h = lent::word(out, f, b"  ");
    let i = text::decimal(out, h, n);
    lent::byte(out, i, b'\n')
}

// The four rows of bars of one name.
fn bar_rows(out: &mut [u8], at: usize, most: u64, k: u64, l: u64, m: u64, n: u64) -> usize
    ensures { PutsAll (bar_rows most k l m n) out.old at result out.new }
{
    let e = bar_row(out, at, 0, k, most);
    let f = bar_row(out, e, 1, l, most);
    let g = bar_row(out, f, 2, m, most);
    bar_row(out, g, 3, n, most)
}

// An empty line, a name, and its bars.
fn bars(out: &mut [u8], at: usize, name: &[u8], k: u64, l: u64, m: u64, n: u64) -> usize
    ensures { PutsAll (bars_of name.now k l m n) out.old at result out.new }
{
    let most = figures::greatest(k, l, m, n);
    let e = lent::byte(out, at, b'\n');
    let f = lent::word(out, e, name);
    let g = lent::byte(out, f, b'\n');
    bar_rows(out, g, most, k, l, m, n)
}

// The bars of occupied, of presses and of holds.
fn put_bars(out: &mut [u8], at: usize, s: Season, t: Season, u: Season, v: Season) -> usize
    ensures { PutsAll (bars_texts s t u v) out.old at result out.new }
{
    let e = bars(
        out,
        at,
        b"occupied",
        s.occupied,
        t.occupied,
        u.occupied,
        v.occupied,
    );
    let f = bars(
        out, e, b"presses", s.presses, t.presses, u.presses, v.presses,
    );
    bars(out, f, b"holds", s.holds, t.holds, u.holds, v.holds)
}

// Puts the page: the title, the counts, the gaps, and the bars.
pub fn page(
    out: &mut [u8],
    at: usize,
    who: Corridor,
    b: Boundaries,
    seasons: [Season; tally::SEASONS],
) -> usize
    ensures { PutsAll (page_texts who b seasons) out.old at result out.new }
{
    let d = figures::put_title(out, at, who);
    let e = lent::byte(out, d, b'\n');
    let f = put_counts(out, e, b, seasons);
    let g = put_gaps(out, f, seasons);
    put_bars(out, g, seasons[0], seasons[1], seasons[2], seasons[3])
}
