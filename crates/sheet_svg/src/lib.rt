// The picture of the sheet of one corridor, in SVG: for each season four bars, and below them its name and its times. Everything is put
// into a lent buffer, from a place on; each function answers the place behind what it put. It leans on crate figures for what the forms of
// the sheet share, on crate sheet_bars for a bar, on season for a season, on lent and text for what is put. docs/SHEET.md, `--svg`.
#![tactic(auto)]

ghost use Rattle.std.specs.Prelude.{◌+◌, ◌≡◌};
ghost use Rattle.lent.specs.Puts.{Puts};
ghost use Rattle.lent.specs.All.{PutsAll};
ghost use Rattle.figures.specs.Figures.{share_of, span_or};
ghost use Rattle.sheet_svg.specs.Picture.{head_texts, legend_texts, most_in, most_of, longest_of, scale_of, left_texts, right_texts};
ghost use Rattle.sheet_svg.specs.Picture.{count_line, gap_height, hours_texts, gap_line, place_of, bars_texts, name_line, time_line};
ghost use Rattle.sheet_svg.specs.Picture.{season_texts, four_texts, end_texts, picture_texts};

use season::{Boundaries, Corridor, Season};

// How high the highest bar is.
const HIGH: u8 = 240;

// What the highest bars stand for: the greatest of the twelve counts, and the longest of the longest gaps.
#[derive(Clone, Copy)]
struct Scale {
    most: u64,
    longest: Option<u32>,
}

// The picture's frame and its title.
fn head(out: &mut [u8], at: usize, who: Corridor) -> usize
    ensures { PutsAll (head_texts who) out.old at result out.new }
{
    let a = lent::word(
        out,
        at,
        b"<svg xmlns=\"http://www.w3.org/2000/svg\" width=\"820\" height=\"370\" viewBox=\"0 0 820 370\" font-family=\"sans-serif\" font-size=\"12\">\n",
    );
    let b = lent::word(
        out,
        a,
        b"<rect width=\"820\" height=\"370\" fill=\"#ffffff\"/>\n",
    );
    let c = lent::word(out, b, b"<text x=\"60\" y=\"24\" font-size=\"14\">");
    let d = figures::put_title(out, c, who);
    lent::word(out, d, b"</text>\n")
}

// What the colours are of.
fn legend(out: &mut [u8], at: usize) -> usize
    ensures { PutsAll legend_texts out.old at result out.new }
{
    let a = lent::word(
        out,
        at,
        b"<rect x=\"60\" y=\"34\" width=\"12\" height=\"12\" fill=\"#1f77b4\"/><text x=\"76\" y=\"44\">occupied</text>\n",
    );
    let b = lent::word(
        out,
        a,
        b"<rect x=\"180\" y=\"34\" width=\"12\" height=\"12\" fill=\"#ff7f0e\"/><text x=\"196\" y=\"44\">presses</text>\n",
    );
    let c = lent::word(
        out,
        b,
        b"<rect x=\"300\" y=\"34\" width=\"12\" height=\"12\" fill=\"#2ca02c\"/><text x=\"316\" y=\"44\">holds</text>\n",
    );
    lent::word(
        out,
        c,
        b"<rect x=\"420\" y=\"34\" width=\"12\" height=\"12\" fill=\"#7f7f7f\"/><text x=\"436\" y=\"44\">longest gap (right axis)</text>\n",
    )
}

// The greatest of a season's three counts.
fn most_in(s: Season) -> u64
    ensures { result ≡ most_in s }
{
    figures::greatest(s.occupied, s.presses, s.holds, 0)
}

// The greatest of the twelve counts.
fn most_of(seasons: [Season; tally::SEASONS]) -> u64
    ensures { result ≡ most_of seasons }
{
    let a = most_in(seasons[0]);
    let b = most_in(seasons[1]);
    let c = most_in(seasons[2]);
    let d = most_in(seasons[3]);
    figures::greatest(a, b, c, d)
}

// The longest of the longest gaps, or none.
fn longest_of(seasons: [Season; tally::SEASONS]) -> Option<u32>
    ensures { result ≡ longest_of seasons }
{
    let a = season::longer(seasons[0].longest, seasons[1].longest);
    let b = season::longer(seasons[2].longest, seasons[3].longest);
    season::longer(a, b)
}

// What the highest bars stand for.
fn scale_of(seasons: [Season; tally::SEASONS]) -> Scale
    ensures { result ≡ scale_of seasons }
{
    Scale {
        most: most_of(seasons),
        longest: longest_of(seasons),
    }
}

// A span, or `-` where it is not there.
fn span_or(out: &mut [u8], at: usize, t: Option<u32>) -> usize
    ensures { Puts (span_or t) out.old at result out.new }
{
    match t {
        None => lent::word(out, at, b"-"),
        Some(s) => figures::put_span(out, at, s as u64),
    }
}

// The lines across the picture, and what the left axis says.
fn left(out: &mut [u8], at: usize, most: u64) -> usize
    ensures { PutsAll (left_texts most) out.old at result out.new }
{
    let a = lent::word(
        out,
        at,
        b"<path d=\"M60 70H700M60 190H700\" stroke=\"#cccccc\"/>\n",
    );
    let b = sheet_bars::numbered(
        out,
        a,
        b"<text x=\"54\" y=\"74\" text-anchor=\"end\">",
        most,
    );
    let c = lent::word(out, b, b"</text>\n");
    lent::word(
        out,
        c,
        b"<text x=\"54\" y=\"314\" text-anchor=\"end\">0</text>\n",
    )
}

// What the right axis says.
fn right(out: &mut [u8], at: usize, longest: Option<u32>) -> usize
    ensures { PutsAll (right_texts longest) out.old at result out.new }
{
    let a = lent::word(out, at, b"<text x=\"706\" y=\"74\">");
    let b = span_or(out, a, longest);
    let c = lent::word(out, b, b"</text>\n");
    lent::word(out, c, b"<text x=\"706\" y=\"314\">0</text>\n")
}

// How high the bar of a count is.
#[tactic(auto, using(figures::specs::Share::share_most))]
fn height(n: u64, most: u64) -> u8
    ensures { result ≡ share_of n most 240 }
{
    figures::share(n, most, HIGH) as u8
}

// How high the bar of a longest gap is.
fn gap_height(gap: Option<u32>, longest: Option<u32>) -> u8
    ensures { result ≡ gap_height gap longest }
{
    match (gap, longest) {
        (Some(g), Some(l)) => height(g as u64, l as u64),
        _ => 0,
    }
}

// The line of a count.
fn count_line(out: &mut [u8], at: usize, x: u16, n: u64, most: u64, colour: &[u8]) -> usize
    ensures { PutsAll (count_line x n most colour.now) out.old at result out.new }
{
    let h = height(n, most);
    let a = sheet_bars::bar(out, at, x, h, colour);
    let b = sheet_bars::above(out, a, x, h);
    let c = text::decimal(out, b, n);
    lent::word(out, c, b"</text>\n")
}

// The whole hours of a gap, or `-` where it is absent.
fn hours(out: &mut [u8], at: usize, gap: Option<u32>) -> usize
    ensures { PutsAll (hours_texts gap) out.old at result out.new }
{
    match gap {
        None => lent::word(out, at, b"-"),
        Some(g) => {
            let a = text::decimal(out, at, g as u64 / 3600);
            lent::word(out, a, b" h")
        }
    }
}

// The line of a longest gap.
fn gap_line(out: &mut [u8], at: usize, x: u16, gap: Option<u32>, longest: Option<u32>) -> usize
    ensures { PutsAll (gap_line x gap longest) out.old at result out.new }
{
    let h = gap_height(gap, longest);
    let a = sheet_bars::bar(out, at, x, h, b"#7f7f7f");
    let b = sheet_bars::above(out, a, x, h);
    let c = hours(out, b, gap);
    lent::word(out, c, b"</text>\n")
}

// A place in the part of the picture that a season has.
fn place(g: u8, d: u8) -> u16
    ensures { result ≡ place_of g d }
{
    60 + 160 * g as u16 + d as u16
}

// The four bars of a season.
fn bars(out: &mut [u8], at: usize, m: Scale, g: u8, s: Season) -> usize
    ensures { PutsAll (bars_texts m g s) out.old at result out.new }
{
    let a = count_line(out, at, place(g, 12), s.occupied, m.most, b"#1f77b4");
    let b = count_line(out, a, place(g, 46), s.presses, m.most, b"#ff7f0e");
    let c = count_line(out, b, place(g, 80), s.holds, m.most, b"#2ca02c");
    gap_line(out, c, place(g, 114), s.longest, m.longest)
}

// A season's name.
fn name_line(out: &mut [u8], at: usize, g: u8) -> usize
    ensures { PutsAll (name_line g) out.old at result out.new }
{
    let a = sheet_bars::numbered(out, at, b"<text x=\"", place(g, 77) as u64);
    let b = sheet_bars::numbered(
        out,
        a,
        b"\" y=\"328\" text-anchor=\"middle\">season ",
        g as u64 + 1,
    );
    lent::word(out, b, b"</text>\n")
}

// When it begins, or when it ends.
fn time_line(out: &mut [u8], at: usize, g: u8, s: &[u8], t: Option<u32>) -> usize
    ensures { PutsAll (time_line g s.now t) out.old at result out.new }
{
    let a = sheet_bars::numbered(out, at, b"<text x=\"", place(g, 77) as u64);
    let b = lent::word(out, a, s);
    let c = figures::put_time(out, b, t);
    lent::word(out, c, b"</text>\n")
}

// A season: its bars, its name, its times.
fn season(out: &mut [u8], at: usize, b: Boundaries, m: Scale, g: u8, s: Season) -> usize
    ensures { PutsAll (season_texts b m g s) out.old at result out.new }
{
    let c = bars(out, at, m, g, s);
    let d = name_line(out, c, g);
    let e = time_line(
        out,
        d,
        g,
        b"\" y=\"344\" text-anchor=\"middle\" font-size=\"10\">from ",
        figures::begins(b, g as usize),
    );
    time_line(
        out,
        e,
        g,
        b"\" y=\"358\" text-anchor=\"middle\" font-size=\"10\">to ",
        figures::ends(b, g as usize),
    )
}

// The four seasons.
fn four(
    out: &mut [u8],
    at: usize,
    b: Boundaries,
    m: Scale,
    seasons: [Season; tally::SEASONS],
) -> usize
    ensures { PutsAll (four_texts b m seasons) out.old at result out.new }
{
    let c = season(out, at, b, m, 0, seasons[0]);
    let d = season(out, c, b, m, 1, seasons[1]);
    let e = season(out, d, b, m, 2, seasons[2]);
    season(out, e, b, m, 3, seasons[3])
}

// The axes, over the bars, and the picture's end.
fn end(out: &mut [u8], at: usize) -> usize
    ensures { PutsAll end_texts out.old at result out.new }
{
    let a = lent::word(
        out,
        at,
        b"<path d=\"M60 70V310H700V70\" fill=\"none\" stroke=\"#000000\"/>\n",
    );
    lent::word(out, a, b"</svg>\n")
}

// Puts the picture of four seasons of a corridor.
pub fn picture(
    out: &mut [u8],
    at: usize,
    who: Corridor,
    b: Boundaries,
    seasons: [Season; tally::SEASONS],
) -> usize
    ensures { PutsAll (picture_texts who b seasons) out.old at result out.new }
{
    let m = scale_of(seasons);
    let c = head(out, at, who);
    let d = legend(out, c);
    let e = left(out, d, m.most);
    let f = right(out, e, m.longest);
    let g = four(out, f, b, m, seasons);
    end(out, g)
}
