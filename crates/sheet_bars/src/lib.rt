// The bars of the sheet of one corridor: how many marks a bar of the page has, and a bar of the picture, put into a lent buffer from a place on. It
// leans on crate figures for shares, on lent and text for what is put. docs/SHEET.md, "`--text`" and `--svg`.
#![tactic(auto)]

ghost use Rattle.std.specs.Prelude.{◌≤◌, ◌≡◌, [], ◌∷◌};
ghost use Rattle.text.specs.Text.{decimal_of};
ghost use Rattle.lent.specs.All.{PutsAll};
ghost use Rattle.sheet_bars.specs.Bars.{bar_length, bar_texts, above_texts};

// The line on which the bars of the picture stand.
const FLOOR: u64 = 310;

// How many marks the bar of a count has, where most is the greatest.
#[tactic(auto, using(figures::specs::Share::share_most))]
pub fn length_of(n: u64, most: u64) -> usize
    ensures { (result ≡ bar_length n most) × (result ≤ 40) }
{
    let k = figures::share(n, most, 40) as usize;
    if n == 0 { k } else { k.max(1) }
}

// A text, and a number behind it.
pub fn numbered(out: &mut [u8], at: usize, s: &[u8], n: u64) -> usize
    ensures { PutsAll (s.now ∷ decimal_of n ∷ []) out.old at result out.new }
{
    let e = lent::word(out, at, s);
    text::decimal(out, e, n)
}

// A bar of the picture.
pub fn bar(out: &mut [u8], at: usize, x: u16, h: u8, colour: &[u8]) -> usize
    ensures { PutsAll (bar_texts x h colour.now) out.old at result out.new }
{
    let a = numbered(out, at, b"<rect x=\"", x as u64);
    let b = numbered(out, a, b"\" y=\"", FLOOR - h as u64);
    let c = numbered(out, b, b"\" width=\"28\" height=\"", h as u64);
    let d = lent::word(out, c, b"\" fill=\"");
    let e = lent::word(out, d, colour);
    lent::word(out, e, b"\"/>")
}

// Where the value of a bar of the picture stands.
pub fn above(out: &mut [u8], at: usize, x: u16, h: u8) -> usize
    ensures { PutsAll (above_texts x h) out.old at result out.new }
{
    let a = numbered(out, at, b"<text x=\"", x as u64 + 14);
    let b = numbered(out, a, b"\" y=\"", FLOOR - h as u64 - 4);
    lent::word(out, b, b"\" text-anchor=\"middle\" font-size=\"10\">")
}
