// The figures of the sheet of one corridor, which more than one of its forms has: the share that a bar is of, a span, a time that may not
// be there, the title, and where a season begins and ends. It leans on crate season for corridors and boundaries, on calendar for times,
// on lent and text for what is put into a lent buffer. docs/SHEET.md.
#![tactic(auto)]

ghost use Rattle.std.specs.Prelude.{◌≤◌, ◌<◌, ◌≡◌, [], ◌∷◌, length};
ghost use Rattle.text.specs.Text.{hex_of};
ghost use Rattle.words.specs.Words.{text};
ghost use Rattle.lent.specs.Puts.{Puts};
ghost use Rattle.lent.specs.All.{PutsAll};
ghost use Rattle.figures.specs.Figures.{wide, scaled_of, lesser_of, share_of, greater_of, greatest_of, two_of, span_texts, span_text};
ghost use Rattle.figures.specs.Figures.{time_or, mac_texts, number_texts, title_texts, begin_of, end_of};

use event::Mac;
use season::{Boundaries, Corridor};

// From 2^56 on a number is divided by 256 before its share is taken, so that the product fits into 64 bits.
const WIDE: u64 = 72057594037927936;

// The most that a span takes: a number of 20 digits, ` h `, two digits, ` min`.
pub const SPAN: usize = 29;

// The greatest of four.
pub fn greatest(a: u64, b: u64, c: u64, d: u64) -> u64
    ensures { result ≡ greatest_of a b c d }
{
    a.max(b).max(c.max(d))
}

// A share, where the product fits.
fn scaled(n: u64, most: u64, k: u8) -> u64
    requires { n < wide }
    ensures { result ≡ scaled_of n most k }
{
    if most == 0 {
        return 0;
    }
    n * (k as u64) / most
}

// The share of n of k, where most is the greatest: as many of k as n is of most, rounded down.
#[tactic(auto, unfolding(crate::specs::Figures::share_of))]
pub fn share(n: u64, most: u64, k: u8) -> u64
    ensures { result ≡ share_of n most k }
{
    let m = n.min(most);
    if most < WIDE {
        scaled(m, most, k)
    } else {
        scaled(m / 256, most / 256, k)
    }
}

// Puts a number below 100 with two digits.
fn put_two(out: &mut [u8], at: usize, n: u64) -> usize
    requires { n < 100 }
    ensures { Puts (two_of n) out.old at result out.new }
{
    lent::word(out, at, &[b'0' + (n / 10) as u8, b'0' + (n % 10) as u8])
}

// Puts a span in four steps.
fn span(out: &mut [u8], seconds: u64) -> usize
    ensures { PutsAll (span_texts seconds) out.old 0 result out.new }
{
    let e = text::decimal(out, 0, seconds / 3600);
    let f = lent::word(out, e, b" h ");
    let g = put_two(out, f, seconds / 60 % 60);
    lent::word(out, g, b" min")
}

// Puts a span of seconds in whole hours and whole minutes. It is made aside first: only its length tells the room.
pub fn put_span(out: &mut [u8], at: usize, seconds: u64) -> usize
    ensures { Puts (span_text seconds) out.old at result out.new }
{
    let mut aside = [0u8; SPAN];
    let n = span(&mut aside, seconds);
    lent::word(out, at, &aside[..n])
}

// Puts a time, or `-` where it is not there.
pub fn put_time(out: &mut [u8], at: usize, t: Option<u32>) -> usize
    ensures { Puts (time_or t) out.old at result out.new }
{
    match t {
        None => lent::word(out, at, b"-"),
        Some(s) => calendar::put_time(out, at, s),
    }
}

// A byte of a MAC address and a colon.
fn hex_colon(out: &mut [u8], at: usize, b: u8) -> usize
    ensures { PutsAll (hex_of b ∷ text ":" ∷ []) out.old at result out.new }
{
    let e = text::hex(out, at, b);
    lent::word(out, e, b":")
}

// Puts a MAC address.
fn put_mac(out: &mut [u8], at: usize, m: Mac) -> usize
    ensures { PutsAll (mac_texts m) out.old at result out.new }
{
    let a = hex_colon(out, at, m.0);
    let b = hex_colon(out, a, m.1);
    let c = hex_colon(out, b, m.2);
    let d = hex_colon(out, c, m.3);
    let e = hex_colon(out, d, m.4);
    text::hex(out, e, m.5)
}

// Puts the corridor's two numbers, and what its times are in.
fn put_numbers(out: &mut [u8], at: usize, target: u32, instance: u8) -> usize
    ensures { PutsAll (number_texts target instance) out.old at result out.new }
{
    let a = lent::word(out, at, b", target ");
    let b = text::decimal(out, a, target as u64);
    let c = lent::word(out, b, b", instance ");
    let d = text::decimal(out, c, instance as u64);
    lent::word(out, d, b", times in UTC")
}

// Puts the title: the corridor, and what its times are in.
pub fn put_title(out: &mut [u8], at: usize, who: Corridor) -> usize
    ensures { PutsAll (title_texts who) out.old at result out.new }
{
    let a = lent::word(out, at, b"Corridor ");
    let b = put_mac(out, a, who.mac);
    put_numbers(out, b, who.target, who.instance)
}

// Where a season begins, by its place from 0: the first has no beginning.
pub fn begins(b: Boundaries, g: usize) -> Option<u32>
    ensures { result ≡ begin_of b g }
{
    match g {
        1 => Some(b.first),
        2 => Some(b.second),
        3 => Some(b.third),
        _ => None,
    }
}

// Where it ends: the fourth has no end.
pub fn ends(b: Boundaries, g: usize) -> Option<u32>
    ensures { result ≡ end_of b g }
{
    match g {
        0 => Some(b.first),
        1 => Some(b.second),
        2 => Some(b.third),
        _ => None,
    }
}
