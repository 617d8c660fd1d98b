// Text in a lent buffer, from a place on: a byte as two hexadecimal digits, those of a run, a number in decimal. Each function that puts one answers the place
// behind what it wrote; where there is no room for the whole of it, it writes nothing and answers the place that it was given
// (crate lent, whose contract it has); of a run this goes for each byte. It is what a program's output is made of: document 01, "A small program". Beside it what a
// hexadecimal digit says, for what is read.
#![tactic(auto)]

ghost use Rattle.std.specs.Prelude.{◌/◌, ◌%◌, ◌<◌, ◌≡◌, length};
ghost use Rattle.text.specs.Text.{digit as digit_of, digit_of as value_of_digit, hex_of, hex_texts, decimal_of};
ghost use Rattle.lent.specs.All.{PutsAll};
ghost use Rattle.lent.specs.Puts.{Puts};

// A digit, `0` to `9`, then `A` to `F`.
fn digit(d: u8) -> u8
    requires { d < 16 }
    ensures { result ≡ digit_of d }
{
    if d < 10 { 48 + d } else { 55 + d }
}

// The first of a byte's two hexadecimal digits.
pub fn high_digit(b: u8) -> u8
    ensures { result ≡ digit_of (b / 16) }
{
    digit(b / 16)
}

// The second.
pub fn low_digit(b: u8) -> u8
    ensures { result ≡ digit_of (b % 16) }
{
    digit(b % 16)
}

// What a hexadecimal digit says, capital or not; 16 for another byte. (16 and no Option: its contract, `digit_of`, says 16.)
pub fn digit_value(c: u8) -> u8
    ensures { result ≡ value_of_digit c }
{
    match c {
        48..=57 => c - 48,
        65..=70 => c - 55,
        97..=102 => c - 87,
        _ => 16,
    }
}

// Puts a byte as two hexadecimal digits, in capitals.
pub fn hex(out: &mut [u8], at: usize, b: u8) -> usize
    ensures { Puts (hex_of b) out.old at result out.new }
{
    if out.len() < 2 || out.len() - 2 < at {
        return at;
    }
    out[at] = high_digit(b);
    out[at + 1] = low_digit(b);
    at + 2
}

// Puts the bytes of a run in hexadecimal, each where it has room.
pub fn hexes(out: &mut [u8], at: usize, s: &[u8]) -> usize
    ensures { PutsAll (hex_texts s.now) out.old at result out.new }
{
    let mut e = at;
    for b in s {
        e = hex(out, e, *b);
    }
    e
}

// How many decimal digits a number has.
pub fn places(n: u64) -> usize
    ensures { result ≡ length (decimal_of n) }
{
    match n.checked_ilog10() {
        Some(k) => k as usize + 1,
        None => 1,
    }
}

// Puts a number in decimal, with no zero in front.
pub fn decimal(out: &mut [u8], at: usize, n: u64) -> usize
    ensures { Puts (decimal_of n) out.old at result out.new }
{
    let k = places(n);
    if out.len() < k || out.len() - k < at {
        return at;
    }
    let mut rest = n;
    for i in (0..k).rev() {
        out[at + i] = (48 + rest % 10) as u8;
        rest /= 10;
    }
    at + k
}
