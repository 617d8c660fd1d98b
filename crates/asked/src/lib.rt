// What the words of a command line ask for: a number, a MAC address, a boundary between two seasons (crate options: an option). It leans on event for a MAC
// address, on calendar for the midnight of a date, on text for what digits say, on refusal for the words of a test. docs/SHEET.md, "Arguments";
// crate plan_wanted asks it for numbers, and crate clock_asked for a date.
#![tactic(auto)]

ghost use Rattle.std.specs.Prelude.{◌≤◌, ◌≡◌, length};
ghost use Rattle.asked.specs.Asked.{no_boundary, by_date, boundary_of};
ghost use Rattle.asked.specs.Asked.{number_of, pair_of, byte_at, is_parting, parted, mac_of};

use calendar::{Date, NoMidnight};
use event::Mac;

// Why bytes are no boundary: they are neither a number of seconds nor a date; or what the calendar says of the date.
#[derive(Clone, Copy, Debug, PartialEq, Eq)]
pub enum NoBoundary {
    Neither,
    NoSuchDate,
    Outside,
}

impl From<NoMidnight> for NoBoundary {
    ghost from_gives = { λ m b. b ≡ no_boundary m };

    fn from(m: NoMidnight) -> NoBoundary {
        match m {
            NoMidnight::NoSuchDate => NoBoundary::NoSuchDate,
            NoMidnight::Outside => NoBoundary::Outside,
        }
    }
}

// The number that decimal digits say, where it is no greater than the most. The bytes may be no digits, or say one that is too great.
#[tactic(auto, using(crate::specs::Turns::number_some, crate::specs::Turns::number_none, crate::specs::Turns::rest_over, crate::specs::Turns::rest_done))]
pub fn number_of(s: &[u8], most: u32) -> Option<u32>
    ensures { result ≡ number_of most s.now }
{
    if s.is_empty() {
        return None;
    }
    let mut n: u64 = 0;
    for &c in s {
        if !c.is_ascii_digit() {
            return None;
        }
        n = n * 10 + u64::from(c - b'0');
        if u64::from(most) < n {
            return None;
        }
    }
    Some(n as u32)
}

// The byte that two hexadecimal digits say, where both of them are.
#[tactic(auto, unfolding(crate::specs::Asked::pair_of))]
fn pair(high: u8, low: u8) -> Option<u8>
    ensures { result ≡ pair_of high low }
{
    let h = text::digit_value(high);
    let l = text::digit_value(low);
    if h < 16 && l < 16 {
        Some(h * 16 + l)
    } else {
        None
    }
}

// Whether a byte parts two bytes of a MAC address.
fn is_parting(c: u8) -> bool
    ensures { result ≡ is_parting c }
{
    matches!(c, b':' | b'-')
}

// Whether such a byte stands in each of the five places. (One expression with no branch: `&&` would be no plainer.)
#[tactic(auto, unfolding(crate::specs::Asked::parted))]
fn is_parted(s: &[u8]) -> bool
    requires { length s.now ≡ 17 }
    ensures { result ≡ parted s.now }
{
    is_parting(s[2]) & is_parting(s[5]) & is_parting(s[8]) & is_parting(s[11]) & is_parting(s[14])
}

// The byte that the two digits from a place on say.
fn byte_at(s: &[u8], i: usize) -> Option<u8>
    requires { (length s.now ≡ 17) × (i ≤ 15) }
    ensures { result ≡ byte_at s.now i }
{
    pair(s[i], s[i + 1])
}

// The MAC address that 17 bytes say.
#[tactic(auto, unfolding(crate::specs::Asked::mac_of))]
pub fn mac_of(s: &[u8]) -> Option<Mac>
    ensures { result ≡ mac_of s.now }
{
    if s.len() != 17 || !is_parted(s) {
        return None;
    }
    let a = byte_at(s, 0)?;
    let b = byte_at(s, 3)?;
    let c = byte_at(s, 6)?;
    let d = byte_at(s, 9)?;
    let e = byte_at(s, 12)?;
    let f = byte_at(s, 15)?;
    Some(Mac(a, b, c, d, e, f))
}

// The boundary that a date of ten bytes says.
#[tactic(auto, unfolding(crate::specs::Asked::by_date))]
fn by_date(s: &[u8]) -> Result<u32, NoBoundary>
    requires { length s.now ≡ 10 }
    ensures { result ≡ by_date s.now }
{
    let year = number_of(&s[0..4], 9999).ok_or(NoBoundary::Neither)?;
    let month = number_of(&s[5..7], 99).ok_or(NoBoundary::Neither)?;
    let day = number_of(&s[8..10], 99).ok_or(NoBoundary::Neither)?;
    Ok(calendar::midnight_of(Date { year, month, day })?)
}

// The boundary in seconds since 1970 that seconds or a date say.
#[tactic(auto, unfolding(crate::specs::Asked::boundary_of))]
pub fn boundary_of(s: &[u8]) -> Result<u32, NoBoundary>
    ensures { result ≡ boundary_of s.now }
{
    if let Some(n) = number_of(s, u32::MAX) {
        return Ok(n);
    }
    if s.len() != 10 || s[4] != b'-' || s[7] != b'-' {
        return Err(NoBoundary::Neither);
    }
    by_date(s)
}
