// The line that answers whether a run is quiet, put into a lent buffer: yes, or the first item that is not, its place, its bytes and why. It leans on
// crate quiet_run for the first item that is not quiet, and on crates lent and text for what is put. Document 02, W-203.
#![tactic(auto)]

ghost use Rattle.std.specs.Prelude.{◌≡◌};
ghost use Rattle.frame.specs.Frame.{byte};
ghost use Rattle.lent.specs.All.{PutsAll};
ghost use Rattle.quiet_told.specs.Answer.{plus, outside_texts, reason_texts, place_texts, loud_texts, closed_texts};

use quiet_run::Loud;

// A place so many bytes further, in 64 bits. One that is full stays so.
pub fn plus(a: u64, b: u64) -> u64
    ensures { result ≡ plus a b }
{
    a.saturating_add(b)
}

// The third byte of an item, 0 where it has none.
fn third(item: &[u8]) -> u8
    ensures { result ≡ byte 2 item.now }
{
    item.get(2).copied().unwrap_or(0)
}

// Puts why a request is not quiet that is accepted: its command is outside the profile.
fn outside(out: &mut [u8], at: usize, item: &[u8]) -> usize
    ensures { PutsAll (outside_texts item.now) out.old at result out.new }
{
    let a = lent::word(out, at, b"command ");
    let b = text::hex(out, a, third(item));
    lent::word(out, b, b" is outside the profile")
}

// Puts why an item is not quiet, by its number.
fn reason(out: &mut [u8], at: usize, number: u8, item: &[u8]) -> usize
    ensures { PutsAll (reason_texts number item.now) out.old at result out.new }
{
    match number {
        0 => outside(out, at, item),
        1 => lent::word(out, at, b"the run ends inside a request"),
        2 => lent::word(out, at, b"no request begins here"),
        3 => lent::word(out, at, b"the command is unknown"),
        4 => lent::word(out, at, b"no such length byte or colour type"),
        6 => lent::word(out, at, b"the sum is wrong"),
        7 => lent::word(out, at, b"an argument is out of range"),
        _ => lent::word(out, at, b"not a request"),
    }
}

// Puts which item is not quiet: its number, and its place in the run.
fn place(out: &mut [u8], n: u64, number: u8) -> usize
    ensures { PutsAll (place_texts n number) out.old 0 result out.new }
{
    let a = lent::word(out, 0, b"no: item ");
    let b = text::decimal(out, a, number as u64);
    let c = lent::word(out, b, b" at byte ");
    text::decimal(out, c, n)
}

// Puts the answer no: which item, its bytes, and why it is not quiet.
pub fn loud(out: &mut [u8], n: u64, number: u8, item: &[u8]) -> usize
    ensures { PutsAll (loud_texts n number item.now) out.old 0 result out.new }
{
    let a = place(out, n, number);
    let b = lent::word(out, a, b", ");
    let c = text::hexes(out, b, item);
    let d = lent::word(out, c, b": ");
    let e = reason(out, d, number, item);
    lent::byte(out, e, b'\n')
}

// Puts the answer for the last bytes of a run, in front of which so many are passed.
pub fn last(out: &mut [u8], passed: u64, s: &[u8]) -> usize
    ensures { PutsAll (closed_texts passed s.now) out.old 0 result out.new }
{
    match quiet_run::first(s) {
        None => lent::word(out, 0, b"yes\n"),
        Some(
            Loud {
                place,
                number,
                size,
            },
        ) => loud(
            out,
            plus(passed, place as u64),
            number,
            &s[place..place + size],
        ),
    }
}
