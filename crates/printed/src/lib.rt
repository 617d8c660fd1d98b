// The line of an item as text, in a lent buffer: its number, how many bytes it has, these in hexadecimal. It leans on crate stream for
// what an item is, and on crates lent and text for the contract of every text that is put. Document 01, "A small program".
#![tactic(auto)]

ghost use Rattle.std.specs.Prelude.{◌+◌, ◌*◌, ◌≤◌, ◌<◌, ◌≡◌, length};
ghost use Rattle.text.specs.Text.{decimal_of};
ghost use Rattle.lent.specs.Puts.{Puts};
ghost use Rattle.stream.specs.Stream.{reading};
ghost use Rattle.printed.specs.Text.{hexes, head_of, head_most, line_of};

// The most that stands in front of an item's bytes: two numbers of 20 digits, with a blank behind each.
const HEAD: usize = 42;

// Puts the bytes of a run in hexadecimal. (A loop with no test of room in it is one that the compiler can widen.)
fn put_bytes(out: &mut [u8], at: usize, s: &[u8]) -> usize
    requires { at + 2 * length s.now ≤ length out.old }
    ensures { Puts (hexes s.now) out.old at result out.new }
{
    for (i, &b) in s.iter().enumerate() {
        out[at + 2 * i] = text::high_digit(b);
        out[at + 2 * i + 1] = text::low_digit(b);
    }
    at + 2 * s.len()
}

// Puts what stands in front of an item's bytes, where the number has one digit and the count at most two.
fn put_head(out: &mut [u8], at: usize, number: u8, n: usize) -> usize
    requires { (number < 10) × (n < 100) × (at + 5 ≤ length out.old) }
    ensures { Puts (head_of number n) out.old at result out.new }
{
    out[at] = b'0' + number;
    out[at + 1] = b' ';
    if n < 10 {
        out[at + 2] = b'0' + (n as u8);
        out[at + 3] = b' ';
        return at + 4;
    }
    out[at + 2] = b'0' + ((n / 10) as u8);
    out[at + 3] = b'0' + ((n % 10) as u8);
    out[at + 4] = b' ';
    at + 5
}

// How long a line is whose number has one digit and whose count at most two.
fn short_length(n: usize) -> usize
    requires { n < 100 }
    ensures { result ≡ 2 * n + 4 + length (decimal_of n) }
{
    if n < 10 { 2 * n + 5 } else { 2 * n + 6 }
}

// Puts the line of an item whose number has one digit and whose count at most two.
fn short_line(out: &mut [u8], at: usize, number: u8, s: &[u8]) -> usize
    requires { (number < 10) × (length s.now < 100) }
    ensures { Puts (line_of (reading number s.now)) out.old at result out.new }
{
    let size = short_length(s.len());
    if out.len() < size {
        return at;
    }
    if out.len() - size < at {
        return at;
    }
    let h = put_head(out, at, number, s.len());
    let e = put_bytes(out, h, s);
    out[e] = b'\n';
    e + 1
}

// Puts what stands in front of any item's bytes at the start of a buffer that has room for it.
fn long_head(out: &mut [u8], number: u8, n: usize) -> usize
    requires { head_most ≤ length out.old }
    ensures { Puts (head_of number n) out.old 0 result out.new }
{
    let a = text::decimal(out, 0, number as u64);
    let b = lent::byte(out, a, b' ');
    let c = text::decimal(out, b, n as u64);
    lent::byte(out, c, b' ')
}

// Puts the line of any item. What stands in front of its bytes is made aside first: only its length tells the room.
fn long_line(out: &mut [u8], at: usize, number: u8, s: &[u8]) -> usize
    ensures { Puts (line_of (reading number s.now)) out.old at result out.new }
{
    let n = s.len();
    let mut head = [0u8; HEAD];
    let size = long_head(&mut head, number, n);
    if out.len() < at {
        return at;
    }
    if (out.len() - at) / 2 < n {
        return at;
    }
    if out.len() - at - 2 * n <= size {
        return at;
    }
    let h = lent::word(out, at, &head[..size]);
    let e = put_bytes(out, h, s);
    out[e] = b'\n';
    e + 1
}

// Puts the line of an item, and answers the place behind it. Where it has no room, no byte of the buffer changes, and the
// answer is the place itself. (An item of one byte takes a way of its own, on which the compiler knows the length.)
pub fn put_line(out: &mut [u8], at: usize, number: u8, s: &[u8]) -> usize
    ensures { Puts (line_of (reading number s.now)) out.old at result out.new }
{
    if 9 < number || 99 < s.len() {
        return long_line(out, at, number, s);
    }
    if s.len() == 1 {
        return short_line(out, at, number, &s[..1]);
    }
    short_line(out, at, number, s)
}
