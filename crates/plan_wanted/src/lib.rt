// The text that says which events are wanted, read into three bytes for each of them. It leans on crate words for the end of a line, on crate
// asked for what digits say, on crate lent for what is put into a lent buffer, on crate refusal for the words of a test. docs/PLAN.md, "Files".
#![tactic(auto)]

ghost use Rattle.std.specs.Prelude.{◌+◌, ◌≤◌, ◌≡◌, length, drop};
ghost use Rattle.lent.specs.Puts.{Puts};
ghost use Rattle.plan_wanted.specs.Wanted.{says_of, line_of, told_by, Reads};
ghost use Rattle.plan_wanted.specs.Places.{ahead, is_kind};
ghost use Rattle.plan_wanted.specs.Lines.{is_byte};
ghost use Rattle.plan_wanted.specs.Turns.{tally, bytes_by, bytes_in, Good};

// "that say 0 to 255"
const MOST: u32 = 255;

// Why no bytes were put: the first line that is bad, counted from 1; or the buffer has no room for the events.
#[derive(Clone, Copy, Debug, PartialEq, Eq)]
pub enum NotWanted {
    BadLine(usize),
    Full,
}

// What a line says: nothing, or an address, an instance and a type; or it is bad.
#[derive(Clone, Copy)]
enum Line {
    Nothing,
    Says(u8, u8, u8),
    Bad,
}

// Whether a byte is a blank, or another byte.
fn is_kind(blank: bool, c: u8) -> bool
    ensures { result ≡ is_kind blank c }
{
    let found = (c == b' ') | (c == b'\t') | (c == b'\r');
    if blank { found } else { !found }
}

// The first place from a place on where a blank stands, or another byte; or the run's end.
fn next(s: &[u8], from: usize, blank: bool) -> usize
    requires { from ≤ length s.now }
    ensures { (result ≡ from + ahead (is_kind blank) (drop from s.now)) × (result ≤ length s.now) }
{
    for i in from..s.len() {
        if is_kind(blank, s[i]) {
            return i;
        }
    }
    s.len()
}

// What a line says whose three words say these numbers.
fn says_of(address: Option<u32>, instance: Option<u32>, kind: Option<u32>) -> Line
    requires { is_byte address × is_byte instance × is_byte kind }
    ensures { result ≡ says_of address instance kind }
{
    let Some(a) = address else {
        return Line::Bad;
    };
    let Some(i) = instance else {
        return Line::Bad;
    };
    let Some(t) = kind else {
        return Line::Bad;
    };
    Line::Says(a as u8, i as u8, t as u8)
}

// What a line says. A word that is not there has no bytes, which say no number.
fn line_of(s: &[u8]) -> Line
    ensures { result ≡ line_of s.now }
{
    let a = next(s, 0, false);
    if s.len() <= a {
        return Line::Nothing;
    }
    let b = next(s, a, true);
    if s[a] == b'#' {
        return Line::Nothing;
    }
    let c = next(s, b, false);
    let d = next(s, c, true);
    let e = next(s, d, false);
    let f = next(s, e, true);
    if next(s, f, false) < s.len() {
        return Line::Bad;
    }
    let address = asked::number_of(&s[a..b], MOST);
    let instance = asked::number_of(&s[c..d], MOST);
    let kind = asked::number_of(&s[e..f], MOST);
    says_of(address, instance, kind)
}

// How many events the lines of a text say, or the first line that is bad. (The place goes on by a line, which no range does: so the loop stays
// a `while`, here and where the bytes are put.)
fn judge(text: &[u8]) -> Result<usize, NotWanted>
    ensures { result ≡ tally 0 0 (told_by text.now) }
{
    let mut i: usize = 0;
    let mut lines: usize = 0;
    let mut events: usize = 0;
    while i < text.len() {
        let e = words::until(text, i, b'\n');
        let l = line_of(&text[i..e]);
        match l {
            Line::Bad => return Err(NotWanted::BadLine(lines + 1)),
            Line::Nothing => {}
            Line::Says(_, _, _) => {
                events += 1;
            }
        }
        lines += 1;
        i = e + 1;
    }
    Ok(events)
}

// Puts the three bytes of a line that says an event, where they have room.
fn put_line(out: &mut [u8], at: usize, l: Line) -> usize
    ensures { Puts (bytes_by l) out.old at result out.new }
{
    match l {
        Line::Says(address, instance, kind) => {
            let bytes = [address, instance, kind];
            lent::word(out, at, &bytes)
        }
        Line::Nothing => at,
        Line::Bad => at,
    }
}

// Puts three bytes for each event of a text without a bad line.
fn put(text: &[u8], out: &mut [u8]) -> usize
    requires { Good (told_by text.now) 0 (length out.old) }
    ensures { Puts (bytes_in (told_by text.now)) out.old 0 result out.new }
{
    let mut i: usize = 0;
    let mut at: usize = 0;
    while i < text.len() {
        let e = words::until(text, i, b'\n');
        let l = line_of(&text[i..e]);
        at = put_line(out, at, l);
        i = e + 1;
    }
    at
}

// Reads a text: puts three bytes for each event, its address, instance and type, at the start of a lent buffer. Where a line is bad, or the
// buffer has no room for all events, no byte of it is changed.
pub fn read(text: &[u8], out: &mut [u8]) -> Result<usize, NotWanted>
    ensures { Reads text.now out.old result out.new }
{
    let n = judge(text)?;
    if out.len() / 3 < n {
        return Err(NotWanted::Full);
    }
    Ok(put(text, out))
}
