// A reader of a line: a state by value, a feeding call and a closing call. It serves the request line and the reply line,
// and leans on the rule of a line (crate line). Document 01, "Reading a line".
//
// A feeding call asks the rule once where nothing is held, else once or twice, and never byte by byte. It moves:
// - where nothing is held, the bytes that it takes, once: those of the item into the answer, the others into the state;
// - where the bytes held settle the item, these, once;
// - where they do not, these and of the part so many that the line's most held bytes and one are there (68 on a reply line,
//   13 on a request line), or as many as there are, once into a window; and from there the bytes then read or held, once.
// A state and an answer hold arrays (67 and 68 bytes), which go by value and are zero behind what they hold.
#![tactic(auto)]

ghost use Rattle.std.specs.Prelude.{◌≤◌, ◌≡◌, [], length};
ghost use Rattle.stream.specs.Stream.{More, feed};
ghost use Rattle.extent.specs.Line.{cap_of};
ghost use Rattle.line.specs.Rule.{settle};
ghost use Rattle.reader.specs.Reader.{held_room, item_room, pad, held_of, hold, given_of, nothing_of, Feeds, Closes};
ghost use Rattle.reader.specs.Window.{Joined, window_of};
ghost use Rattle.reader.specs.Calls.{cut_of};

use line::Line;

// The places of an item and of a state: those of the longest reply, and one less.
pub const ITEM_ROOM: usize = line::REPLY_LONGEST;

pub const HELD_ROOM: usize = line::REPLY_LONGEST - 1;

// A reader between two calls: how many bytes it holds, and these in front. What lies behind them is 0 in every state that
// a call leaves, and is not looked at.
#[derive(Clone, Copy)]
pub struct Held {
    pub bytes: [u8; HELD_ROOM],
    pub len: usize,
}

// An item, by its number, with the count of its bytes and these in front of zeros.
#[derive(Clone, Copy)]
pub struct Item {
    pub number: u8,
    pub count: usize,
    pub bytes: [u8; ITEM_ROOM],
}

// What a call gives: the reader afterwards, how many bytes of the part it took (none in closing), and an item, or nothing yet (feeding) or
// empty (closing).
#[derive(Clone, Copy)]
pub struct Given {
    pub held: Held,
    pub taken: usize,
    pub item: Option<Item>,
}

// A reader that holds nothing.
pub fn fresh() -> Held
    ensures { result ≡ hold [] }
{
    Held {
        bytes: [0; HELD_ROOM],
        len: 0,
    }
}

// How many bytes a state holds: none where it claims more than a reader of the line can hold.
fn holds(line: Line, h: Held) -> usize
    ensures { result ≡ length (held_of line h) }
{
    let n = h.len;
    let limit = line::most(line);
    if n <= limit { n } else { 0 }
}

// The bytes of a run, and zeros behind them. (Most items of a noisy line have one byte.)
fn padded<const N: usize>(s: &[u8]) -> [u8; N]
    requires { length s.now ≤ N }
    ensures { result ≡ pad N s.now }
{
    let mut bytes = [0; N];
    if s.len() == 1 {
        lent::byte(&mut bytes, 0, s[0]);
    } else {
        lent::word(&mut bytes, 0, s);
    }
    bytes
}

// A reader that holds the bytes of a run.
fn kept(s: &[u8]) -> Held
    requires { length s.now ≤ held_room }
    ensures { result ≡ hold s.now }
{
    Held {
        bytes: padded(s),
        len: s.len(),
    }
}

// The first m bytes of a run as an item; the others are held. (Mostly there are none.)
fn cut(s: &[u8], m: usize, taken: usize, number: u8) -> Given
    requires { (1 ≤ m) × (m ≤ length s.now) × (length s.now ≤ item_room) }
    ensures { result ≡ cut_of s.now m taken number }
{
    let item = Item {
        number,
        count: m,
        bytes: padded(&s[..m]),
    };
    let held = if s.len() == m { fresh() } else { kept(&s[m..]) };
    Given {
        held,
        taken,
        item: Some(item),
    }
}

// No item: the bytes of a run are held.
fn nothing(s: &[u8], taken: usize) -> Given
    requires { length s.now ≤ held_room }
    ensures { result ≡ nothing_of s.now taken }
{
    Given {
        held: kept(s),
        taken,
        item: None,
    }
}

// A feeding call where nothing is held.
fn begin(line: Line, part: &[u8]) -> Given
    ensures { result ≡ given_of part.now (feed (settle line) [] part.now) }
{
    match line::settled(line, part) {
        Some(step) => cut(&part[..step.settled], step.size, step.settled, step.number),
        None => nothing(part, part.len()),
    }
}

// Puts the bytes held, and behind them as many of the part as the line can need, in front of an array, and says how many they are.
fn join(line: Line, held: &[u8], part: &[u8], bytes: &mut [u8; ITEM_ROOM]) -> usize
    requires { length held.now ≤ cap_of line }
    ensures { Joined (window_of line held.now part.now) result bytes.new }
{
    let t = part.len().min(line::most(line) + 1 - held.len());
    let n = lent::word(bytes, 0, held);
    lent::word(bytes, n, &part[..t])
}

// A feeding call where the bytes held settle nothing.
fn resume(line: Line, held: &[u8], part: &[u8]) -> Given
    requires { settle line held.now ≡ More }
    ensures { result ≡ given_of part.now (feed (settle line) held.now part.now) }
{
    let n = held.len();
    let mut bytes = [0; ITEM_ROOM];
    let e = join(line, held, part, &mut bytes);
    let s = &bytes[..e];
    match line::settled(line, s) {
        Some(step) => cut(&s[..step.settled], step.size, step.settled - n, step.number),
        None => nothing(s, e - n),
    }
}

// Takes the fewest bytes of a part that settle the next item, and gives it; or takes them all, where none is settled.
pub fn feed(line: Line, h: Held, part: &[u8]) -> Given
    ensures { Feeds line h part.now result }
{
    let n = holds(line, h);
    if n == 0 {
        return begin(line, part);
    }
    let held = &h.bytes[..n];
    match line::settled(line, held) {
        Some(step) => cut(held, step.size, 0, step.number),
        None => resume(line, held, part),
    }
}

// The next item of the bytes held, as if the line ended behind them; or a fresh reader, where nothing is held.
pub fn close(line: Line, h: Held) -> Given
    ensures { Closes line h result }
{
    let n = holds(line, h);
    let held = &h.bytes[..n];
    match line::item_at(line, true, held) {
        Some(item) => cut(held, item.size, 0, item.number),
        None => nothing(held, 0),
    }
}
