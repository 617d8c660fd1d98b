// The bench's answers in a lent buffer, from a place on: names, numbers and bytes, put one behind the other. Each function
// answers the place behind what it put. It leans on crates lent, words and text, which put one text. docs/BENCH.md, "A line".
#![tactic(auto)]

ghost use Rattle.std.specs.Prelude.{[], ◌∷◌};
ghost use Rattle.text.specs.Text.{hex_of};
ghost use Rattle.lent.specs.All.{PutsAll};
ghost use Rattle.bench_say.specs.Said.{run_of};
ghost use Rattle.bench_say.specs.Pieces.{piece_texts, pieces_texts};

// Three pieces of an answer by value, one behind the other. A piece is a kind and a number. The last hexadecimal digit of its kind says
// what it is: 0 nothing at all, 4 the number, 2 a name and the number, 3 a name and the byte, which stands behind the pieces, else a name.
// The digits before it are the name's place among some names that are parted by commas.
#[derive(Drop)]
pub struct Pieces(
    pub usize,
    pub u64,
    pub usize,
    pub u64,
    pub usize,
    pub u64,
    pub u8,
);

// A byte behind a blank.
fn blank_hex(out: &mut [u8], at: usize, b: u8) -> usize
    ensures { PutsAll ((32 ∷ []) ∷ hex_of b ∷ []) out.old at result out.new }
{
    let e = lent::byte(out, at, b' ');
    text::hex(out, e, b)
}

// A field whose value is a run of bytes, each behind a blank.
pub fn run(out: &mut [u8], at: usize, name: &[u8], s: &[u8]) -> usize
    ensures { PutsAll (name.now ∷ run_of s.now) out.old at result out.new }
{
    let mut e = lent::word(out, at, name);
    for b in s {
        e = blank_hex(out, e, *b);
    }
    e
}

// A piece by value, with these names.
fn piece(out: &mut [u8], at: usize, names: &[u8], k: usize, n: u64, b: u8) -> usize
    ensures { PutsAll (piece_texts names.now k n b) out.old at result out.new }
{
    let form = k % 16;
    if form == 0 {
        return at;
    }
    if form == 4 {
        return text::decimal(out, at, n);
    }
    let e = words::put(out, at, names, b',', k / 16);
    if form == 2 {
        return text::decimal(out, e, n);
    }
    if form == 3 {
        return text::hex(out, e, b);
    }
    e
}

// Three pieces by value, with these names.
pub fn put(out: &mut [u8], at: usize, names: &[u8], p: Pieces) -> usize
    ensures { PutsAll (pieces_texts names.now p) out.old at result out.new }
{
    let e = piece(out, at, names, p.0, p.1, p.6);
    let f = piece(out, e, names, p.2, p.3, p.6);
    piece(out, f, names, p.4, p.5, p.6)
}
