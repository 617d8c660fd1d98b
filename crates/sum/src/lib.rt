// The sum of a frame: the exclusive-or of its bytes. Document 01, "Frames": "the exclusive-or of all bytes of a frame,
// the sum included, is 0. The source also calls it CRC8; it is none."
#![tactic(auto)]

ghost use Rattle.std.specs.Prelude.{◌+◌, ◌%◌, ◌≤◌, ◌<◌, [], ◌∷◌, ◌≡◌, length, take, drop};
ghost use Rattle.sum.specs.Sum.{sum_of};
ghost use Rattle.sum.specs.Lanes.{low, lanes};

// The exclusive-or of the bytes of a run, 0 for none. What it calls is handed a part of the run that is all of it: so the compiler hands
// the run itself to this function in registers.
pub fn xor(s: &[u8]) -> u8
    ensures { result ≡ sum_of s.now }
{
    let n = s.len();
    if n <= 16 {
        return short(&s[..n]);
    }
    long(&s[..n])
}

// Of one longer than two words: its words of eight, the one to eight bytes behind them upon these, and all folded once.
fn long(s: &[u8]) -> u8
    requires { 16 < length s.now }
    ensures { result ≡ sum_of s.now }
{
    let n = s.len();
    let e = (n - 1) / 8 * 8;
    fold(words(s, e) ^ rest(s, e))
}

// Of one that is not: of more than a word in the same way, which is its first word and the rest.
fn short(s: &[u8]) -> u8
    requires { length s.now ≤ 16 }
    ensures { result ≡ sum_of s.now }
{
    let n = s.len();
    if n <= 8 {
        return small(s);
    }
    fold(word(s, 0) ^ rest(s, 8))
}

// Of one of no more than a word, in the same way by halves of four.
fn small(s: &[u8]) -> u8
    requires { length s.now ≤ 8 }
    ensures { result ≡ sum_of s.now }
{
    let n = s.len();
    if n < 4 {
        return few(s);
    }
    fold(half(s, 0) ^ (half(s, n - 4) >> (8 * (8 - n))))
}

// Of one shorter than a half, byte by byte.
fn few(s: &[u8]) -> u8
    ensures { result ≡ sum_of s.now }
{
    let mut x = 0;
    for b in s {
        x ^= b;
    }
    x
}

// The words of a run up to a place, one upon the other: four to a turn, upon two numbers, so that the compiler takes each with one instruction.
fn words(s: &[u8], e: usize) -> u64
    requires e_value { e % 8 ≡ 0 }
    requires e_in_bounds { e ≤ length s.now }
    ensures { lanes 8 result ≡ sum_of (take e s.now) }
{
    let mut i = e % 32;
    let mut w = front(s, i);
    let mut v: u64 = 0;
    while i < e {
        w = w ^ word(s, i) ^ word(s, i + 16);
        v = v ^ word(s, i + 8) ^ word(s, i + 24);
        i += 32;
    }
    w ^ v
}

// Those in front of the first turn: none to three.
fn front(s: &[u8], e: usize) -> u64
    requires e_value { e % 8 ≡ 0 }
    requires e_bound { e < 32 }
    requires e_in_bounds { e ≤ length s.now }
    ensures { lanes 8 result ≡ sum_of (take e s.now) }
{
    if e < 16 {
        if e < 8 {
            return 0;
        }
        return word(s, 0);
    }
    if e < 24 {
        return word(s, 0) ^ word(s, 8);
    }
    word(s, 0) ^ word(s, 8) ^ word(s, 16)
}

// The last bytes of a run as one number, from a place on: the last eight, less those before the place, which are shifted out.
fn rest(s: &[u8], e: usize) -> u64
    requires in_bounds { 8 ≤ length s.now }
    requires e_in_bounds { e < length s.now }
    requires s_len_bound { length s.now ≤ e + 8 }
    ensures { result ≡ low (drop e s.now) }
{
    let n = s.len();
    word(s, n - 8) >> (8 * (8 - (n - e)))
}

// Eight bytes of a run as one number, low byte first, which the compiler makes one load.
fn word(s: &[u8], i: usize) -> u64
    requires { i + 8 ≤ length s.now }
    ensures { result ≡ low (take 8 (drop i s.now)) }
{
    number(
        s[i],
        s[i + 1],
        s[i + 2],
        s[i + 3],
        s[i + 4],
        s[i + 5],
        s[i + 6],
        s[i + 7],
    )
}

// Four.
fn half(s: &[u8], i: usize) -> u64
    requires { i + 4 ≤ length s.now }
    ensures { result ≡ low (take 4 (drop i s.now)) }
{
    number(s[i], s[i + 1], s[i + 2], s[i + 3], 0, 0, 0, 0)
}

// Eight bytes as one number, low byte first.
fn number(a: u8, b: u8, c: u8, d: u8, e: u8, f: u8, g: u8, h: u8) -> u64
    ensures { result ≡ low (a ∷ b ∷ c ∷ d ∷ e ∷ f ∷ g ∷ h ∷ []) }
{
    u64::from_le_bytes([a, b, c, d, e, f, g, h])
}

// The exclusive-or of the eight bytes of a number: the upper half upon the lower, three times.
fn fold(x: u64) -> u8
    ensures { result ≡ lanes 8 x }
{
    let a = x ^ (x >> 32);
    let b = a ^ (a >> 16);
    let c = b ^ (b >> 8);
    (c % 256) as u8
}
