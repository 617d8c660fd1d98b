// The words of a bench line, and the groups of bytes that they say. docs/BENCH.md, "A line". It leans on
// crate words, on crate text for what a hexadecimal digit says, and on crate refusal for the words of a test.
#![tactic(auto)]

ghost use Rattle.std.specs.Prelude.{◌+◌, ◌*◌, ◌≤◌, ◌≡◌, length, get_or};
ghost use Rattle.bench_words.specs.Words.{blanks, start_of, part_of, wide_of};
ghost use Rattle.bench_words.specs.Groups.{word_of, Grows, Reads};

// The groups of a line. The bytes of all of them stand in one run: the first group ends at a, the second at b, the third at
// c. What a fourth group and later ones hold is counted to c too. Four groups and more are counted as four.
#[derive(Drop)]
pub struct Groups {
    pub count: usize,
    pub a: usize,
    pub b: usize,
    pub c: usize,
}

// What a word says.
#[derive(Drop)]
enum Word {
    Nothing,
    Slash,
    Byte(u8),
    Other,
}

// The first place that holds no blank, or the run's end.
pub fn first(s: &[u8]) -> usize
    ensures { result ≡ blanks s.now }
{
    for i in 0..s.len() {
        if s[i] != b' ' {
            return i;
        }
    }
    s.len()
}

// The part of a run from a up to e; where there is none, no bytes, at its front.
pub fn part(s: &[u8], a: usize, e: usize) -> &[u8]
    ensures result_value { result.now ≡ part_of s.now a e }
    ensures ref_ptr_value { (result.ref_ptr.0 ≡ s.entry.ref_ptr.0) × (result.ref_ptr.1 ≡ start_of s.now a e + s.entry.ref_ptr.1) }
{
    if s.len() < e {
        return &s[0..0];
    }
    if e < a {
        return &s[0..0];
    }
    &s[a..e]
}

// The byte at a place of a run, 0 past its end.
pub fn byte_at(s: &[u8], i: usize) -> u8
    ensures { result ≡ get_or s.now i 0 }
{
    s.get(i).copied().unwrap_or(0)
}

// The number of the first two, four or eight bytes of a run, high byte first. Bytes past its end are 0.
#[tactic(auto, unfolding(crate::specs::Words::wide_of))]
pub fn wide16(s: &[u8]) -> u16
    ensures { result ≡ wide_of 2 s.now }
{
    u16::from_be_bytes([byte_at(s, 0), byte_at(s, 1)])
}

#[tactic(auto, unfolding(crate::specs::Words::wide_of))]
pub fn wide32(s: &[u8]) -> u32
    ensures { result ≡ wide_of 4 s.now }
{
    u32::from_be_bytes([byte_at(s, 0), byte_at(s, 1), byte_at(s, 2), byte_at(s, 3)])
}

#[tactic(auto, unfolding(crate::specs::Words::wide_of))]
pub fn wide64(s: &[u8]) -> u64
    ensures { result ≡ wide_of 8 s.now }
{
    u64::from_be_bytes([
        byte_at(s, 0),
        byte_at(s, 1),
        byte_at(s, 2),
        byte_at(s, 3),
        byte_at(s, 4),
        byte_at(s, 5),
        byte_at(s, 6),
        byte_at(s, 7),
    ])
}

fn word_of(s: &[u8]) -> Word
    ensures { result ≡ word_of s.now }
{
    if s.len() == 0 {
        return Word::Nothing;
    }
    if s.len() == 1 {
        return if s[0] == b'/' {
            Word::Slash
        } else {
            Word::Other
        };
    }
    if 2 < s.len() {
        return Word::Other;
    }
    let h = text::digit_value(s[0]);
    let l = text::digit_value(s[1]);
    if 15 < h {
        return Word::Other;
    }
    if 15 < l {
        return Word::Other;
    }
    Word::Byte(h * 16 + l)
}

// A word more; none where it is neither a byte nor a slash. A byte that the run has no room for is let go: no line is so long.
fn grown(g: Groups, bytes: &mut [u8], s: &[u8]) -> Option<Groups>
    requires { g.c ≤ length bytes.old }
    ensures { Grows g bytes.old s.now result bytes.new }
{
    let count = g.count;
    let n = g.c;
    match word_of(s) {
        Word::Nothing => Some(g),
        Word::Slash => {
            let more = if count < 4 { count + 1 } else { 4 };
            Some(Groups { count: more, ..g })
        }
        Word::Byte(x) => {
            if bytes.len() <= n {
                return Some(g);
            }
            bytes[n] = x;
            let e = n + 1;
            let a = if count == 1 { e } else { g.a };
            let b = if count <= 2 { e } else { g.b };
            Some(Groups { count, a, b, c: e })
        }
        Word::Other => None,
    }
}

// The groups that the words of a line from a place on say, their bytes put to the front of a run; none where a word is neither a byte nor a
// slash. (A while: each turn goes on behind the word that it read.)
pub fn parse(line: &[u8], from: usize, bytes: &mut [u8]) -> Option<Groups>
    ensures { Reads line.now from bytes.old result bytes.new }
{
    let mut g = Groups {
        count: 1,
        a: 0,
        b: 0,
        c: 0,
    };
    let mut i = from;
    while i <= line.len() {
        let e = words::until(line, i, b' ');
        g = grown(g, bytes, &line[i..e])?;
        i = e + 1;
    }
    Some(g)
}
