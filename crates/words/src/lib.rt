// The words of a run of bytes, parted by a byte: where one ends, and one of them, by its number from 0, put into a lent buffer. It leans
// on crate lent, and on crate refusal for the words of a test.
#![tactic(auto)]

ghost use Rattle.std.specs.Prelude.{◌+◌, ◌≤◌, ◌≡◌, length, drop};
ghost use Rattle.lent.specs.Puts.{Puts};
ghost use Rattle.words.specs.Words.{before, first_in, word_in};

// The first place from a place on where a byte stands, or the run's end.
pub fn until(s: &[u8], from: usize, b: u8) -> usize
    ensures { result ≡ from + before b (drop from s.now) }
{
    for i in from..s.len() {
        if s[i] == b {
            return i;
        }
    }
    from.max(s.len())
}

// Where a word begins; where there are fewer words, the run's end.
fn start(names: &[u8], part: u8, k: usize) -> usize
    ensures { (result ≤ length names.now) × (first_in part (drop result names.now) ≡ word_in part k names.now) }
{
    let mut at = 0;
    for _ in 0..k {
        let e = until(names, at, part);
        if names.len() <= e {
            return names.len();
        }
        at = e + 1;
    }
    at
}

// Puts a word; where there are fewer words, nothing.
pub fn put(out: &mut [u8], at: usize, names: &[u8], part: u8, k: usize) -> usize
    ensures { Puts (word_in part k names.now) out.old at result out.new }
{
    let i = start(names, part, k);
    let e = until(names, i, part);
    lent::word(out, at, &names[i..e])
}
