// Bytes in a lent buffer, from a place on: a byte, or those of a run. Each function answers the place behind what it wrote. Where there
// is no room for the whole of it, it writes nothing and answers the place that it was given. Whatever this codec puts behind other
// bytes leans on it: frames (crate frame), held bytes (crate reader), text (crate text). It leans on crate refusal for the words of a test.
#![tactic(auto)]

ghost use Rattle.std.specs.Prelude.{[], ◌∷◌};
ghost use Rattle.lent.specs.Puts.{Puts};

// Puts a byte as it is.
pub fn byte(out: &mut [u8], at: usize, b: u8) -> usize
    ensures { Puts (b ∷ []) out.old at result out.new }
{
    if out.len() <= at {
        return at;
    }
    out[at] = b;
    at + 1
}

// Puts the bytes of a run as they are.
pub fn word(out: &mut [u8], at: usize, s: &[u8]) -> usize
    ensures { Puts s.now out.old at result out.new }
{
    let n = s.len();
    if out.len() < n || out.len() - n < at {
        return at;
    }
    // byte by byte: by copy_from_slice the archive for C needs memmove from outside
    for i in 0..n {
        out[at + i] = s[i];
    }
    at + n
}
