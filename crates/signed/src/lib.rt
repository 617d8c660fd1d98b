// A signed number of 32 bits in decimal, put into a lent buffer from a place on. It leans on crates lent and text, which put the parts of it.
#![tactic(auto)]

ghost use Rattle.std.specs.Prelude.{◌≡◌, pos};
ghost use Rattle.std.specs.Int.Signed.{lt_z};
ghost use Rattle.lent.specs.All.{PutsAll};
ghost use Rattle.signed.specs.Signed.{signed_texts};

// Whether a number is below 0.
fn is_below(z: i32) -> bool
    ensures { result ≡ lt_z z (pos 0) }
{
    z < 0
}

// Puts a number in decimal, with a `-` in front where it is below 0, each of the two where it has room.
pub fn decimal(out: &mut [u8], at: usize, z: i32) -> usize
    ensures { PutsAll (signed_texts z) out.old at result out.new }
{
    let n = u64::from(z.unsigned_abs());
    if is_below(z) {
        let e = lent::word(out, at, b"-");
        return text::decimal(out, e, n);
    }
    text::decimal(out, at, n)
}
