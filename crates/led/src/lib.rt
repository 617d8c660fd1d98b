// Parts that are led by their length: two bytes that say how many follow, high byte first, and so many bytes. The records of a capture
// stand so, one behind the other, and so do the datagrams of a collector's run. It leans on crate order for the number. Document 02, W-207
// and W-208.
#![tactic(auto)]

ghost use Rattle.std.specs.Prelude.{◌≡◌, drop};
ghost use Rattle.refusal.specs.Answer.{is_full};
ghost use Rattle.led.specs.Led.{said_part, part_at, parts_of};

// How many bytes the length itself takes.
pub const LEAD: usize = 2;

// How many bytes follow the length of the part that begins at a place of a run; none where the run ends before them, or inside the length.
pub fn part_at(s: &[u8], at: usize) -> Option<usize>
    ensures { said_part result ≡ part_at (drop at s.now) }
{
    let left = s.len().checked_sub(at)?;
    if left < LEAD {
        return None;
    }
    let n = order::high_first(s[at], s[at + 1]) as usize;
    if left - LEAD < n {
        return None;
    }
    Some(n)
}

// Whether a run is parts one behind the other, from its front to its end.
pub fn is_whole(s: &[u8]) -> bool
    ensures { result ≡ is_full (parts_of s.now) }
{
    let mut i: usize = 0;
    // a `while`: the step is the length that was read, so no range goes through these places
    while i < s.len() {
        let Some(n) = part_at(s, i) else {
            return false;
        };
        i += LEAD + n;
    }
    true
}
