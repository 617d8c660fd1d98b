// The report of one corridor through four seasons, taken of a capture in one pass over its records. It leans on capture for what is judged
// of it, on passing for the pass, on tally for the four seasons. Document 02, W-213.
#![tactic(auto)]

ghost use Rattle.std.specs.Prelude.{◌≡◌};
ghost use Rattle.refusal.specs.Answer.{said};
ghost use Rattle.report.specs.Report.{reported};

use refusal::Refusal;
use season::{Boundaries, Corridor, Season};

// The report over a capture: 14 and 15 for the capture, then 20 where the boundaries do not rise.
pub fn report(
    buf: &[u8],
    used: usize,
    who: Corridor,
    b: Boundaries,
) -> Result<[Season; tally::SEASONS], Refusal>
    ensures { said result ≡ reported buf.now used who b }
{
    let layout = capture::front(buf, used)?;
    let p = passing::over(layout, &buf[1..used], who, b, passing::nothing());
    if p.at < used - 1 {
        return Err(Refusal::BadRecord);
    }
    if !season::rising(b) {
        return Err(Refusal::NotRising);
    }
    Ok(p.passed.tally.seasons)
}
