// A frame in a lent buffer: some bytes, and behind them the sum that makes the exclusive-or of all 0. It is the last step
// of every writer, with the one refusal that all writers share: 8, the buffer is shorter than the frame.
// Document 01, "Frames" and "Refusals, by number".
#![tactic(auto)]

ghost use Rattle.std.specs.Prelude.{◌++◌};
ghost use Rattle.refusal.specs.Answer.{full};
ghost use Rattle.frame.specs.Frame.{sealed};
ghost use Rattle.frame.specs.Written.{Written};

use refusal::Refusal;

// Writes the bytes of head, those of data, and their sum. Where they do not fit, no byte of the buffer changes; where they
// do, the bytes behind the frame stay.
pub fn write(head: &[u8], data: &[u8], out: &mut [u8]) -> Result<usize, Refusal>
    ensures { Written (full (sealed (head.now ++ «data».now))) out.old result out.new }
{
    let h = head.len();
    let e = h + data.len();
    if out.len() <= e {
        return Err(Refusal::NoRoom);
    }
    lent::word(out, 0, head);
    lent::word(out, h, data);
    let x = sum::xor(&out[..e]);
    out[e] = x;
    Ok(e + 1)
}
