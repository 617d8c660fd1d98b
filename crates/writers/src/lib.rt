// Replies and events written into a lent buffer, each by the layout of its family (crates reply and event have the definitions; crate request_writers
// writes requests). It leans on lead for the leads and the most data, and on frame for the last step of writing. Document 01, "Frames"; document
// 02, W-206.
#![tactic(auto, using(frame::specs::Written::refuses, frame::specs::Written::passes), unfolding(reply::specs::Writing::reply_frame, event::specs::Writing::event_frame))]

ghost use Rattle.std.specs.Prelude.{suc, ◌+◌, ◌^◌, ◌≡◌, [], ◌∷◌, ◌++◌, take};
ghost use Rattle.order.specs.Big.{big_bytes};
ghost use Rattle.frame.specs.Written.{Written};
ghost use Rattle.reply.specs.Writing.{reply_frame};
ghost use Rattle.event.specs.Layout.{width_of};
ghost use Rattle.event.specs.Writing.{event_frame};

use event::{Layout, Mac};
use refusal::Refusal;

// Writes a reply: 2 where the type is none, 4 where there are more than 64 data bytes, 8 where the buffer is too short.
pub fn reply(kind: u8, sequence: u8, data: &[u8], out: &mut [u8]) -> Result<usize, Refusal>
    ensures { Written (reply_frame kind sequence «data».now) out.old result out.new }
{
    if !lead::is_reply(kind) {
        return Err(Refusal::BadLead);
    }
    let n = data.len();
    if lead::REPLY_DATA < n {
        return Err(Refusal::BadLengthByte);
    }
    frame::write(&[kind, sequence, n as u8], data, out)
}

// The largest target that the bytes of a layout hold.
fn target_most(layout: Layout) -> u32
    ensures { suc result ≡ 256 ^ width_of layout }
{
    match layout {
        Layout::Three => 0xFFFFFF,
        Layout::Two => 0xFFFF,
    }
}

// The bytes between the MAC address and the data: the target, the type and n, and a 0 behind them where the target has two bytes.
fn behind_mac(layout: Layout, target: u32, kind: u8, n: u8) -> [u8; 5]
    ensures { take (2 + width_of layout) result ≡ big_bytes (width_of layout) target ++ (kind ∷ n ∷ []) }
{
    let t = target.to_be_bytes();
    match layout {
        Layout::Three => [t[1], t[2], t[3], kind, n],
        Layout::Two => [t[2], t[3], kind, n, 0],
    }
}

// Writes an event of this layout: 4 where there are more than 48 data bytes, 7 where the target is too large for its bytes or an
// instance event has no data, 8 where the buffer is too short.
pub fn event(
    layout: Layout,
    mac: Mac,
    target: u32,
    kind: u8,
    data: &[u8],
    out: &mut [u8],
) -> Result<usize, Refusal>
    ensures { Written (event_frame (width_of layout) mac target kind «data».now) out.old result out.new }
{
    let n = data.len();
    if lead::EVENT_DATA < n {
        return Err(Refusal::BadLengthByte);
    }
    if target_most(layout) < target {
        return Err(Refusal::BadArgument);
    }
    if event_type::has_instance(kind) && n == 0 {
        return Err(Refusal::BadArgument);
    }
    let b = behind_mac(layout, target, kind, n as u8);
    let head = [
        lead::EVENT[0],
        lead::EVENT[1],
        mac.0,
        mac.1,
        mac.2,
        mac.3,
        mac.4,
        mac.5,
        b[0],
        b[1],
        b[2],
        b[3],
        b[4],
    ];
    frame::write(&head[..layout.data_at()], data, out)
}
