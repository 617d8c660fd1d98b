// Events as single datagrams, read, with their data part (crate writers writes them). It leans on lead for the lead and the most data, on
// order for the target, on event_type for the type and the instance, on sum for the sum.
// Document 01, "Frames"; source 002, "TPI Event Multicast Frame".
#![tactic(auto)]

ghost use Rattle.std.specs.Prelude.{◌+◌, ◌≤◌, ◌≡◌, length};
ghost use Rattle.refusal.specs.Answer.{said_of};
ghost use Rattle.order.specs.Order.{high_first, number_in};
ghost use Rattle.frame.specs.Frame.{listed};
ghost use Rattle.event.specs.Layout.{width_of, target_at, data_at, least};
ghost use Rattle.event.specs.Reading.{said_event, read_event, data_of, data_start};

use event_type::EventType;
use refusal::Refusal;

// "Event, 14 + n bytes: 5A 43, six MAC bytes, three target bytes, event type, n, n data bytes, sum": the MAC address stands in places
// 2 to 7, the target behind it.
const TARGET_AT: usize = 8;

// The layout of an event datagram, by the bytes of its target: three in source 002's table; two of other controllers, so that all behind it
// stands one place earlier (document 02, W-206). No byte of a datagram says which it is, so the caller does.
#[derive(Clone, Copy, Debug, PartialEq, Eq)]
pub enum Layout {
    Three,
    Two,
}

impl Layout {
    // How many bytes the target has.
    pub fn width(self) -> usize
        ensures { result ≡ width_of self }
    {
        match self {
            Layout::Three => 3,
            Layout::Two => 2,
        }
    }

    // Where the data begins: behind the target stand the type and n.
    pub fn data_at(self) -> usize
        ensures { result ≡ data_at (width_of self) }
    {
        match self {
            Layout::Three => 13,
            Layout::Two => 12,
        }
    }
}

// The MAC address of a controller, in the order in which it is written.
#[derive(Clone, Copy, Debug, PartialEq, Eq)]
pub struct Mac(pub u8, pub u8, pub u8, pub u8, pub u8, pub u8);

// An event: the controller's MAC address, the target as a number, the type, how many data bytes it has, and the instance.
#[derive(Clone, Copy, Debug, PartialEq, Eq)]
pub struct Event {
    pub mac: Mac,
    pub target: u32,
    pub kind: EventType,
    pub n: usize,
    pub instance: Option<u8>,
}

// The target of a datagram, whose bytes are three or two, as a number.
fn target_in(w: usize, s: &[u8]) -> u32
    requires { (2 ≤ w) × (w ≤ 3) × (least w ≤ length s.now) }
    ensures { result ≡ number_in high_first w (listed target_at w s.now) }
{
    if w == 3 {
        order::high_first_of_three(s[TARGET_AT], s[TARGET_AT + 1], s[TARGET_AT + 2])
    } else {
        order::high_first(s[TARGET_AT], s[TARGET_AT + 1]) as u32
    }
}

// What a datagram says as an event whose target has so many bytes.
#[tactic(auto, using(crate::specs::Fits::count_place, crate::specs::Fits::data_place), unfolding(crate::specs::Reading::read_event))]
fn read_by(w: usize, s: &[u8]) -> Result<Event, Refusal>
    requires { (2 ≤ w) × (w ≤ 3) }
    ensures { said_of said_event result ≡ read_event w s.now }
{
    let least = TARGET_AT + w + 3;
    if s.len() < least {
        return Err(Refusal::TooShort);
    }
    if !lead::is_event(s[0], s[1]) {
        return Err(Refusal::BadLead);
    }
    let n = s[TARGET_AT + w + 1] as usize;
    if lead::EVENT_DATA < n {
        return Err(Refusal::BadLengthByte);
    }
    if s.len() != n + least {
        return Err(Refusal::BadLength);
    }
    if sum::xor(s) != 0 {
        return Err(Refusal::BadSum);
    }
    let kind = s[TARGET_AT + w];
    if event_type::has_instance(kind) && n == 0 {
        return Err(Refusal::BadArgument);
    }
    Ok(Event {
        mac: Mac(s[2], s[3], s[4], s[5], s[6], s[7]),
        target: target_in(w, s),
        kind: EventType::from(kind),
        n,
        instance: event_type::instance_of(kind, s[TARGET_AT + w + 2]),
    })
}

// What a datagram of this layout says as an event: the lowest refusal that applies, or a full reading.
pub fn read(layout: Layout, s: &[u8]) -> Result<Event, Refusal>
    ensures { said_of said_event result ≡ read_event (width_of layout) s.now }
{
    read_by(layout.width(), s)
}

// The data of an event, as that part of the caller's own datagram, the instance included; empty where the datagram is refused.
#[tactic(auto, using(crate::specs::Fits::read_fits))]
pub fn data(layout: Layout, s: &[u8]) -> &[u8]
    ensures { (result.now ≡ data_of (width_of layout) s.now)
        × (result.ref_ptr.0 ≡ s.entry.ref_ptr.0)
        × (result.ref_ptr.1 ≡ data_start (width_of layout) s.now + s.entry.ref_ptr.1) }
{
    match read(layout, s) {
        Ok(event) => {
            let at = layout.data_at();
            &s[at..at + event.n]
        }
        Err(_) => &s[..0],
    }
}
