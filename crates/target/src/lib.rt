// Three numbers that source 002 keeps apart: a gear or group target on the line, a bare group number, and a control device
// address. Each is a type of its own, so that a group number handed over as a line target does not compile.
// Document 01, "Requests and their argument ranges".
#![tactic(auto)]

ghost use Rattle.std.specs.Prelude.{◌≡◌, ◌||◌, eqb};
ghost use Rattle.refusal.specs.Answer.{said};
ghost use Rattle.target.specs.Target.{is_lighting, said_target, aimed, line_of, lights_of, status_of, device_of, device_number};

use refusal::Refusal;

// "0–63 gear": the last gear.
pub const LAST_GEAR: u8 = 63;

// "there are 16 groups and 64 devices": the last group and the last device by their own numbers.
pub const LAST_GROUP: u8 = 15;

const LAST_NUMBER: u8 = 63;

// "group number + 64", and a control device's "own number + 64"; "so 79 and 127 end the ranges".
pub const BASE: u8 = 64;

pub const LAST_TARGET: u8 = 79;

pub const LAST_DEVICE: u8 = 127;

// "127 or 255 broadcast"; source 002: "81 can be used for broadcast status".
const LOW_BROADCAST: u8 = 127;

const BROADCAST: u8 = 255;

pub const STATUS_BROADCAST: u8 = 81;

// A target on the line: 0 to 63 gear, 64 to 79 group number + 64, 127 or 255 broadcast.
#[derive(Clone, Copy, Debug, PartialEq, Eq)]
pub struct LineTarget(pub u8);

// A bare group number, 0 to 15.
#[derive(Clone, Copy, Debug, PartialEq, Eq)]
pub struct Group(pub u8);

// A control device address, 64 to 127: the device's own number + 64.
#[derive(Clone, Copy, Debug, PartialEq, Eq)]
pub struct Device(pub u8);

// What a line target names.
#[derive(Clone, Copy, Debug, PartialEq, Eq)]
pub enum Target {
    Gear(u8),
    Group(Group),
    Broadcast,
    // It is no target.
    Nothing,
}

// Whether a number is a lighting target.
pub fn is_lighting(a: u8) -> bool
    ensures { result ≡ is_lighting a }
{
    a <= LAST_TARGET || a == LOW_BROADCAST || a == BROADCAST
}

// What a number names as a target, where one of these two numbers names all. (They are looked at last: most numbers are gear or a group.)
fn aimed(t: u8, one: u8, other: u8) -> Target
    ensures { said_target result ≡ aimed (eqb t one || eqb t other) t }
{
    if t <= LAST_GEAR {
        Target::Gear(t)
    } else if t <= LAST_TARGET {
        Target::Group(Group(t - BASE))
    } else if t == one || t == other {
        Target::Broadcast
    } else {
        Target::Nothing
    }
}

impl Group {
    // The group as a target on the line; 7 where there is no such group.
    pub fn line_target(self) -> Result<LineTarget, Refusal>
        ensures { said result ≡ line_of self }
    {
        if self.0 > LAST_GROUP {
            return Err(Refusal::BadArgument);
        }
        Ok(LineTarget(self.0 + BASE))
    }
}

impl LineTarget {
    // What a lighting command with this target lights.
    pub fn lights(self) -> Target
        ensures { said_target result ≡ lights_of self }
    {
        aimed(self.0, LOW_BROADCAST, BROADCAST)
    }

    // What a query of gear status (AB) with this target asks about: its broadcast is 81.
    pub fn status(self) -> Target
        ensures { said_target result ≡ status_of self }
    {
        aimed(self.0, STATUS_BROADCAST, STATUS_BROADCAST)
    }
}

impl Device {
    // The address of the control device with this number of its own, 0 to 63; 7 where there is no such device.
    pub fn of(number: u8) -> Result<Device, Refusal>
        ensures { said result ≡ device_of number }
    {
        if number > LAST_NUMBER {
            return Err(Refusal::BadArgument);
        }
        Ok(Device(number + BASE))
    }

    // The device's own number; 7 where this is no control device address.
    pub fn number(self) -> Result<u8, Refusal>
        ensures { said result ≡ device_number self }
    {
        if self.0 < BASE || self.0 > LAST_DEVICE {
            return Err(Refusal::BadArgument);
        }
        Ok(self.0 - BASE)
    }
}
