// The 33 known commands: each with the shape of its frame, the rule of its arguments and whether it is retired; and the colour types of the
// colour request. Document 01, "Requests and their argument ranges", and document 02, W-202 and W-210; source 002, "DALI Colour Request
// Frame".
#![tactic(auto)]

ghost use Rattle.std.specs.Prelude.{◌≡◌};
ghost use Rattle.command.specs.Command.{numbers_of, numbers_in, is_known, is_retired, Decided};
ghost use Rattle.command.specs.Colours.{data_bytes};

// The rule of a basic request's four arguments, named for what they say; crate ranges has the ranges. The commands that have it stand
// beside it.
#[derive(Clone, Copy, Debug, PartialEq, Eq)]
pub enum Rule {
    // 01, 1A
    Group,
    // 08
    Emit,
    // 09, 0A, 0B, 1C, 1D, 41
    Bare,
    // 0C
    Timers,
    // 1B
    GroupScene,
    // 20
    Channel,
    // 31, 33
    Filter,
    // 32
    Query,
    // 34, AC
    Gear,
    // A0
    Inhibit,
    // A1
    Scene,
    // A2
    Level,
    // A3 to A9
    Lights,
    // AA, AD, AE
    Address,
    // AB
    Status,
}

// "Basic request, 8 bytes": no request has fewer.
pub const BASIC_BYTES: usize = 8;

// "The source calls 0A legacy, since its reply does not say which group it means."
const RETIRED_COMMAND: u8 = 0x0A;

// "the one dynamic request 40"
pub const UNICAST_COMMAND: u8 = 0x40;

// "Request 40, 11 bytes"
pub const UNICAST_BYTES: usize = 11;

// "length 06": the length byte of request 40, the fourth of its frame, counts the bytes of port and address.
pub const UNICAST_LENGTH: u8 = 6;

// Source 002: "For the DALI Colour command this is 0x0E."
pub const COLOUR_COMMAND: u8 = 0x0E;

// "XY 0x10", "TC 0x20", "RGBWAF 0x80"; and the bytes of each type's colour data.
pub const COLOUR_XY: u8 = 0x10;

pub const COLOUR_TC: u8 = 0x20;

pub const COLOUR_RGBWAF: u8 = 0x80;

pub const XY_BYTES: usize = 4;

pub const TC_BYTES: usize = 2;

pub const RGBWAF_BYTES: usize = 6;

// The colour data stands behind lead, sequence, command, address, level and type; behind it stands the sum.
pub const COLOUR_DATA_AT: usize = 6;

// A colour request of type RGBWAF: no request has more bytes.
pub const REQUEST_LONGEST: usize = COLOUR_DATA_AT + RGBWAF_BYTES + 1;

// The shape of a command's frame: 8 bytes with four arguments, the 11 bytes of request 40, the bytes of a colour request, which its colour
// type counts, or none.
#[derive(Clone, Copy, Debug, PartialEq, Eq)]
pub enum Shape {
    Unknown,
    Basic(Rule),
    Unicast,
    Colour,
}

// What is decided of a command number: the shape of its frame with the rule of its arguments, and whether it is "marked as retired".
#[derive(Clone, Copy, Debug, PartialEq, Eq)]
pub struct Command(pub Shape, pub bool);

const RETIRED: bool = true;

const UNMARKED: bool = false;

// The one decision of shape, rule and mark: all that goes by one of these asks it, or shape_of, which hands its shape on. Whether a command is known or
// retired, and no more, is told below.
#[tactic(auto, unfolding(crate::specs::Command::numbers_in, crate::specs::Command::is_retired))]
pub fn decide(command: u8) -> Command
    ensures { Decided command result }
{
    match command {
        0x01 | 0x1A => Command(Shape::Basic(Rule::Group), UNMARKED),
        0x08 => Command(Shape::Basic(Rule::Emit), UNMARKED),
        0x09 | 0x0B | 0x1C | 0x1D | 0x41 => Command(Shape::Basic(Rule::Bare), UNMARKED),
        0x0A => Command(Shape::Basic(Rule::Bare), RETIRED),
        0x0C => Command(Shape::Basic(Rule::Timers), UNMARKED),
        0x0E => Command(Shape::Colour, UNMARKED),
        0x1B => Command(Shape::Basic(Rule::GroupScene), UNMARKED),
        0x20 => Command(Shape::Basic(Rule::Channel), UNMARKED),
        0x31 | 0x33 => Command(Shape::Basic(Rule::Filter), UNMARKED),
        0x32 => Command(Shape::Basic(Rule::Query), UNMARKED),
        0x34 | 0xAC => Command(Shape::Basic(Rule::Gear), UNMARKED),
        0x40 => Command(Shape::Unicast, UNMARKED),
        0xA0 => Command(Shape::Basic(Rule::Inhibit), UNMARKED),
        0xA1 => Command(Shape::Basic(Rule::Scene), UNMARKED),
        0xA2 => Command(Shape::Basic(Rule::Level), UNMARKED),
        0xA3..=0xA9 => Command(Shape::Basic(Rule::Lights), UNMARKED),
        0xAA | 0xAD | 0xAE => Command(Shape::Basic(Rule::Address), UNMARKED),
        0xAB => Command(Shape::Basic(Rule::Status), UNMARKED),
        _ => Command(Shape::Unknown, UNMARKED),
    }
}

// The shape and the rule of a command number.
pub fn shape_of(command: u8) -> Shape
    ensures { numbers_of result ≡ numbers_in command }
{
    decide(command).0
}

// Whether a command number is one of the 33. A match of its own: a book asks it of every entry that it comes to, and a yes or no takes a few
// instructions where it stands, a shape some twenty and a call. It is known exactly if `decide` has a shape for it, by the two contracts.
#[tactic(auto, unfolding(crate::specs::Command::shape_of))]
pub fn known(command: u8) -> bool
    ensures { result ≡ is_known command }
{
    matches!(
        command,
        0x01 | 0x08..=0x0C | 0x0E | 0x1A..=0x1D | 0x20 | 0x31..=0x34 | 0x40..=0x41 | 0xA0..=0xAE
    )
}

// Whether a command is retired: "New requests with 0A are no longer written", nor asked; what was written reads as before.
#[tactic(auto, unfolding(crate::specs::Command::is_retired))]
pub fn retired(command: u8) -> bool
    ensures { result ≡ is_retired command }
{
    command == RETIRED_COMMAND
}

// How many bytes of colour data a colour type has; 0 where the type is not listed. (0 and no Option: its contract, `data_bytes`, says 0.)
#[tactic(auto, unfolding(crate::specs::Colours::data_bytes, crate::specs::Colours::widths_of))]
pub fn colour_bytes(kind: u8) -> usize
    ensures { result ≡ data_bytes kind }
{
    match kind {
        COLOUR_XY => XY_BYTES,
        COLOUR_TC => TC_BYTES,
        COLOUR_RGBWAF => RGBWAF_BYTES,
        _ => 0,
    }
}
