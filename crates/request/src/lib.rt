// Requests as single datagrams, read (crate request_writers writes them). Basic requests, the one dynamic request, 40, and colour requests. It
// leans on crate command for shapes and lengths, on crate ranges for the ranges, on crate meaning for what arguments say, and on crate
// colour for colours. Document 01, "Frames" and "Requests and their argument ranges"; document 02, W-202 and W-210; source 002, "Basic
// Request Frame", "TPI Dynamic Subframe" and "DALI Colour Request Frame".
#![tactic(auto)]

ghost use Rattle.std.specs.Prelude.{◌≡◌, ◌≤◌, length};
ghost use Rattle.refusal.specs.Answer.{said_of};
ghost use Rattle.frame.specs.Frame.{byte};
ghost use Rattle.command.specs.Command.{is_retired};
ghost use Rattle.colour.specs.Colour.{said_colour, hue_in};
ghost use Rattle.request.specs.Said.{said_request};
ghost use Rattle.request.specs.Reading.{read_request, read_basic, read_unicast, colour_data, judged, read_coloured};

use colour::Colour;
use command::{Command, Rule, Shape};
use meaning::{Arguments, Meaning};
use refusal::Refusal;
use target::{LineTarget, Target};

// An IPv4 address, in the order in which it is written.
#[derive(Clone, Copy, Debug, PartialEq, Eq)]
pub struct Ipv4(pub u8, pub u8, pub u8, pub u8);

// What a request holds behind its header. A colour request keeps its target beside what that lights: 127 and 255 are both broadcast.
#[derive(Clone, Copy, Debug, PartialEq, Eq)]
pub enum Contents {
    Basic {
        arguments: Arguments,
        meaning: Meaning,
    },
    Unicast {
        port: u16,
        address: Ipv4,
    },
    Colour {
        target: LineTarget,
        lights: Target,
        level: u8,
        colour: Colour,
    },
}

// A request that was read. One whose command is retired is "marked as retired" and reads as before.
#[derive(Clone, Copy, Debug, PartialEq, Eq)]
pub struct Request {
    pub sequence: u8,
    pub command: u8,
    pub retired: bool,
    pub contents: Contents,
}

// A basic request whose command has this rule and this mark.
#[tactic(auto, unfolding(crate::specs::Reading::read_basic))]
fn read_basic(rule: Rule, retired: bool, s: &[u8]) -> Result<Request, Refusal>
    requires { (8 ≤ length s.now) × (retired ≡ is_retired (byte 2 s.now)) }
    ensures { said_of said_request result ≡ read_basic rule s.now }
{
    if s.len() != command::BASIC_BYTES {
        return Err(Refusal::BadLength);
    }
    if sum::xor(s) != 0 {
        return Err(Refusal::BadSum);
    }
    let a = s[3];
    let b = s[4];
    let c = s[5];
    let d = s[6];
    if !ranges::fits(rule, a, b, c, d) {
        return Err(Refusal::BadArgument);
    }
    let meaning = meaning::meaning_of(rule, a, b, c, d);
    Ok(Request {
        sequence: s[1],
        command: s[2],
        retired,
        contents: Contents::Basic {
            arguments: Arguments { a, b, c, d },
            meaning,
        },
    })
}

// Request 40, with the mark of its command.
#[tactic(auto, unfolding(crate::specs::Reading::read_unicast))]
fn read_unicast(retired: bool, s: &[u8]) -> Result<Request, Refusal>
    requires { (8 ≤ length s.now) × (retired ≡ is_retired (byte 2 s.now)) }
    ensures { said_of said_request result ≡ read_unicast s.now }
{
    if s[3] != command::UNICAST_LENGTH {
        return Err(Refusal::BadLengthByte);
    }
    if s.len() != command::UNICAST_BYTES {
        return Err(Refusal::BadLength);
    }
    if sum::xor(s) != 0 {
        return Err(Refusal::BadSum);
    }
    let port = order::high_first(s[4], s[5]);
    Ok(Request {
        sequence: s[1],
        command: s[2],
        retired,
        contents: Contents::Unicast {
            port,
            address: Ipv4(s[6], s[7], s[8], s[9]),
        },
    })
}

// A colour request whose colour was read: its sum and its address.
fn read_coloured(colour: Colour, retired: bool, s: &[u8]) -> Result<Request, Refusal>
    requires { (8 ≤ length s.now) × (retired ≡ is_retired (byte 2 s.now)) × (said_colour colour ≡ hue_in (byte 5 s.now) (colour_data s.now)) }
    ensures { said_of said_request result ≡ judged s.now }
{
    if sum::xor(s) != 0 {
        return Err(Refusal::BadSum);
    }
    let address = s[3];
    if !target::is_lighting(address) {
        return Err(Refusal::BadArgument);
    }
    let target = LineTarget(address);
    Ok(Request {
        sequence: s[1],
        command: s[2],
        retired,
        contents: Contents::Colour {
            target,
            lights: target.lights(),
            level: s[4],
            colour,
        },
    })
}

// A colour request: its colour data stands between its type and its sum.
#[tactic(auto, using(crate::specs::Coloured::colour_refused, crate::specs::Coloured::colour_judged, crate::specs::Coloured::colour_same))]
fn read_colour(retired: bool, s: &[u8]) -> Result<Request, Refusal>
    requires { (8 ≤ length s.now) × (retired ≡ is_retired (byte 2 s.now)) }
    ensures { said_of said_request result ≡ read_coloured s.now }
{
    let end = s.len() - 1;
    let colour = colour::read(s[5], &s[command::COLOUR_DATA_AT..end])?;
    read_coloured(colour, retired, s)
}

// What a datagram says as a request: the lowest refusal that applies, or a full reading, marked where its command is retired.
#[tactic(auto, using(command::specs::Known::shape_told), unfolding(crate::specs::Reading::read_request))]
pub fn read(s: &[u8]) -> Result<Request, Refusal>
    ensures { said_of said_request result ≡ read_request s.now }
{
    if s.len() < command::BASIC_BYTES {
        return Err(Refusal::TooShort);
    }
    if s[0] != lead::REQUEST {
        return Err(Refusal::BadLead);
    }
    let Command(shape, retired) = command::decide(s[2]);
    match shape {
        Shape::Unknown => Err(Refusal::UnknownCommand),
        Shape::Basic(rule) => read_basic(rule, retired, s),
        Shape::Unicast => read_unicast(retired, s),
        Shape::Colour => read_colour(retired, s),
    }
}
