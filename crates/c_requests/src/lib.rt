// Requests as programs in C have them: structs laid out as C does, and what turns the answers of crates request, meaning, target and colour into them,
// and an address back. A refusal is its number by document 01, 0 stands for none, and every other field of a refused call is 0. Each contract is an
// equation over what the answer says.
#![tactic(auto)]

ghost use Rattle.std.specs.Prelude.{◌≡◌};
ghost use Rattle.refusal.specs.Answer.{full, said_of};
ghost use Rattle.target.specs.Target.{said_target};
ghost use Rattle.colour.specs.Colour.{said_colour};
ghost use Rattle.meaning.specs.Meaning.{said_meaning};
ghost use Rattle.request.specs.Said.{said_request};
ghost use Rattle.c_requests.specs.Requests.{aim_out, means_out, meaning_out, colourless, colour_out, contentless, request_out, address_in};

use colour::Colour;
use meaning::Meaning;
use refusal::Refusal;
use request::{Contents, Ipv4, Request};
use target::{LineTarget, Target};

// What a target names: 1 gear and 2 a group, each by its number, 3 broadcast, 4 it is no target; 0 where no target is meant.
#[repr(C)]
#[derive(Drop)]
pub struct WickAim {
    pub kind: u8,
    pub number: u8,
}

// What the arguments of a basic request mean: one of 14 kinds, and its numbers in the order in which crate meaning has them; 0 where it
// has fewer. Kind 0 is no meaning, as for commands 40 and 0E.
#[repr(C)]
#[derive(Drop)]
pub struct WickMeaning {
    pub kind: u8,
    pub aim: WickAim,
    pub first: u8,
    pub second: u8,
    pub third: u8,
    pub wide: u16,
}

// An IPv4 address, in the order in which it is written.
#[repr(C)]
#[derive(Drop)]
pub struct WickAddress {
    pub b0: u8,
    pub b1: u8,
    pub b2: u8,
    pub b3: u8,
}

// What a colour request says: the type of its colour (0 is no colour), its target as it stands, what that lights, the level, and the channels
// of the type; the channels of the other types are 0.
#[repr(C)]
#[derive(Drop)]
pub struct WickColour {
    pub kind: u8,
    pub target: u8,
    pub aim: WickAim,
    pub level: u8,
    pub red: u8,
    pub green: u8,
    pub blue: u8,
    pub white: u8,
    pub amber: u8,
    pub free: u8,
    pub x: u16,
    pub y: u16,
    pub tc: u16,
}

// A request: its four arguments and what they mean, or for command 40 its port and address, or for command 0E its colour. retired is 1 where
// its command is retired, else 0.
#[repr(C)]
#[derive(Drop)]
pub struct WickRequest {
    pub refusal: u8,
    pub sequence: u8,
    pub command: u8,
    pub a: u8,
    pub b: u8,
    pub c: u8,
    pub d: u8,
    pub address: WickAddress,
    pub retired: u8,
    pub port: u16,
    pub meaning: WickMeaning,
    pub colour: WickColour,
}

// What a target names.
pub fn aim_out(t: Target) -> WickAim
    ensures { result ≡ aim_out (said_target t) }
{
    match t {
        Target::Gear(n) => WickAim { kind: 1, number: n },
        Target::Group(g) => WickAim {
            kind: 2,
            number: g.0,
        },
        Target::Broadcast => WickAim { kind: 3, number: 0 },
        Target::Nothing => WickAim { kind: 4, number: 0 },
    }
}

fn means(kind: u8, aim: WickAim, first: u8, second: u8, third: u8, wide: u16) -> WickMeaning
    ensures { result ≡ means_out kind aim first second third wide }
{
    WickMeaning {
        kind,
        aim,
        first,
        second,
        third,
        wide,
    }
}

// No target.
const NO_AIM: WickAim = WickAim { kind: 0, number: 0 };

fn meaning_out(m: Meaning) -> WickMeaning
    ensures { result ≡ meaning_out (said_meaning m) }
{
    match m {
        Meaning::Nothing => means(1, NO_AIM, 0, 0, 0, 0),
        Meaning::Group(g) => means(2, NO_AIM, g.0, 0, 0, 0),
        Meaning::Emit(a) => means(3, NO_AIM, a, 0, 0, 0),
        Meaning::Timers { device, instance } => means(4, NO_AIM, device.0, instance, 0, 0),
        Meaning::GroupScene { group, scene } => means(5, NO_AIM, group.0, scene, 0, 0),
        Meaning::Channel { universe, channel } => means(6, NO_AIM, universe, 0, 0, channel),
        Meaning::Filter {
            address,
            instance,
            mask,
        } => means(7, NO_AIM, address, instance, 0, mask),
        Meaning::Query {
            address,
            start,
            instance,
        } => means(8, NO_AIM, address, start, instance, 0),
        Meaning::Gear(a) => means(9, NO_AIM, a, 0, 0, 0),
        Meaning::Inhibit { target, seconds } => means(10, aim_out(target), 0, 0, 0, seconds),
        Meaning::Scene { target, scene } => means(11, aim_out(target), scene, 0, 0, 0),
        Meaning::Level { target, level } => means(12, aim_out(target), level, 0, 0, 0),
        Meaning::Lit(target) => means(13, aim_out(target), 0, 0, 0, 0),
        Meaning::Target(target) => means(14, aim_out(target), 0, 0, 0, 0),
    }
}

// A colour request before its colour is told.
fn colourless(kind: u8, target: u8, aim: WickAim, level: u8) -> WickColour
    ensures { result ≡ colourless kind target aim level }
{
    WickColour {
        kind,
        target,
        aim,
        level,
        red: 0,
        green: 0,
        blue: 0,
        white: 0,
        amber: 0,
        free: 0,
        x: 0,
        y: 0,
        tc: 0,
    }
}

// What a colour request says, by the type of its colour.
fn colour_out(target: LineTarget, lights: Target, level: u8, colour: Colour) -> WickColour
    ensures { result ≡ colour_out target.0 (said_target lights) level (said_colour colour) }
{
    let address = target.0;
    let aim = aim_out(lights);
    match colour {
        Colour::Xy { x, y } => WickColour {
            x,
            y,
            ..colourless(command::COLOUR_XY, address, aim, level)
        },
        Colour::Tc(tc) => WickColour {
            tc,
            ..colourless(command::COLOUR_TC, address, aim, level)
        },
        Colour::Rgbwaf {
            red,
            green,
            blue,
            white,
            amber,
            free,
        } => WickColour {
            red,
            green,
            blue,
            white,
            amber,
            free,
            ..colourless(command::COLOUR_RGBWAF, address, aim, level)
        },
    }
}

// A request before its contents are told.
fn contentless(refusal: u8, sequence: u8, command: u8, retired: u8) -> WickRequest
    ensures { result ≡ contentless refusal sequence command retired }
{
    WickRequest {
        refusal,
        sequence,
        command,
        a: 0,
        b: 0,
        c: 0,
        d: 0,
        address: WickAddress {
            b0: 0,
            b1: 0,
            b2: 0,
            b3: 0,
        },
        retired,
        port: 0,
        meaning: means(0, NO_AIM, 0, 0, 0, 0),
        colour: colourless(0, 0, NO_AIM, 0),
    }
}

fn accepted_request(r: Request) -> WickRequest
    ensures { result ≡ request_out (full (said_request r)) }
{
    let w = contentless(0, r.sequence, r.command, u8::from(r.retired));
    match r.contents {
        Contents::Basic { arguments, meaning } => WickRequest {
            a: arguments.a,
            b: arguments.b,
            c: arguments.c,
            d: arguments.d,
            meaning: meaning_out(meaning),
            ..w
        },
        Contents::Unicast { port, address } => WickRequest {
            port,
            address: WickAddress {
                b0: address.0,
                b1: address.1,
                b2: address.2,
                b3: address.3,
            },
            ..w
        },
        Contents::Colour {
            target,
            lights,
            level,
            colour,
        } => WickRequest {
            colour: colour_out(target, lights, level, colour),
            ..w
        },
    }
}

// What reading a request datagram answers.
pub fn request_out(r: Result<Request, Refusal>) -> WickRequest
    ensures { result ≡ request_out (said_of said_request r) }
{
    match r {
        Ok(x) => accepted_request(x),
        Err(k) => contentless(k.number(), 0, 0, 0),
    }
}

// The address of crate request.
pub fn address_in(a: WickAddress) -> Ipv4
    ensures { result ≡ address_in a }
{
    Ipv4(a.b0, a.b1, a.b2, a.b3)
}
