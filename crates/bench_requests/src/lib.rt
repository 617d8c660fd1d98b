// A request's reading as the bench's answer. docs/BENCH.md, "Datagrams". It leans on crate bench_say, and on crates request,
// meaning, colour and target for what is said.
#![tactic(auto)]

ghost use Rattle.std.specs.Prelude.{◌≡◌};
ghost use Rattle.lent.specs.All.{PutsAll};
ghost use Rattle.bench_say.specs.Pieces.{pieces_texts};
ghost use Rattle.bench_requests.specs.Requests.{contents_texts, coloured_texts, asked_texts};
ghost use Rattle.bench_requests.specs.Pieces.{names, lights_pieces, meaning_pieces, first_pieces, last_pieces, mark_pieces, head_pieces, asked_pieces, reading_rest};

use bench_say::Pieces;
use colour::Colour;
use meaning::Meaning;
use refusal::Refusal;
use request::{Contents, Request};
use target::Target;

// What a call of this family answers.
#[derive(Clone, Copy, Debug, PartialEq, Eq)]
pub enum Asked {
    Reading(Result<Request, Refusal>),
    Target(Target),
}

// The kinds of its pieces: the place of their names below, and whether a number (2), a byte (3) or nothing (1) stands behind.
const NOTHING: usize = 0x01;

const GROUP: usize = 0x12;

const EMIT: usize = 0x22;

const DEVICE: usize = 0x32;

const INSTANCE: usize = 0x42;

const SCENE: usize = 0x52;

const UNIVERSE: usize = 0x62;

const CHANNEL: usize = 0x72;

const ADDRESS: usize = 0x82;

const MASK: usize = 0x92;

const START: usize = 0xA2;

const GEAR: usize = 0xB2;

const BROADCAST: usize = 0xC1;

const NO_TARGET: usize = 0xD1;

const SECONDS: usize = 0xE2;

const LEVEL: usize = 0xF2;

const SEQUENCE: usize = 0x102;

const COMMAND: usize = 0x113;

const PORT: usize = 0x122;

const BLANK: usize = 0x132;

const ZERO: usize = 0x141;

const TARGET: usize = 0x152;

const XY: usize = 0x162;

const TC: usize = 0x172;

const RGBWAF: usize = 0x182;

const RETIRED: usize = 0x191;

fn put(out: &mut [u8], at: usize, p: Pieces) -> usize
    ensures { PutsAll (pieces_texts names p) out.old at result out.new }
{
    bench_say::put(
        out,
        at,
        b" nothing, group , emit , device , instance , scene , universe , channel , address , mask , \
start , gear , broadcast, no target, seconds , level ,0 sequence , command , port , ,0, target , xy , tc , rgbwaf , \
retired",
        p,
    )
}

// A piece, what a target names (what is lit, or asked about), and a piece behind it.
fn lights(a: usize, l: Target, c: usize, z: u64) -> Pieces
    ensures { result ≡ lights_pieces a l c z }
{
    match l {
        Target::Gear(n) => Pieces(a, 0, GEAR, n as u64, c, z, 0),
        Target::Group(g) => Pieces(a, 0, GROUP, g.0 as u64, c, z, 0),
        Target::Broadcast => Pieces(a, 0, BROADCAST, 0, c, z, 0),
        Target::Nothing => Pieces(a, 0, NO_TARGET, 0, c, z, 0),
    }
}

// What the arguments of a basic request mean.
fn meaning(m: Meaning) -> Pieces
    ensures { result ≡ meaning_pieces m }
{
    match m {
        Meaning::Nothing => Pieces(NOTHING, 0, 0, 0, 0, 0, 0),
        Meaning::Group(g) => Pieces(GROUP, g.0 as u64, 0, 0, 0, 0, 0),
        Meaning::Emit(a) => Pieces(EMIT, a as u64, 0, 0, 0, 0, 0),
        Meaning::Timers { device, instance } => Pieces(
            DEVICE,
            device.0 as u64,
            INSTANCE,
            instance as u64,
            0,
            0,
            0,
        ),
        Meaning::GroupScene { group, scene } => Pieces(
            GROUP,
            group.0 as u64,
            SCENE,
            scene as u64,
            0,
            0,
            0,
        ),
        Meaning::Channel { universe, channel } => Pieces(
            UNIVERSE,
            universe as u64,
            CHANNEL,
            channel as u64,
            0,
            0,
            0,
        ),
        Meaning::Filter {
            address,
            instance,
            mask,
        } => Pieces(
            ADDRESS,
            address as u64,
            INSTANCE,
            instance as u64,
            MASK,
            mask as u64,
            0,
        ),
        Meaning::Query {
            address,
            start,
            instance,
        } => Pieces(
            ADDRESS,
            address as u64,
            START,
            start as u64,
            INSTANCE,
            instance as u64,
            0,
        ),
        Meaning::Gear(a) => Pieces(GEAR, a as u64, 0, 0, 0, 0, 0),
        Meaning::Inhibit {
            target: lit,
            seconds,
        } => lights(0, lit, SECONDS, seconds as u64),
        Meaning::Scene { target: lit, scene } => lights(0, lit, SCENE, scene as u64),
        Meaning::Level { target: lit, level } => lights(0, lit, LEVEL, level as u64),
        Meaning::Lit(lit) => lights(0, lit, 0, 0),
        Meaning::Target(asked) => lights(0, asked, 0, 0),
    }
}

// The first three channels of a colour, and those behind them.
fn first(c: Colour) -> Pieces
    ensures { result ≡ first_pieces c }
{
    match c {
        Colour::Xy { x, y } => Pieces(XY, x as u64, BLANK, y as u64, 0, 0, 0),
        Colour::Tc(t) => Pieces(TC, t as u64, 0, 0, 0, 0, 0),
        Colour::Rgbwaf {
            red,
            green,
            blue,
            ..
        } => Pieces(
            RGBWAF,
            red as u64,
            BLANK,
            green as u64,
            BLANK,
            blue as u64,
            0,
        ),
    }
}

fn last(c: Colour) -> Pieces
    ensures { result ≡ last_pieces c }
{
    match c {
        Colour::Xy { .. } | Colour::Tc(_) => Pieces(0, 0, 0, 0, 0, 0, 0),
        Colour::Rgbwaf {
            white,
            amber,
            free,
            ..
        } => Pieces(
            BLANK,
            white as u64,
            BLANK,
            amber as u64,
            BLANK,
            free as u64,
            0,
        ),
    }
}

// What a colour request holds: its target, what that lights, its level and its colour.
fn coloured(out: &mut [u8], at: usize, target: u8, lit: Target, level: u8, c: Colour) -> usize
    ensures { PutsAll (coloured_texts target lit level c) out.old at result out.new }
{
    let e = put(out, at, Pieces(TARGET, target as u64, 0, 0, 0, 0, 0));
    let f = put(out, e, lights(0, lit, LEVEL, level as u64));
    let g = put(out, f, first(c));
    put(out, g, last(c))
}

fn contents(out: &mut [u8], at: usize, c: Contents) -> usize
    ensures { PutsAll (contents_texts c) out.old at result out.new }
{
    match c {
        Contents::Basic {
            arguments,
            meaning: said,
        } => {
            let b = [arguments.a, arguments.b, arguments.c, arguments.d];
            let e = bench_say::run(out, at, b" arguments", &b);
            put(out, e, meaning(said))
        }
        Contents::Unicast { port, address } => {
            let e = put(
                out,
                at,
                Pieces(
                    PORT,
                    port as u64,
                    ADDRESS,
                    address.0 as u64,
                    BLANK,
                    address.1 as u64,
                    0,
                ),
            );
            put(
                out,
                e,
                Pieces(BLANK, address.2 as u64, BLANK, address.3 as u64, 0, 0, 0),
            )
        }
        Contents::Colour {
            target,
            lights: lit,
            level,
            colour,
        } => coloured(out, at, target.0, lit, level, colour),
    }
}

// The mark of a request whose command is retired.
fn mark(retired: bool) -> Pieces
    ensures { result ≡ mark_pieces retired }
{
    Pieces(if retired { RETIRED } else { 0 }, 0, 0, 0, 0, 0, 0)
}

// How the answer of a reading begins.
fn head(r: Result<Request, Refusal>) -> Pieces
    ensures { result ≡ head_pieces r }
{
    match r {
        Ok(q) => Pieces(SEQUENCE, q.sequence as u64, COMMAND, 0, 0, 0, q.command),
        Err(k) => Pieces(4, k.number() as u64, 0, 0, 0, 0, 0),
    }
}

fn answer(a: Asked) -> Pieces
    ensures { result ≡ asked_pieces a }
{
    match a {
        Asked::Reading(r) => head(r),
        Asked::Target(l) => lights(ZERO, l, 0, 0),
    }
}

// The contents of a request that is accepted, and its mark.
fn accepted(out: &mut [u8], at: usize, r: Result<Request, Refusal>) -> usize
    ensures { PutsAll (reading_rest r) out.old at result out.new }
{
    match r {
        Ok(q) => {
            let e = contents(out, at, q.contents);
            put(out, e, mark(q.retired))
        }
        Err(_) => at,
    }
}

// The answer of a call.
pub fn say(out: &mut [u8], at: usize, a: Asked) -> usize
    ensures { PutsAll (asked_texts a) out.old at result out.new }
{
    let e = put(out, at, answer(a));
    match a {
        Asked::Reading(r) => accepted(out, e, r),
        Asked::Target(_) => e,
    }
}
