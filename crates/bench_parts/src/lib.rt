// Parts of datagrams, and whether a run passes, as the bench's answers. docs/BENCH.md, "Parts of datagrams" and "Lines". It leans on crate bench_say, and on crates
// command, table and target for what is said.
#![tactic(auto)]

ghost use Rattle.std.specs.Prelude.{◌≡◌};
ghost use Rattle.lent.specs.All.{PutsAll};
ghost use Rattle.bench_parts.specs.Parts.{part_texts};
ghost use Rattle.bench_parts.specs.Pieces.{known_kind, rule_kind, shape_kind, fit_kind, inside_kind, quiet_kind, entry_pieces, name_pieces, numbered_pieces, part_pieces};

use bench_say::Pieces;
use command::{Rule, Shape};
use refusal::Refusal;
use table::Entry;
use target::{Device, LineTarget};

// What is said of arguments: whether they fit, or that the command has no rule for them.
#[derive(Clone, Copy, Debug, PartialEq, Eq)]
pub enum Fit {
    Fits,
    Outside,
    NoRule,
}

// What a call of this family answers.
#[derive(Clone, Copy, Debug, PartialEq, Eq)]
pub enum Part {
    Sum(u8),
    Known(bool),
    Shape(Shape),
    Fit(Fit),
    Inside(bool),
    Quiet(bool),
    Entry(Entry),
    Name(Option<u8>),
    OnLine(Result<LineTarget, Refusal>),
    Device(Result<Device, Refusal>),
    Number(Result<u8, Refusal>),
}

// The kinds of its pieces are the places of their names, which stand in `say`, and what stands behind them (crate bench_say).
// Whether a command is known.
fn known(yes: bool) -> usize
    ensures { result ≡ known_kind yes }
{
    if yes { 0x11 } else { 0x21 }
}

fn rule(k: Rule) -> usize
    ensures { result ≡ rule_kind k }
{
    match k {
        Rule::Group => 0x41,
        Rule::Emit => 0x51,
        Rule::Bare => 0x61,
        Rule::Timers => 0x71,
        Rule::GroupScene => 0x81,
        Rule::Channel => 0x91,
        Rule::Filter => 0xA1,
        Rule::Query => 0xB1,
        Rule::Gear => 0xC1,
        Rule::Inhibit => 0xD1,
        Rule::Scene => 0xE1,
        Rule::Level => 0xF1,
        Rule::Lights => 0x101,
        Rule::Address => 0x111,
        Rule::Status => 0x121,
    }
}

// The shape of a command, and its rule.
fn shape(s: Shape) -> usize
    ensures { result ≡ shape_kind s }
{
    match s {
        Shape::Unknown => 0x21,
        Shape::Basic(k) => rule(k),
        Shape::Unicast => 0x31,
        Shape::Colour => 0x1B1,
    }
}

// Whether arguments fit.
fn fits(f: Fit) -> usize
    ensures { result ≡ fit_kind f }
{
    match f {
        Fit::Fits => 0x131,
        Fit::Outside => 0x141,
        Fit::NoRule => 0x151,
    }
}

// Whether a command is inside the quiet profile.
fn inside(yes: bool) -> usize
    ensures { result ≡ inside_kind yes }
{
    if yes { 0x1C1 } else { 0x141 }
}

// Whether a run passes.
fn quiet(yes: bool) -> usize
    ensures { result ≡ quiet_kind yes }
{
    if yes { 0x1D1 } else { 0x1E1 }
}

// The entry of a command in the table.
fn entry(e: Entry) -> Pieces
    ensures { result ≡ entry_pieces e }
{
    Pieces(0x1F2, e.shape as u64, 0x202, e.rule as u64, 0, 0, 0)
}

// The number of an error code's name.
fn name(n: Option<u8>) -> Pieces
    ensures { result ≡ name_pieces n }
{
    match n {
        Some(k) => Pieces(0x162, k as u64, 0, 0, 0, 0, 0),
        None => Pieces(0x171, 0, 0, 0, 0, 0, 0),
    }
}

// A number behind the name of this kind, or a refusal.
fn numbered(kind: usize, r: Result<u8, Refusal>) -> Pieces
    ensures { result ≡ numbered_pieces kind r }
{
    match r {
        Ok(n) => Pieces(kind, n as u64, 0, 0, 0, 0, 0),
        Err(k) => Pieces(4, k.number() as u64, 0, 0, 0, 0, 0),
    }
}

fn answer(p: Part) -> Pieces
    ensures { result ≡ part_pieces p }
{
    match p {
        Part::Sum(b) => Pieces(0x03, 0, 0, 0, 0, 0, b),
        Part::Known(yes) => Pieces(known(yes), 0, 0, 0, 0, 0, 0),
        Part::Shape(s) => Pieces(shape(s), 0, 0, 0, 0, 0, 0),
        Part::Fit(f) => Pieces(fits(f), 0, 0, 0, 0, 0, 0),
        Part::Inside(yes) => Pieces(inside(yes), 0, 0, 0, 0, 0, 0),
        Part::Quiet(yes) => Pieces(quiet(yes), 0, 0, 0, 0, 0, 0),
        Part::Entry(e) => entry(e),
        Part::Name(n) => name(n),
        // A group as a target on the line, and the address and the own number of a control device.
        Part::OnLine(t) => numbered(0x182, t.map(|t| t.0)),
        Part::Device(d) => numbered(0x192, d.map(|d| d.0)),
        Part::Number(n) => numbered(0x1A2, n),
    }
}

// The answer of a call.
pub fn say(out: &mut [u8], at: usize, p: Part) -> usize
    ensures { PutsAll (part_texts p) out.old at result out.new }
{
    bench_say::put(
        out,
        at,
        b"0 sum ,0 known,0 unknown,0 unicast,0 basic group,0 basic emit,0 basic bare,\
0 basic timers,0 basic group_scene,0 basic channel,0 basic filter,0 basic query,\
0 basic gear,0 basic inhibit,0 basic scene,0 basic level,0 basic lights,0 basic address,\
0 basic status,0 fits,0 outside,0 no rule,0 name ,0 none,0 target ,0 device ,0 number ,\
0 colour,0 inside,0 yes,0 no,0 shape , rule ",
        answer(p),
    )
}
