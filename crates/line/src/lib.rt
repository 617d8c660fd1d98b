// The request line and the reply line: what the bytes at a position of a line say. One rule serves both lines; a line is its
// lead, what its first bytes tell of a frame's length (crate extent), and the table of its arguments. It leans on the sum, the
// commands, their ranges and the words of a stream (crate stream). Document 01, "Reading a line"; document 02, W-202.
#![tactic(auto)]

ghost use Rattle.std.specs.Prelude.{◌≤◌, ◌≡◌, length};
ghost use Rattle.extent.specs.Line.{in_table, request_in_table, least_of};
ghost use Rattle.line.specs.Rule.{settle, frame_item, item_at};
ghost use Rattle.line.specs.Said.{said_at};
ghost use Rattle.stream.specs.Stream.{Settled};
ghost use Rattle.stream.specs.Said.{said_step};

use command::Shape;
use extent::{Extent, extent_of, leads};
pub use extent::{Line, REPLY_LONGEST, REQUEST_LONGEST, most};
use stream::Step;

// Whether the arguments of a whole frame are in the table.
fn fits(line: Line, f: &[u8]) -> bool
    requires { least_of line ≤ length f.now }
    ensures { result ≡ in_table line f.now }
{
    match line {
        Line::Request => arguments_fit(f),
        Line::Reply => true,
    }
}

fn arguments_fit(f: &[u8]) -> bool
    requires { 8 ≤ length f.now }
    ensures { result ≡ request_in_table f.now }
{
    match command::shape_of(f[2]) {
        Shape::Unknown => true,
        Shape::Basic(rule) => ranges::fits(rule, f[3], f[4], f[5], f[6]),
        Shape::Unicast => true,
        Shape::Colour => target::is_lighting(f[3]),
    }
}

// An item of one byte, where so many bytes settle it.
fn one_byte(number: u8, settled: usize) -> Step
    ensures { said_step (Some result) ≡ Settled number 1 settled }
{
    Step {
        number,
        size: 1,
        settled,
    }
}

// The item at a position where a frame of n bytes begins.
fn frame(line: Line, n: usize, s: &[u8]) -> Option<Step>
    requires { least_of line ≤ n }
    ensures { said_step result ≡ frame_item line n s.now }
{
    if s.len() < n {
        return None;
    }
    let f = &s[..n];
    if sum::xor(f) != 0 {
        return Some(one_byte(6, n));
    }
    let number = if fits(line, f) { 0 } else { 7 };
    Some(Step {
        number,
        size: n,
        settled: n,
    })
}

// What the rule of a line says of the bytes at a position: an item, or that more are needed.
pub fn settled(line: Line, s: &[u8]) -> Option<Step>
    ensures { said_step result ≡ settle line s.now }
{
    if s.is_empty() {
        return None;
    }
    if !leads(line, s[0]) {
        return Some(one_byte(2, 1));
    }
    match extent_of(line, s) {
        Extent::Wait => None,
        Extent::Bad(k, d) => Some(one_byte(k, d)),
        Extent::Frame(n) => frame(line, n, s),
    }
}

// An item that stands at a position, by its number and its size.
#[derive(Clone, Copy, Debug, PartialEq, Eq)]
pub struct Item {
    pub number: u8,
    pub size: usize,
}

// What stands at a position from which on these bytes are there: an item, or nothing (yet, or no more). Where the line is closed no more
// come: what would wait is then item 1, one byte.
pub fn item_at(line: Line, closed: bool, s: &[u8]) -> Option<Item>
    ensures { said_at result ≡ item_at line closed s.now }
{
    if s.is_empty() {
        return None;
    }
    match settled(line, s) {
        Some(Step { number, size, .. }) => Some(Item { number, size }),
        None if closed => Some(Item { number: 1, size: 1 }),
        None => None,
    }
}
