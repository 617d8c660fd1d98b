// The request line and the reply line: the lead of each, what its first bytes tell of a frame's length, and the most that a reader holds. It leans on
// the leads and the commands. Document 01, "Reading a line"; document 02, W-202.
#![tactic(auto)]

ghost use Rattle.std.specs.Prelude.{◌≡◌};
ghost use Rattle.command.specs.declared.Shape.TheVariants.{Unicast, Colour};
ghost use Rattle.command.specs.Length.{length_of};
ghost use Rattle.extent.specs.Line.{is_lead, length_extent, request_extent, reply_extent, extent_of, cap_of};

use command::Shape;

#[derive(Clone, Copy, Debug)]
pub enum Line {
    Request,
    Reply,
}

// The longest frame of each line: a colour request of type RGBWAF, and a reply with the most data.
pub const REQUEST_LONGEST: usize = command::REQUEST_LONGEST;

pub const REPLY_LONGEST: usize = lead::REPLY_DATA + lead::REPLY_LEAST;

// The most bytes that a reader of the line holds: one less than the longest frame has.
pub fn most(line: Line) -> usize
    ensures { result ≡ cap_of line }
{
    match line {
        Line::Request => REQUEST_LONGEST - 1,
        Line::Reply => REPLY_LONGEST - 1,
    }
}

// What the bytes of a frame tell of its length: too few are there; an item, by its number, and how many bytes tell it; or
// the frame's length.
#[derive(Clone, Copy, Debug)]
pub enum Extent {
    Wait,
    Bad(u8, usize),
    Frame(usize),
}

// Whether a byte is the line's lead.
pub fn leads(line: Line, b: u8) -> bool
    ensures { result ≡ is_lead line b }
{
    match line {
        Line::Request => lead::is_request(b),
        Line::Reply => lead::is_reply(b),
    }
}

// The length of a request is told by its command, and by the length byte of request 40 or the type of a colour request.
fn request_extent(s: &[u8]) -> Extent
    ensures { result ≡ request_extent s.now }
{
    if s.len() < 3 {
        return Extent::Wait;
    }
    match command::shape_of(s[2]) {
        Shape::Unknown => Extent::Bad(3, 3),
        Shape::Basic(_) => Extent::Frame(command::BASIC_BYTES),
        Shape::Unicast => unicast_extent(s),
        Shape::Colour => colour_extent(s),
    }
}

fn unicast_extent(s: &[u8]) -> Extent
    ensures { result ≡ length_extent (length_of Unicast) s.now }
{
    if s.len() < 4 {
        return Extent::Wait;
    }
    if s[3] != command::UNICAST_LENGTH {
        return Extent::Bad(4, 4);
    }
    Extent::Frame(command::UNICAST_BYTES)
}

#[tactic(auto, using(command::specs::Listed::bytes_most))]
fn colour_extent(s: &[u8]) -> Extent
    ensures { result ≡ length_extent (length_of Colour) s.now }
{
    if s.len() < command::COLOUR_DATA_AT {
        return Extent::Wait;
    }
    let n = command::colour_bytes(s[5]);
    if n == 0 {
        return Extent::Bad(4, 6);
    }
    Extent::Frame(command::COLOUR_DATA_AT + n + 1)
}

// The length of a reply is told by its third byte.
fn reply_extent(s: &[u8]) -> Extent
    ensures { result ≡ reply_extent s.now }
{
    if s.len() < 3 {
        return Extent::Wait;
    }
    let n = s[2] as usize;
    if lead::REPLY_DATA < n {
        return Extent::Bad(4, 3);
    }
    Extent::Frame(n + lead::REPLY_LEAST)
}

pub fn extent_of(line: Line, s: &[u8]) -> Extent
    ensures { result ≡ extent_of line s.now }
{
    match line {
        Line::Request => request_extent(s),
        Line::Reply => reply_extent(s),
    }
}
