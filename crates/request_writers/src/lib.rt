// Requests written into a lent buffer under a profile: basic requests, request 40 and colour requests, by the layouts of crate request. It leans on lead
// for the lead, on command and ranges for what a basic request may say, on target and colour for a colour request, on profile for which commands
// may be written, and on frame for the last step of writing. Document 01, "Frames" and "Requests and their argument ranges"; document 02, W-202,
// W-203 and W-210.
#![tactic(auto)]

ghost use Rattle.frame.specs.Written.{Written};
ghost use Rattle.colour.specs.Colour.{said_colour};
ghost use Rattle.request.specs.Writing.{basic_frame, unicast_frame, colour_frame};

use colour::{Colour, Data};
use command::{Command, Shape};
use meaning::Arguments;
use profile::Profile;
use refusal::Refusal;
use request::Ipv4;
use target::LineTarget;

// Writes a basic request under a profile: 3 where the command is unknown, 40 or 0E, 17 where it is retired, 7 where an argument is outside the
// table, 13 where the command is outside the profile, 8 where the buffer is too short.
pub fn basic(
    profile: Profile,
    sequence: u8,
    command: u8,
    arguments: Arguments,
    out: &mut [u8],
) -> Result<usize, Refusal>
    ensures { Written (basic_frame profile sequence command arguments) out.old result out.new }
{
    let Command(shape, retired) = command::decide(command);
    let Shape::Basic(rule) = shape else {
        return Err(Refusal::UnknownCommand);
    };
    if retired {
        return Err(Refusal::Retired);
    }
    let Arguments { a, b, c, d } = arguments;
    if !ranges::fits(rule, a, b, c, d) {
        return Err(Refusal::BadArgument);
    }
    if !profile::allows(profile, command) {
        return Err(Refusal::OutsideProfile);
    }
    let head = [lead::REQUEST, sequence, command, a, b, c, d];
    frame::write(&head, b"", out)
}

// Writes request 40 under a profile, for any port and address: 13 under the quiet one, 8 where the buffer is too short.
pub fn unicast(
    profile: Profile,
    sequence: u8,
    port: u16,
    address: Ipv4,
    out: &mut [u8],
) -> Result<usize, Refusal>
    ensures { Written (unicast_frame profile sequence port address) out.old result out.new }
{
    if !profile::allows(profile, command::UNICAST_COMMAND) {
        return Err(Refusal::OutsideProfile);
    }
    let [high, low] = port.to_be_bytes();
    let head = [
        lead::REQUEST,
        sequence,
        command::UNICAST_COMMAND,
        command::UNICAST_LENGTH,
        high,
        low,
        address.0,
        address.1,
        address.2,
        address.3,
    ];
    frame::write(&head, b"", out)
}

// Writes a colour request under a profile, for any level and colour: 7 where the target is no lighting target, 13 under the quiet profile, 8
// where the buffer is too short. A colour has a listed type, so none is refused with 4.
pub fn colour(
    profile: Profile,
    sequence: u8,
    target: LineTarget,
    level: u8,
    colour: Colour,
    out: &mut [u8],
) -> Result<usize, Refusal>
    ensures { Written (colour_frame profile sequence target level (said_colour colour)) out.old result out.new }
{
    let address = target.0;
    if !target::is_lighting(address) {
        return Err(Refusal::BadArgument);
    }
    if !profile::allows(profile, command::COLOUR_COMMAND) {
        return Err(Refusal::OutsideProfile);
    }
    let Data { kind, count, bytes } = colour::data_of(colour);
    let head = [
        lead::REQUEST,
        sequence,
        command::COLOUR_COMMAND,
        address,
        level,
        kind,
    ];
    frame::write(&head, &bytes[..count], out)
}
