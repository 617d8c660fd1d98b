// Datagrams handed on: each function reads a datagram of its family and writes what was read into a lent buffer. An accepted one comes back
// byte for byte, or 8 where the buffer is too short; else the answer is the reader's refusal. A request that is marked as retired is
// written no more: 17. No profile is chosen. It leans on crates request, reply and event. Demand 2: "writing a frame that was read gives its bytes back, where the
// buffer is long enough"; document 02, W-210: "Demand 2's writing half leaves 0A out from then on."
#![tactic(auto, using(reply::specs::Fits::read_fits, event::specs::Fits::read_fits))]

ghost use Rattle.frame.specs.Written.{Written};
ghost use Rattle.frame.specs.Relay.{relayed};
ghost use Rattle.profile.specs.declared.Profile.TheVariants.{Open};
ghost use Rattle.request.specs.Said.{fields_of, said_request};
ghost use Rattle.request.specs.Reading.{read_request};
ghost use Rattle.request.specs.Writing.{writer_of, handed_on};
ghost use Rattle.reply.specs.Reading.{read_reply};
ghost use Rattle.event.specs.Layout.{width_of};
ghost use Rattle.event.specs.Reading.{read_event};

use event::Layout;
use profile::Profile;
use refusal::Refusal;
use request::{Contents, Request};

// Writes a request that was read.
fn request_again(r: Request, out: &mut [u8]) -> Result<usize, Refusal>
    ensures { Written (writer_of Open (fields_of (said_request r))) out.old result out.new }
{
    match r.contents {
        Contents::Basic {
            arguments,
            meaning: _,
        } => request_writers::basic(Profile::Open, r.sequence, r.command, arguments, out),
        Contents::Unicast { port, address } => request_writers::unicast(
            Profile::Open,
            r.sequence,
            port,
            address,
            out,
        ),
        Contents::Colour {
            target,
            lights: _,
            level,
            colour,
        } => request_writers::colour(Profile::Open, r.sequence, target, level, colour, out),
    }
}

pub fn request(s: &[u8], out: &mut [u8]) -> Result<usize, Refusal>
    ensures { Written (handed_on (read_request s.now) s.now) out.old result out.new }
{
    request_again(request::read(s)?, out)
}

pub fn reply(s: &[u8], out: &mut [u8]) -> Result<usize, Refusal>
    ensures { Written (relayed (read_reply s.now) s.now) out.old result out.new }
{
    let reply = reply::read(s)?;
    let data = &s[reply::DATA_AT..reply::DATA_AT + reply.n];
    writers::reply(reply.kind, reply.sequence, data, out)
}

pub fn event(layout: Layout, s: &[u8], out: &mut [u8]) -> Result<usize, Refusal>
    ensures { Written (relayed (read_event (width_of layout) s.now) s.now) out.old result out.new }
{
    let event = event::read(layout, s)?;
    let at = layout.data_at();
    let data = &s[at..at + event.n];
    writers::event(
        layout,
        event.mac,
        event.target,
        event.kind.number(),
        data,
        out,
    )
}
