// What a plan's request asks of a controller's event filters: to add one or to clear bits of one; and which event types a mask names. It leans on
// crate request, which reads the request, and on crate maps for what a bit is. Document 02, W-212, with refusals 1 to 7 and 18.
#![tactic(auto)]

ghost use Rattle.std.specs.Prelude.{◌≡◌};
ghost use Rattle.meaning.specs.Meaning.{said_meaning};
ghost use Rattle.refusal.specs.Answer.{said};
ghost use Rattle.request.specs.Said.{said_contents};
ghost use Rattle.filter_asked.specs.Asked.{change_in, change_inside, asked, is_named};

use meaning::Meaning;
use refusal::Refusal;
use request::Contents;

// "for a command other than 31 or 33"
pub const ADD: u8 = 0x31;

pub const CLEAR: u8 = 0x33;

// The last type that a mask has a bit for: "types above 15 never are" hidden.
const LAST_TYPE: u8 = 15;

// The events of an address and an instance, and the mask of the types that are hidden: bit k stands for type k. It is laid out as C does, so that
// crate c_plan hands it on as it is.
#[derive(Clone, Copy)]
#[repr(C)]
pub struct Filter {
    pub address: u8,
    pub instance: u8,
    pub mask: u16,
}

// What a request asks: a filter added, or the bits of one cleared.
#[derive(Clone, Copy)]
pub enum Change {
    Add(Filter),
    Clear(Filter),
}

// What a command asks whose arguments mean this; 18 where it sets no filter.
fn by_meaning(command: u8, meaning: Meaning) -> Result<Change, Refusal>
    ensures { said result ≡ change_in command (said_meaning meaning) }
{
    let Meaning::Filter {
        address,
        instance,
        mask,
    } = meaning
    else {
        return Err(Refusal::NotAFilter);
    };
    let filter = Filter {
        address,
        instance,
        mask,
    };
    match command {
        ADD => Ok(Change::Add(filter)),
        CLEAR => Ok(Change::Clear(filter)),
        _ => Err(Refusal::NotAFilter),
    }
}

// What an accepted request asks.
fn by_contents(command: u8, contents: Contents) -> Result<Change, Refusal>
    ensures { said result ≡ change_inside command (said_contents contents) }
{
    match contents {
        Contents::Basic {
            arguments: _,
            meaning,
        } => by_meaning(command, meaning),
        _ => Err(Refusal::NotAFilter),
    }
}

// What a request of a plan asks: 1 to 7 as the request is read, then 18.
#[tactic(auto, unfolding(crate::specs::Asked::asked))]
pub fn read(s: &[u8]) -> Result<Change, Refusal>
    ensures { said result ≡ asked s.now }
{
    let request = request::read(s)?;
    by_contents(request.command, request.contents)
}

// Whether a mask names a type.
#[tactic(auto, unfolding(maps::specs::Bit::bit))]
pub fn names(mask: u16, kind: u8) -> bool
    ensures { result ≡ is_named mask kind }
{
    kind <= LAST_TYPE && (mask >> kind) % 2 == 1
}
