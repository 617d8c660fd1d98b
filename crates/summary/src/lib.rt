// The summary that stands beside a capture's records: how many there are, the first and the last seconds, and how many of each event type.
// It leans on crate event_type for the type. Document 02, W-207.
#![tactic(auto)]

ghost use Rattle.std.specs.Prelude.{◌≡◌, []};
ghost use Rattle.refusal.specs.Answer.{said};
ghost use Rattle.event_type.specs.Types.{type_number};
ghost use Rattle.summary.specs.Summary.{not_before, slot_of, counted_in, one_more};

use event_type::EventType;
use refusal::Refusal;

// "a count for each event type 0 to 9 and one for all others, in 32 bits each"
pub const COUNTS: usize = 11;

// The summary of some records. It goes by value.
#[derive(Clone, Copy, Debug, PartialEq, Eq)]
pub struct Summary {
    pub records: u32,
    pub first: Option<u32>,
    pub last: Option<u32>,
    pub counts: [u32; COUNTS],
}

// Whether a time does not lie below the last one. Equal times do not.
pub fn not_before(last: Option<u32>, seconds: u32) -> bool
    ensures { result ≡ not_before last seconds }
{
    last.is_none_or(|t| t <= seconds)
}

// The summary of no records.
pub fn nothing() -> Summary
    ensures { result ≡ counted_in [] }
{
    Summary {
        records: 0,
        first: None,
        last: None,
        counts: [0; COUNTS],
    }
}

// The place of a type's count.
fn slot_of(kind: EventType) -> usize
    ensures { result ≡ slot_of (type_number kind) }
{
    kind.number().min(10) as usize
}

// Counts one record more: the first seconds stay where there are some. The two counts that go up have to have room, whatever the others are.
pub fn count(x: Summary, seconds: u32, kind: EventType) -> Result<Summary, Refusal>
    ensures { said result ≡ one_more x seconds (type_number kind) }
{
    let records = x.records.checked_add(1).ok_or(Refusal::NoRoom)?;
    let slot = slot_of(kind);
    let mut counts = x.counts;
    counts[slot] = counts[slot].checked_add(1).ok_or(Refusal::NoRoom)?;
    Ok(Summary {
        records,
        first: x.first.or(Some(seconds)),
        last: Some(seconds),
        counts,
    })
}
