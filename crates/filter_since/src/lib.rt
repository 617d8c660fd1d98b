// Since which request of a contractor's filter plan an event is hidden, and a request and a wanted event by their places. It leans on crate
// filter_asked for what a request asks and on crate filter_plan for how a plan is cut. Document 02, W-212.
#![tactic(auto)]

ghost use Rattle.std.specs.Prelude.{◌+◌, ◌≡◌};
ghost use Rattle.refusal.specs.Answer.{said};
ghost use Rattle.filter_plan.specs.Plan.{request_at};
ghost use Rattle.filter_since.specs.Trace.{concerns as concerned, traced, since_of};
ghost use Rattle.filter_since.specs.Parts.{request_start, event_at};

use filter_asked::{Change, Filter};
use filter_plan::{EVENT, REQUEST};
use refusal::Refusal;

// A wanted event.
#[derive(Clone, Copy)]
pub struct Event {
    pub address: u8,
    pub instance: u8,
    pub kind: u8,
}

// Whether a filter names an event.
fn concerns(f: Filter, e: Event) -> bool
    ensures { result ≡ concerned e.address e.instance e.kind f }
{
    f.address == e.address && f.instance == e.instance && filter_asked::names(f.mask, e.kind)
}

// Since which request an event is hidden, after one request more.
fn trace(since: Option<usize>, k: usize, asked: Result<Change, Refusal>, e: Event) -> Option<usize>
    ensures { result ≡ traced e.address e.instance e.kind k (said asked) since }
{
    match asked {
        Ok(Change::Add(f)) if concerns(f, e) => since.or(Some(k)),
        Ok(Change::Clear(f)) if concerns(f, e) => None,
        _ => since,
    }
}

// The bytes of a request of a plan, by its place: fewer than 8 where the plan ends inside it, none, at its end, behind that. They are a part of the plan.
pub fn request_at(plan: &[u8], k: usize) -> &[u8]
    ensures { (result.now ≡ request_at plan.now k)
        × (result.ref_ptr.0 ≡ plan.entry.ref_ptr.0)
        × (result.ref_ptr.1 ≡ request_start plan.now k + plan.entry.ref_ptr.1) }
{
    let n = plan.len();
    if n / REQUEST < k {
        return &plan[n..];
    }
    let at = REQUEST * k;
    &plan[at..at + REQUEST.min(n - at)]
}

// Since which request of a plan an event is hidden to its end. It is asked of good plans: requests that are refused with 1 to 7 or 18 are passed over,
// and whether there is room for a filter is not judged.
pub fn hidden_since(plan: &[u8], address: u8, instance: u8, kind: u8) -> Option<usize>
    ensures { result ≡ since_of plan.now address instance kind }
{
    let event = Event {
        address,
        instance,
        kind,
    };
    let mut since = None;
    for (k, request) in plan.chunks(REQUEST).enumerate() {
        since = trace(since, k, filter_asked::read(request), event);
    }
    since
}

// A wanted event, by its place; behind the last, zeros.
pub fn event_at(wanted: &[u8], j: usize) -> Event
    ensures { result ≡ event_at wanted.now j }
{
    if wanted.len() / EVENT <= j {
        return Event {
            address: 0,
            instance: 0,
            kind: 0,
        };
    }
    let at = EVENT * j;
    Event {
        address: wanted[at],
        instance: wanted[at + 1],
        kind: wanted[at + 2],
    }
}
