// The check of a filter plan as programs in C have it: the structs that crate wickanchor hands over, laid out as C does, and what turns the answers of
// crates filter_plan and filter_since into them. A filter is laid out so already. Each contract is an equation. Document 02, W-212.
#![tactic(auto)]

ghost use Rattle.std.specs.Prelude.{◌≡◌};
ghost use Rattle.filter_plan.specs.Said.{said_verdict, said_left};
ghost use Rattle.c_plan.specs.Plans.{verdict_out, left_out, since_out};

use filter_asked::Filter;
use filter_plan::{Left, Verdict};

// What the check answers: 0 is yes, 1 a bad request, 2 a wanted event that is hidden; the refusal of the request; and the place of either.
#[repr(C)]
#[derive(Drop)]
pub struct WickPlan {
    pub answer: u8,
    pub refusal: u8,
    pub place: usize,
}

// The filters that a plan leaves, the first of these, as many as the count says; and the refusal of the first bad request, with its place.
#[repr(C)]
#[derive(Drop)]
pub struct WickPlanLeft {
    pub refusal: u8,
    pub request: usize,
    pub count: usize,
    pub filters: [Filter; 64],
}

// Whether an event is hidden, and since which request.
#[repr(C)]
#[derive(Drop)]
pub struct WickSince {
    pub hidden: u8,
    pub request: usize,
}

// What the check of a plan answers.
pub fn verdict_out(v: Verdict) -> WickPlan
    ensures { result ≡ verdict_out (said_verdict v) }
{
    match v {
        Verdict::Yes => WickPlan {
            answer: 0,
            refusal: 0,
            place: 0,
        },
        Verdict::Bad(bad) => WickPlan {
            answer: 1,
            refusal: bad.refusal.number(),
            place: bad.request,
        },
        Verdict::Hidden(j) => WickPlan {
            answer: 2,
            refusal: 0,
            place: j,
        },
    }
}

// The filters that a plan leaves.
pub fn left_out(l: Left) -> WickPlanLeft
    ensures { result ≡ left_out (said_left l) }
{
    let (refusal, request) = match l.went {
        Ok(()) => (0, 0),
        Err(bad) => (bad.refusal.number(), bad.request),
    };
    let filters = l.filters.entries;
    WickPlanLeft {
        refusal,
        request,
        count: l.filters.count,
        filters,
    }
}

// Since which request an event is hidden.
pub fn since_out(since: Option<usize>) -> WickSince
    ensures { result ≡ since_out since }
{
    match since {
        None => WickSince {
            hidden: 0,
            request: 0,
        },
        Some(request) => WickSince { hidden: 1, request },
    }
}
