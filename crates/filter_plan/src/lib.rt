// A contractor's filter plan, checked before it goes to a controller: the filters that it leaves, and whether they hide an event that is wanted
// (crate filter_since: since which request; crate filter_answers: theorems). It leans on crate filter_asked for what each request asks. Document 02, W-212, with
// refusals 1 to 7, 18 and 19.
#![tactic(auto)]

ghost use Rattle.std.specs.Prelude.{◌<◌, ◌≡◌, [], length, unwrap_or, IfSome, OnErr};
ghost use Rattle.refusal.specs.Answer.{said_of};
ghost use Rattle.filter_asked.specs.declared.Change.TheVariants.{Add as adding};
ghost use Rattle.filter_asked.specs.Asked.{asked};
ghost use Rattle.filter_plan.specs.Filters.{cleared, next as next_of, is_hidden};
ghost use Rattle.filter_plan.specs.Plan.{left_of, step_of, checked, first_hidden};
ghost use Rattle.filter_plan.specs.Table.{table_of, left_by, list_of, IsTable, place_of, dropped};
ghost use Rattle.filter_plan.specs.Said.{said_left, said_verdict};

use filter_asked::{Change, Filter};
use refusal::Refusal;

// "at most 64 entries"
pub const MOST: usize = 64;

// "The plan is cut every 8 bytes".
pub const REQUEST: usize = command::BASIC_BYTES;

// "three bytes each": address, instance and event type.
pub const EVENT: usize = 3;

// What stands in a place that holds no filter.
const NONE: Filter = Filter {
    address: 0,
    instance: 0,
    mask: 0,
};

// A controller's filters: the first of these entries, as many as the count says, in the order in which they were made.
#[derive(Clone, Copy)]
pub struct Filters {
    pub entries: [Filter; MOST],
    pub count: usize,
}

// The first bad request of a plan, by its place among the requests, from 0, and its refusal.
#[derive(Clone, Copy, Debug, PartialEq, Eq)]
pub struct Bad {
    pub request: usize,
    pub refusal: Refusal,
}

// The filters that a plan leaves; where a request is bad, that and the filters that stood before it.
#[derive(Clone, Copy)]
pub struct Left {
    pub went: Result<(), Bad>,
    pub filters: Filters,
}

// What the check answers: yes; the first bad request; or else the first wanted event that is hidden, by its place, from 0.
#[derive(Clone, Copy, Debug, PartialEq, Eq)]
pub enum Verdict {
    Yes,
    Bad(Bad),
    Hidden(usize),
}

// The place of the entry of an address and an instance.
fn place(t: &Filters, address: u8, instance: u8) -> Option<usize>
    requires { IsTable t.now }
    ensures told { unwrap_or result t.now.count ≡ place_of address instance (list_of t.now) }
    ensures within { IfSome result (λ k. k < t.now.count) }
{
    t.entries[..t.count]
        .iter()
        .position(|f| f.address == address && f.instance == instance)
}

// Joins a mask to its entry, or makes one behind the others; 19 where there is no room for one.
fn add(t: &mut Filters, f: Filter) -> Result<(), Refusal>
    requires { IsTable t.old }
    ensures table { IsTable t.new }
    ensures step { said_of (λ _. list_of t.new) result ≡ next_of (adding f) (list_of t.old) }
    ensures kept { OnErr result (t.new ≡ t.old) }
{
    if let Some(k) = place(t, f.address, f.instance) {
        t.entries[k].mask |= f.mask;
        return Ok(());
    }
    if f.mask == 0 {
        return Ok(());
    }
    if t.count == MOST {
        return Err(Refusal::FiltersFull);
    }
    t.entries[t.count] = f;
    t.count += 1;
    Ok(())
}

// Drops the entry at a place: those behind it move up.
fn drop(t: &mut Filters, k: usize)
    requires { IsTable t.old × (k < t.old.count) }
    ensures { t.new ≡ table_of (dropped k (list_of t.old)) }
{
    t.entries.copy_within(k + 1..t.count, k);
    t.count -= 1;
    t.entries[t.count] = NONE;
}

// Takes the bits of a mask out of its entry, and drops an entry that has none left.
fn clear(t: &mut Filters, f: Filter)
    requires { IsTable t.old }
    ensures { t.new ≡ table_of (cleared f (list_of t.old)) }
{
    let Some(k) = place(t, f.address, f.instance) else {
        return;
    };
    let mask = t.entries[k].mask & !f.mask;
    if mask == 0 {
        drop(t, k);
    } else {
        t.entries[k].mask = mask;
    }
}

// One request more: whether it is good.
fn next(t: &mut Filters, request: &[u8]) -> Result<(), Refusal>
    requires { IsTable t.old }
    ensures table { IsTable t.new }
    ensures step { said_of (λ _. list_of t.new) result ≡ step_of (asked request.now) (list_of t.old) }
    ensures kept { OnErr result (t.new ≡ t.old) }
{
    match filter_asked::read(request)? {
        Change::Add(f) => add(t, f),
        Change::Clear(f) => {
            clear(t, f);
            Ok(())
        }
    }
}

// The filters that a plan leaves, or the first bad request and those that stood before it.
pub fn leaves(plan: &[u8]) -> Left
    ensures { said_left result ≡ left_by (left_of plan.now) }
{
    let mut filters = Filters {
        entries: [NONE; MOST],
        count: 0,
    };
    for (request, s) in plan.chunks(REQUEST).enumerate() {
        if let Err(refusal) = next(&mut filters, s) {
            return Left {
                went: Err(Bad { request, refusal }),
                filters,
            };
        }
    }
    Left {
        went: Ok(()),
        filters,
    }
}

// Whether an event is hidden.
fn hides(t: &Filters, address: u8, instance: u8, kind: u8) -> bool
    requires { IsTable t.now }
    ensures { result ≡ is_hidden (list_of t.now) address instance kind }
{
    match place(t, address, instance) {
        Some(k) => filter_asked::names(t.entries[k].mask, kind),
        None => false,
    }
}

// The first wanted event that is hidden.
fn first_hidden(t: &Filters, wanted: &[u8]) -> Verdict
    requires { IsTable t.now }
    ensures { said_verdict result ≡ first_hidden (list_of t.now) wanted.now }
{
    for (j, e) in wanted.chunks_exact(EVENT).enumerate() {
        if hides(t, e[0], e[1], e[2]) {
            return Verdict::Hidden(j);
        }
    }
    Verdict::Yes
}

// Checks a plan against the events that are wanted.
pub fn check(plan: &[u8], wanted: &[u8]) -> Verdict
    ensures { said_verdict result ≡ checked plan.now wanted.now }
{
    let left = leaves(plan);
    match left.went {
        Ok(()) => first_hidden(&left.filters, wanted),
        Err(bad) => Verdict::Bad(bad),
    }
}
