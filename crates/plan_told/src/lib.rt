// What the program plan answers, put into a lent buffer from a place on: yes, or the first bad request, or the first wanted event that is hidden, and
// the filters that are listed behind. It leans on crate filter_text for requests and filters as text, on crate filter_asked for what a request asks, on crate names for the names of numbers, on crate
// sum for the byte that a request has to end in, on crates lent and text for what is put. docs/PLAN.md, "The answer", "--list" and "Lines on
// standard error".
#![tactic(auto)]

ghost use Rattle.std.specs.Prelude.{◌≡◌};
ghost use Rattle.refusal.specs.Refusals.{number_of};
ghost use Rattle.frame.specs.Frame.{byte};
ghost use Rattle.lent.specs.All.{PutsAll};
ghost use Rattle.plan_told.specs.Told.{last_of, adds_texts, since_texts, added_texts};
ghost use Rattle.plan_told.specs.Told.{unknown_texts, length_texts, sum_texts, range_texts, argument_texts, other_texts, reason_texts, number_texts, too_many_texts};
ghost use Rattle.plan_told.specs.Told.{yes_texts, bad_texts, wanted_texts, hidden_texts, left_texts, before_texts, bad_line_texts};

use filter_asked::{Change, Filter};
use refusal::Refusal;

// A byte of a request, 0 where it has none there.
fn byte_at(s: &[u8], i: usize) -> u8
    ensures { result ≡ byte i s.now }
{
    s.get(i).copied().unwrap_or(0)
}

// What its last byte has to be.
fn last(s: &[u8]) -> u8
    ensures { result ≡ last_of s.now }
{
    let n = s.len();
    if n == 0 {
        return 0;
    }
    sum::xor(&s[..n - 1])
}

// Puts the line that says what a request adds.
fn adds(out: &mut [u8], at: usize, k: u64, f: Filter) -> usize
    ensures { PutsAll (adds_texts k f) out.old at result out.new }
{
    let a = lent::word(out, at, b"request ");
    let b = text::decimal(out, a, k);
    let c = lent::word(out, b, b" adds ");
    filter_text::filter_line(out, c, f)
}

// Puts what the request adds since which an event is hidden, and the slip.
fn since(out: &mut [u8], at: usize, k: u64, t: u8, s: &[u8]) -> usize
    ensures { PutsAll (since_texts k t s.now) out.old at result out.new }
{
    match filter_asked::read(s) {
        Ok(Change::Add(f)) => {
            let a = adds(out, at, k, f);
            filter_text::slipped(out, a, t, filter_text::exchange(f))
        }
        Ok(Change::Clear(_)) => at,
        Err(_) => at,
    }
}

// Puts what a bad request adds, where it is one too many.
fn added(out: &mut [u8], at: usize, k: u64, s: &[u8]) -> usize
    ensures { PutsAll (added_texts k s.now) out.old at result out.new }
{
    match filter_asked::read(s) {
        Ok(Change::Add(f)) => adds(out, at, k, f),
        Ok(Change::Clear(_)) => at,
        Err(_) => at,
    }
}

// Puts a reason: 3, the command is unknown.
fn unknown(out: &mut [u8], at: usize, s: &[u8]) -> usize
    ensures { PutsAll (unknown_texts s.now) out.old at result out.new }
{
    let a = lent::word(out, at, b"we know no command ");
    text::hex(out, a, byte_at(s, 2))
}

// 4 and 5, the length.
fn of_length(out: &mut [u8], at: usize, s: &[u8]) -> usize
    ensures { PutsAll (length_texts s.now) out.old at result out.new }
{
    let a = lent::word(out, at, b"command ");
    let b = text::hex(out, a, byte_at(s, 2));
    lent::word(out, b, b" has another length, and sets no filter")
}

// 6, the sum.
fn of_sum(out: &mut [u8], at: usize, s: &[u8]) -> usize
    ensures { PutsAll (sum_texts s.now) out.old at result out.new }
{
    let a = lent::word(out, at, b"its last byte has to be ");
    let b = text::hex(out, a, last(s));
    lent::word(out, b, b", the exclusive-or of those before it")
}

// 7, an address or an instance of no filter.
fn of_range(out: &mut [u8], at: usize, s: &[u8]) -> usize
    ensures { PutsAll (range_texts s.now) out.old at result out.new }
{
    let a = lent::word(out, at, b"address ");
    let b = text::decimal(out, a, byte_at(s, 3) as u64);
    let c = lent::word(out, b, b" with instance ");
    let d = text::decimal(out, c, byte_at(s, 4) as u64);
    lent::word(
        out,
        d,
        b": a filter is of address 0 to 63 with instance 255, or of 64 to 127 with 0 to 31",
    )
}

// 7, of any command.
fn argument(out: &mut [u8], at: usize, s: &[u8]) -> usize
    ensures { PutsAll (argument_texts s.now) out.old at result out.new }
{
    let command = byte_at(s, 2);
    if command == filter_asked::ADD || command == filter_asked::CLEAR {
        return of_range(out, at, s);
    }
    let a = lent::word(out, at, b"an argument of command ");
    let b = text::hex(out, a, command);
    lent::word(out, b, b" is out of its range")
}

// 18, a command that sets no filter.
fn other(out: &mut [u8], at: usize, s: &[u8]) -> usize
    ensures { PutsAll (other_texts s.now) out.old at result out.new }
{
    let command = byte_at(s, 2);
    let a = lent::word(out, at, b"command ");
    let b = text::hex(out, a, command);
    let c = lent::word(out, b, b" ");
    let d = names::put(out, c, names::COMMAND, command);
    lent::word(out, d, b" sets no filter, a plan has 31 and 33 only")
}

// The reason. A plan has no other refusal.
fn reason(out: &mut [u8], at: usize, refusal: Refusal, s: &[u8]) -> usize
    ensures { PutsAll (reason_texts (number_of refusal) s.now) out.old at result out.new }
{
    match refusal {
        Refusal::TooShort => lent::word(out, at, b"the plan ends inside it, a request has 8 bytes"),
        Refusal::BadLead => lent::word(out, at, b"a request begins with 04"),
        Refusal::UnknownCommand => unknown(out, at, s),
        Refusal::BadLengthByte => of_length(out, at, s),
        Refusal::BadLength => of_length(out, at, s),
        Refusal::BadSum => of_sum(out, at, s),
        Refusal::BadArgument => argument(out, at, s),
        Refusal::NotAFilter => other(out, at, s),
        Refusal::FiltersFull => lent::word(
            out,
            at,
            b"a 65th filter is needed, and a controller keeps 64",
        ),
        _ => at,
    }
}

// Puts a refusal's number and its name.
fn numbered(out: &mut [u8], at: usize, refusal: Refusal) -> usize
    ensures { PutsAll (number_texts (number_of refusal)) out.old at result out.new }
{
    let number = refusal.number();
    let a = lent::word(out, at, b": ");
    let b = text::decimal(out, a, number as u64);
    let c = lent::word(out, b, b" ");
    let d = names::put(out, c, names::REFUSAL, number);
    lent::word(out, d, b": ")
}

// Puts the second line, where there is one.
fn too_many(out: &mut [u8], at: usize, k: u64, refusal: Refusal, s: &[u8]) -> usize
    ensures { PutsAll (too_many_texts k (number_of refusal) s.now) out.old at result out.new }
{
    match refusal {
        Refusal::FiltersFull => added(out, at, k, s),
        _ => at,
    }
}

// Puts the answer about the first bad request: its place among the requests, its bytes, and the refusal.
pub fn bad(out: &mut [u8], at: usize, k: u64, s: &[u8], refusal: Refusal) -> usize
    ensures { PutsAll (bad_texts k s.now (number_of refusal)) out.old at result out.new }
{
    let a = lent::word(out, at, b"no: ");
    let b = filter_text::placed(out, a, k, s);
    let c = numbered(out, b, refusal);
    let d = reason(out, c, refusal, s);
    let e = lent::byte(out, d, b'\n');
    too_many(out, e, k, refusal, s)
}

// Puts which wanted event.
fn wanted(out: &mut [u8], at: usize, j: u64, address: u8, instance: u8, kind: u8) -> usize
    ensures { PutsAll (wanted_texts j address instance kind) out.old at result out.new }
{
    let a = lent::word(out, at, b"no: wanted event ");
    let b = text::decimal(out, a, j);
    let c = lent::word(out, b, b", ");
    let d = filter_text::of_instance(out, c, address, instance);
    let e = lent::word(out, d, b", type ");
    filter_text::of_type(out, e, kind)
}

// Puts the answer about the first wanted event that is hidden: its place among the wanted events, the event, and the request since which it is
// hidden, by its place and its bytes.
pub fn hidden(
    out: &mut [u8],
    at: usize,
    j: u64,
    address: u8,
    instance: u8,
    kind: u8,
    k: u64,
    s: &[u8],
) -> usize
    ensures { PutsAll (hidden_texts j address instance kind k s.now) out.old at result out.new }
{
    let a = wanted(out, at, j, address, instance, kind);
    let b = lent::word(out, a, b", is hidden since ");
    let c = filter_text::placed(out, b, k, s);
    let d = lent::byte(out, c, b'\n');
    since(out, d, k, kind, s)
}

// Puts the line of yes: how many requests there are, filters that they leave, and wanted events.
pub fn yes(out: &mut [u8], at: usize, requests: u64, filters: u64, wanted: u64) -> usize
    ensures { PutsAll (yes_texts requests filters wanted) out.old at result out.new }
{
    let a = lent::word(out, at, b"yes: no wanted event is hidden (requests ");
    let b = text::decimal(out, a, requests);
    let c = lent::word(out, b, b", filters left ");
    let d = text::decimal(out, c, filters);
    let e = lent::word(out, d, b", wanted events ");
    let f = text::decimal(out, e, wanted);
    lent::word(out, f, b")\n")
}

// Puts how many filters are left.
pub fn left(out: &mut [u8], at: usize, n: u64) -> usize
    ensures { PutsAll (left_texts n) out.old at result out.new }
{
    let a = lent::word(out, at, b"filters left: ");
    let b = text::decimal(out, a, n);
    lent::byte(out, b, b'\n')
}

// Puts how many stood before a bad request.
pub fn before(out: &mut [u8], at: usize, k: u64, n: u64) -> usize
    ensures { PutsAll (before_texts k n) out.old at result out.new }
{
    let a = lent::word(out, at, b"filters before request ");
    let b = text::decimal(out, a, k);
    let c = lent::word(out, b, b": ");
    let d = text::decimal(out, c, n);
    lent::byte(out, d, b'\n')
}

// Puts that a line of the wanted list is none, by its number.
pub fn bad_line(out: &mut [u8], at: usize, n: u64) -> usize
    ensures { PutsAll (bad_line_texts n) out.old at result out.new }
{
    let a = lent::word(out, at, b", line ");
    let b = text::decimal(out, a, n);
    lent::word(
        out,
        b,
        b": an address, an instance and a type are wanted, each a number from 0 to 255\n",
    )
}
