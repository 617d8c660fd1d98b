// A request and a filter as text, put into a lent buffer from a place on: where the request stands, and its bytes; the filter's address and instance, its mask and the types that this names; and the line that shows a mask
// whose two bytes were swapped. It leans on crate filter_asked for filters and the types of a mask, on crate names for the names of types, on crates
// lent and text for what is put. docs/PLAN.md, "The answer".
#![tactic(auto)]

ghost use Rattle.std.specs.Prelude.{◌≡◌};
ghost use Rattle.lent.specs.All.{PutsAll};
ghost use Rattle.filter_text.specs.Told.{start_of, placed_texts, instance_texts, type_texts, next_texts, types_texts, types_of, filter_texts, line_texts, exchanged, slip_texts, slipped_texts};

use filter_asked::Filter;

// Where a request begins. A place is counted in 64 bits: one that is full stays so.
fn start(k: u64) -> u64
    ensures { result ≡ start_of k }
{
    k.saturating_mul(8)
}

// Puts which request, where it begins, and its bytes.
pub fn placed(out: &mut [u8], at: usize, k: u64, s: &[u8]) -> usize
    ensures { PutsAll (placed_texts k s.now) out.old at result out.new }
{
    let a = lent::word(out, at, b"request ");
    let b = text::decimal(out, a, k);
    let c = lent::word(out, b, b" at byte ");
    let d = text::decimal(out, c, start(k));
    let e = lent::word(out, d, b", ");
    text::hexes(out, e, s)
}

// Puts an address and an instance.
pub fn of_instance(out: &mut [u8], at: usize, address: u8, instance: u8) -> usize
    ensures { PutsAll (instance_texts address instance) out.old at result out.new }
{
    let a = lent::word(out, at, b"address ");
    let b = text::decimal(out, a, address as u64);
    let c = lent::word(out, b, b", instance ");
    text::decimal(out, c, instance as u64)
}

// Puts a type: its number, and behind it its name where it has one.
pub fn of_type(out: &mut [u8], at: usize, t: u8) -> usize
    ensures { PutsAll (type_texts t) out.old at result out.new }
{
    let a = text::decimal(out, at, t as u64);
    if 9 < t {
        return a;
    }
    let b = lent::word(out, a, b" ");
    names::put(out, b, names::EVENT, t)
}

// Puts a type behind others, or the first.
fn next(out: &mut [u8], at: usize, some: bool, t: u8) -> usize
    ensures { PutsAll (next_texts some t) out.old at result out.new }
{
    if some {
        let a = lent::word(out, at, b", ");
        return of_type(out, a, t);
    }
    of_type(out, at, t)
}

// Puts the types that a mask names, lowest first.
fn types(out: &mut [u8], at: usize, mask: u16) -> usize
    ensures { PutsAll (types_texts (types_of mask)) out.old at result out.new }
{
    let mut e = at;
    let mut some = false;
    for t in 0..16 {
        if filter_asked::names(mask, t) {
            e = next(out, e, some, t);
            some = true;
        }
    }
    e
}

// Puts a filter.
pub fn filter(out: &mut [u8], at: usize, f: Filter) -> usize
    ensures { PutsAll (filter_texts f) out.old at result out.new }
{
    let a = of_instance(out, at, f.address, f.instance);
    let b = lent::word(out, a, b", mask ");
    let c = text::hexes(out, b, &f.mask.to_be_bytes());
    let d = lent::word(out, c, b", types ");
    types(out, d, f.mask)
}

// Puts the line of a filter.
pub fn filter_line(out: &mut [u8], at: usize, f: Filter) -> usize
    ensures { PutsAll (line_texts f) out.old at result out.new }
{
    let a = filter(out, at, f);
    lent::byte(out, a, b'\n')
}

// A filter with the two bytes of its mask exchanged.
pub fn exchange(f: Filter) -> Filter
    ensures { result ≡ exchanged f }
{
    Filter {
        address: f.address,
        instance: f.instance,
        mask: f.mask.swap_bytes(),
    }
}

// Puts the line that shows the slip.
fn slip(out: &mut [u8], at: usize, f: Filter) -> usize
    ensures { PutsAll (slip_texts f) out.old at result out.new }
{
    let a = lent::word(
        out,
        at,
        b"with the two bytes of its mask exchanged it adds ",
    );
    let b = filter(out, a, f);
    lent::word(out, b, b": were they swapped?\n")
}

// Puts it where the exchanged mask does not name the type.
pub fn slipped(out: &mut [u8], at: usize, t: u8, f: Filter) -> usize
    ensures { PutsAll (slipped_texts t f) out.old at result out.new }
{
    if filter_asked::names(f.mask, t) {
        return at;
    }
    slip(out, at, f)
}
