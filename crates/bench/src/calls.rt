// The calls of the bench, each an arm by its number in the table of crate bench_calls: its bytes are handed to the codec, and
// its answer is said by the crate of its family. docs/BENCH.md, in its order.
use bench_book::Page;
use bench_calls::Call;
use bench_capture::{Carried, Moved, Tail};
use bench_datagrams::Read;
use bench_lines::Shown;
use bench_maps::Data;
use bench_parts::{Fit, Part};
use bench_requests::Asked;
use book::Timed;
use by_parts::SoFar;
use colour::Colour;
use command::Shape;
use event::{Layout, Mac};
use event_type::EventType;
use line::Line;
use meaning::Arguments;
use profile::Profile;
use reader::{Held, ITEM_ROOM, Item};
use refusal::Refusal;
use request::Ipv4;
use target::{Device, Group, LineTarget};

// The room for the bytes of a line's call, and for a buffer that a call writes into.
const SPACE: usize = 4096;

// What the run carries from call to call. The bytes of the capture's buffer are lent beside it: they stand at the front of a larger one.
#[derive(Clone, Copy)]
pub struct State {
    book: Timed,
    request: Held,
    reply: Held,
    capture: Carried,
    so_far: SoFar,
}

pub fn fresh() -> State {
    State {
        book: book::fresh(),
        request: reader::fresh(),
        reply: reader::fresh(),
        capture: bench_capture::fresh(),
        so_far: bench_seasons::fresh(),
    }
}

// Writes an event: its target and its type stand behind the MAC address.
fn write_event(
    layout: Layout,
    mac: Mac,
    head: &[u8],
    data: &[u8],
    buffer: &mut [u8],
) -> Result<usize, Refusal> {
    let target = bench_words::wide32(bench_words::part(head, 6, 10));
    let kind = bench_words::byte_at(head, 10);
    writers::event(layout, mac, target, kind, data, buffer)
}

// The profile of a call that writes a request.
fn profile_of(n: usize) -> Profile {
    match n {
        0x7A..=0x7E => Profile::Quiet,
        _ => Profile::Open,
    }
}

// Writes a colour request: sequence, target and level, and behind them the channels of its colour.
fn write_colour(n: usize, head: &[u8], buffer: &mut [u8]) -> Result<usize, Refusal> {
    let first = bench_words::wide16(bench_words::part(head, 3, 5));
    let colour = match n {
        0x77 | 0x7C => Colour::Xy {
            x: first,
            y: bench_words::wide16(bench_words::part(head, 5, 7)),
        },
        0x78 | 0x7D => Colour::Tc(first),
        _ => Colour::Rgbwaf {
            red: bench_words::byte_at(head, 3),
            green: bench_words::byte_at(head, 4),
            blue: bench_words::byte_at(head, 5),
            white: bench_words::byte_at(head, 6),
            amber: bench_words::byte_at(head, 7),
            free: bench_words::byte_at(head, 8),
        },
    };
    let target = LineTarget(bench_words::byte_at(head, 1));
    request_writers::colour(
        profile_of(n),
        bench_words::byte_at(head, 0),
        target,
        bench_words::byte_at(head, 2),
        colour,
        buffer,
    )
}

// What writes into a lent buffer: head is the first group of the call (the datagram of a relay), data its second where it has three.
fn write(n: usize, head: &[u8], data: &[u8], buffer: &mut [u8]) -> Result<usize, Refusal> {
    let a = bench_words::byte_at(head, 0);
    let b = bench_words::byte_at(head, 1);
    let c = bench_words::byte_at(head, 2);
    let d = bench_words::byte_at(head, 3);
    let e = bench_words::byte_at(head, 4);
    let f = bench_words::byte_at(head, 5);
    match n {
        0x70 | 0x7A => {
            let arguments = Arguments {
                a: c,
                b: d,
                c: e,
                d: f,
            };
            request_writers::basic(profile_of(n), a, b, arguments, buffer)
        }
        0x71 | 0x7B => {
            let port = bench_words::wide16(bench_words::part(head, 1, 3));
            let address = Ipv4(d, e, f, bench_words::byte_at(head, 6));
            request_writers::unicast(profile_of(n), a, port, address, buffer)
        }
        0x72 => relay::request(head, buffer),
        0x73 => relay::reply(head, buffer),
        0x74 => relay::event(Layout::Three, head, buffer),
        0x75 => names::name(a, b, buffer),
        0x76 => relay::event(Layout::Two, head, buffer),
        0x77 | 0x78 | 0x79 | 0x7C | 0x7D | 0x7E => write_colour(n, head, buffer),
        0x7F => clock_write::write(bench_clock::clock_in(head), buffer),
        0x80 => writers::reply(a, b, data, buffer),
        0x81 => write_event(Layout::Three, Mac(a, b, c, d, e, f), head, data, buffer),
        0x82 => frame::write(head, data, buffer),
        _ => write_event(Layout::Two, Mac(a, b, c, d, e, f), head, data, buffer),
    }
}

// A writing call: the buffer, which is shown before and after, is the last group.
fn wrote(n: usize, head: &[u8], data: &[u8], before: &[u8], out: &mut [u8], at: usize) -> usize {
    let mut space = [0u8; SPACE];
    let e = lent::word(&mut space, 0, before);
    if space.len() < e {
        return at;
    }
    let w = write(n, head, data, &mut space[..e]);
    bench_datagrams::wrote(out, at, w, before, bench_words::part(&space, 0, e))
}

// The calls that leave the state, family by family: what each answers.
fn asked(n: usize, s: &[u8]) -> Asked {
    let b = bench_words::byte_at(s, 0);
    match n {
        0x10 => Asked::Reading(request::read(s)),
        0x11 => Asked::Target(LineTarget(b).lights()),
        _ => Asked::Target(LineTarget(b).status()),
    }
}

fn read(n: usize, s: &[u8]) -> Read {
    let b = bench_words::byte_at(s, 0);
    match n {
        0x90 => Read::Reply(reply::read(s)),
        0x91 => Read::Code(reply::error_code(s)),
        0x92 => Read::Event(event::read(Layout::Three, s)),
        0x93 => Read::Kind(EventType::from(b)),
        _ => Read::Event(event::read(Layout::Two, s)),
    }
}

fn data_part(n: usize, s: &[u8]) -> &[u8] {
    match n {
        0xA0 => reply::data(s),
        0xA1 => event::data(Layout::Three, s),
        _ => event::data(Layout::Two, s),
    }
}

fn fit(s: &[u8]) -> Fit {
    let a = bench_words::byte_at(s, 1);
    let b = bench_words::byte_at(s, 2);
    let c = bench_words::byte_at(s, 3);
    let d = bench_words::byte_at(s, 4);
    let shape = command::shape_of(bench_words::byte_at(s, 0));
    match shape {
        Shape::Basic(rule) => {
            if ranges::fits(rule, a, b, c, d) {
                Fit::Fits
            } else {
                Fit::Outside
            }
        }
        Shape::Unknown => Fit::NoRule,
        Shape::Unicast => Fit::NoRule,
        Shape::Colour => Fit::NoRule,
    }
}

fn part(n: usize, s: &[u8]) -> Part {
    let b = bench_words::byte_at(s, 0);
    match n {
        0x20 => Part::Sum(sum::xor(s)),
        0x21 => Part::Known(command::known(b)),
        0x22 => Part::Shape(command::shape_of(b)),
        0x23 => Part::Fit(fit(s)),
        0x24 => Part::Name(error::name_of(b)),
        0x25 => Part::OnLine(Group(b).line_target()),
        0x26 => Part::Device(Device::of(b)),
        0x28 => Part::Inside(profile::inside(b)),
        0x29 => Part::Quiet(quiet_run::passes(s)),
        0x2A => Part::Entry(table::entry_of(b)),
        _ => Part::Number(Device(b).number()),
    }
}

fn data(n: usize, s: &[u8], t: &[u8]) -> Data {
    let mask = bench_words::wide16(s);
    let map = bench_words::wide64(s);
    match n {
        0x30 => Data::Number(order::high_first(
            bench_words::byte_at(s, 0),
            bench_words::byte_at(s, 1),
        )),
        0x31 => Data::Bits16(maps::mask(s)),
        0x32 => Data::Count(maps::count_types(mask)),
        0x33 => Data::Lowest(maps::lowest_type(mask)),
        0x34 => Data::Bits16(maps::scenes(s)),
        0x35 => Data::Bits64(maps::gear(s)),
        0x36 => Data::Count(maps::count_gear(map)),
        0x37 => Data::Lowest(maps::lowest_gear(map)),
        0x38 => Data::Bits32(maps::types(s)),
        0x39 => Data::Filters(filters::read(s)),
        _ => Data::Filter(filters::entry(t, map as usize)),
    }
}

// A call that leaves the state, by its family.
fn plain(n: usize, s: &[u8], t: &[u8], u: &[u8], out: &mut [u8], at: usize) -> usize {
    match n / 16 {
        1 => bench_requests::say(out, at, asked(n, s)),
        2 => bench_parts::say(out, at, part(n, s)),
        3 => bench_maps::say(out, at, data(n, s, t)),
        7 => wrote(n, s, b"", t, out, at),
        8 => wrote(n, s, t, u, out, at),
        9 => bench_datagrams::say(out, at, read(n, s)),
        11 => bench_calls::help(out, at),
        14 => bench_plan::say(out, at, filter_plan::check(s, t)),
        15 => match n {
            0xF0 => bench_clock::clock(out, at, s, t),
            _ => bench_clock::clock_runs(out, at, s, t),
        },
        _ => bench_say::run(out, at, b"0 data", data_part(n, s)),
    }
}

// A call of the book.
fn page(n: usize, b: &mut Timed, s: &[u8], t: &[u8], u: &[u8]) -> Page {
    let first = bench_words::byte_at(s, 0);
    match n {
        0x40 => {
            *b = book::fresh();
            Page::Done
        }
        0x41 => {
            *b = bench_book::handed(first, t, u);
            Page::Done
        }
        0x42 => {
            let tick = bench_words::wide32(bench_words::part(s, 1, 5));
            Page::Number(book::ask(
                &mut b.book.asked,
                &mut b.book.last,
                &mut b.ticks,
                first,
                tick,
            ))
        }
        0x43 => Page::Command(book::reply(&mut b.book.asked, first)),
        0x44 => Page::Book,
        _ => {
            let limit = bench_words::wide32(bench_words::part(s, 4, 8));
            Page::GivenUp(book::give_up(&mut b.book.asked, &b.ticks, bench_words::wide32(s), limit))
        }
    }
}

// An item of nothing, for a call of a line that gives none.
fn no_item() -> Item {
    Item {
        number: 0,
        count: 0,
        bytes: [0; ITEM_ROOM],
    }
}

// A call of a line, by the second digit of its number.
fn line(n: usize, l: Line, h: &mut Held, s: &[u8], t: &[u8]) -> Shown {
    match n {
        0 => {
            *h = reader::fresh();
            bench_lines::done()
        }
        1 => {
            *h = bench_lines::handed(bench_words::wide64(s) as usize, t);
            bench_lines::done()
        }
        2 => {
            let f = reader::feed(l, *h, s);
            *h = f.held;
            bench_lines::fed(f, no_item())
        }
        3 => {
            let f = reader::close(l, *h);
            *h = f.held;
            bench_lines::closed(f, no_item())
        }
        4 => bench_lines::show(*h),
        5 => bench_lines::step(line::settled(l, s)),
        _ => {
            let closed = bench_words::byte_at(s, 0) != 0;
            bench_lines::item(line::item_at(l, closed, t))
        }
    }
}

// A call of the capture that leaves the bytes of its buffer.
fn looked(n: usize, c: Carried, s: &[u8], buffer: &[u8]) -> Moved {
    let used = c.used;
    match n {
        0xC1 => bench_capture::summary_set(c, s),
        0xC2 => bench_capture::mark_set(c, s),
        0xC6 => bench_capture::opened(c, capture::open(buffer, used)),
        0xC7 => bench_capture::counted(c, capture::count(buffer, used)),
        0xC8 => bench_capture::found(c, capture::prefix(buffer, used), Tail::Counted),
        0xC9 => {
            let place = bench_words::wide64(s) as usize;
            bench_capture::stepped(c, capture::step(buffer, used, place))
        }
        _ => bench_capture::shown(c),
    }
}

// A call of the capture but for the one that hands it in, over the bytes of its buffer.
fn capture(n: usize, c: Carried, s: &[u8], t: &[u8], buffer: &mut [u8]) -> Moved {
    let seconds = bench_words::wide32(s);
    match n {
        0xC3 => {
            let f = append::empty(buffer, bench_words::byte_at(s, 0));
            bench_capture::found(c, f, Tail::Nothing)
        }
        0xC4 => bench_capture::appended(c, append::append(buffer, c.used, c.summary, seconds, t)),
        0xC5 => {
            let f = append::append_at(buffer, c.mark, c.summary, seconds, t);
            bench_capture::found(c, f, Tail::Nothing)
        }
        0xCB => bench_capture::ran(c, morning::run(buffer, c.used, c.summary, seconds, t)),
        0xCC => bench_capture::ran_at(c, morning::run_at(buffer, c.mark, c.summary, seconds, t)),
        _ => looked(n, c, s, buffer),
    }
}

// A call of the capture, whose buffer is so many bytes at the front of those that are lent: no line can hand in more.
fn captured(n: usize, c: Carried, s: &[u8], t: &[u8], store: &mut [u8]) -> Moved {
    if n == 0xC0 {
        let e = lent::word(store, 0, t);
        return bench_capture::capture_set(c, e, bench_words::wide64(s) as usize);
    }
    if store.len() < c.size {
        return bench_capture::shown(c);
    }
    capture(n, c, s, t, &mut store[..c.size])
}

// The bytes that a call of the capture shows: the datagram of a record, or the buffer.
fn part_of(n: usize, c: Carried, place: usize, store: &[u8]) -> &[u8] {
    let buffer = bench_words::part(store, 0, c.size);
    match n {
        0xC9 => capture::datagram(buffer, c.used, place),
        _ => buffer,
    }
}

// A call of the capture, and its answer.
fn stored(
    n: usize,
    c: &mut Carried,
    s: &[u8],
    t: &[u8],
    store: &mut [u8],
    out: &mut [u8],
    at: usize,
) -> usize {
    let m = captured(n, *c, s, t, store);
    *c = m.carried;
    let shown = part_of(n, m.carried, bench_words::wide64(s) as usize, store);
    bench_capture::say(out, at, m.head, m.tail, m.summary, shown)
}

// The report of seasons over the capture, which stays as it is.
fn seasons(c: Carried, s: &[u8], store: &[u8], out: &mut [u8], at: usize) -> usize {
    let buffer = bench_words::part(store, 0, c.size);
    let who = bench_seasons::corridor_in(s);
    let r = report::report(buffer, c.used, who, bench_seasons::boundaries_in(s));
    bench_seasons::say(out, at, r)
}

impl State {
    // A call, by its family, the first digit of its number: what it makes of the state, and its answer.
    fn call(
        &mut self,
        c: Call,
        bytes: &[u8],
        store: &mut [u8],
        out: &mut [u8],
        at: usize,
    ) -> usize {
        let n = c.number;
        let g = c.groups;
        let s = bench_words::part(bytes, 0, g.a);
        let t = bench_words::part(bytes, g.a, g.b);
        let u = bench_words::part(bytes, g.b, g.c);
        match n / 16 {
            4 => {
                let page = page(n, &mut self.book, s, t, u);
                bench_book::say(out, at, page, self.book)
            }
            5 => {
                let shown = line(n % 16, Line::Request, &mut self.request, s, t);
                bench_lines::say(out, at, shown, self.request)
            }
            6 => {
                let shown = line(n % 16, Line::Reply, &mut self.reply, s, t);
                bench_lines::say(out, at, shown, self.reply)
            }
            12 => stored(n, &mut self.capture, s, t, store, out, at),
            13 => {
                if n == 0xD0 {
                    return seasons(self.capture, s, store, out, at);
                }
                self.so_far = bench_seasons::moved(n, self.so_far, s);
                bench_seasons::tell(out, at, n, self.so_far)
            }
            _ => plain(n, s, t, u, out, at),
        }
    }

    // The answer to a line with a word in it, and the place behind it.
    pub fn answer(&mut self, line: &[u8], store: &mut [u8], out: &mut [u8], at: usize) -> usize {
        let mut space = [0u8; SPACE];
        match bench_calls::read(line, &mut space) {
            Err(fault) => bench_calls::refused(out, at, Err(fault)),
            Ok(call) => self.call(call, &space, store, out, at),
        }
    }
}
