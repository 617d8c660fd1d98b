// Reply data, targets, entries of the table of commands, books and readers of lines as programs in C have them: the structs that crate wickanchor
// takes and hands over, laid out as C does, and what turns the answers of crates maps, filters, target, table, book, line, reader and quiet_run into them,
// and readers back.
// A refusal is its number by document 01, 0 stands for none, and every other field of a refused call is 0. Each contract is
// an equation over what the answer says.
#![tactic(auto)]

ghost use Rattle.std.specs.Prelude.{◌≡◌};
ghost use Rattle.refusal.specs.Answer.{said};
ghost use Rattle.table.specs.Table.{numbers_at};
ghost use Rattle.line.specs.Said.{said_at};
ghost use Rattle.quiet_run.specs.Scan.{said_first};
ghost use Rattle.c_values.specs.Numbers.{number_out, line_out, device_out, entry_out};
ghost use Rattle.c_values.specs.Filters.{filters_out, filter_out};
ghost use Rattle.c_values.specs.Books.{book_out, booked_by};
ghost use Rattle.c_values.specs.Lines.{line_by, reader_in, reader_out, given_out, position_out, quiet_out};

use book::Timed;
use filters::{Filter, Filters};
use line::{Item, Line};
use quiet_run::Loud;
use reader::{Given, Held};
use refusal::Refusal;
use table::Entry;
use target::{Device, LineTarget};

// A number, as a map, a count or an address.
#[repr(C)]
#[derive(Drop)]
pub struct WickNumber {
    pub refusal: u8,
    pub number: u64,
}

// The mode byte of filters, and how many entries they have.
#[repr(C)]
#[derive(Drop)]
pub struct WickFilters {
    pub refusal: u8,
    pub mode: u8,
    pub entries: u64,
}

// An entry of filters.
#[repr(C)]
#[derive(Drop)]
pub struct WickFilter {
    pub refusal: u8,
    pub address: u8,
    pub instance: u8,
    pub mask: u16,
}

// An entry of the table of commands: the number of a frame's shape, and that of its argument rule.
#[repr(C)]
#[derive(Drop)]
pub struct WickEntry {
    pub shape: u8,
    pub rule: u8,
}

// A book of unanswered requests: the command asked under each sequence number, the last number given, and the tick at which each was asked. Its parts
// are lent where they stand.
#[repr(C)]
#[derive(Drop)]
pub struct WickBook {
    pub asked: [u8; 256],
    pub last: u8,
    pub ticks: [u32; 256],
}

// What asking or answering gives: a sequence number or a command.
#[repr(C)]
#[derive(Drop)]
pub struct WickBooked {
    pub refusal: u8,
    pub answer: u8,
}

// A reader of a line between two calls: how many bytes it holds, and these in front.
#[repr(C)]
#[derive(Drop)]
pub struct WickReader {
    pub bytes: [u8; 67],
    pub len: usize,
}

// What a feeding or a closing call gives: the reader afterwards, how many bytes of the part were taken, whether there is an item, its
// number, how many bytes it has, and these in front of zeros.
#[repr(C)]
#[derive(Drop)]
pub struct WickGiven {
    pub reader: WickReader,
    pub taken: usize,
    pub has_item: u8,
    pub item: u8,
    pub count: usize,
    pub bytes: [u8; 68],
}

// What stands at a position: whether there is an item, its number and how many bytes it has.
#[repr(C)]
#[derive(Drop)]
pub struct WickItem {
    pub has_item: u8,
    pub item: u8,
    pub count: usize,
}

// The quiet profile applied to a finished run: whether it passes, and of the first item for which it does not the number, the place where it
// begins and how many bytes it has.
#[repr(C)]
#[derive(Drop)]
pub struct WickQuiet {
    pub passes: u8,
    pub item: u8,
    pub place: usize,
    pub count: usize,
}

// A number, or a refusal.
pub fn number_out(r: Result<u64, Refusal>) -> WickNumber
    ensures { result ≡ number_out (said r) }
{
    match r {
        Ok(number) => WickNumber { refusal: 0, number },
        Err(k) => WickNumber {
            refusal: k.number(),
            number: 0,
        },
    }
}

// An entry of the table of commands.
pub fn entry_out(e: Entry) -> WickEntry
    ensures { result ≡ entry_out (numbers_at e) }
{
    WickEntry {
        shape: e.shape,
        rule: e.rule,
    }
}

// The mode byte of filters and how many entries they have, and an entry.
pub fn filters_out(r: Result<Filters, Refusal>) -> WickFilters
    ensures { result ≡ filters_out (said r) }
{
    match r {
        Ok(f) => WickFilters {
            refusal: 0,
            mode: f.mode,
            entries: f.entries as u64,
        },
        Err(k) => WickFilters {
            refusal: k.number(),
            mode: 0,
            entries: 0,
        },
    }
}

pub fn filter_out(r: Result<Filter, Refusal>) -> WickFilter
    ensures { result ≡ filter_out (said r) }
{
    match r {
        Ok(f) => WickFilter {
            refusal: 0,
            address: f.address,
            instance: f.instance,
            mask: f.mask,
        },
        Err(k) => WickFilter {
            refusal: k.number(),
            address: 0,
            instance: 0,
            mask: 0,
        },
    }
}

// The target of a group on the line, and the address of a control device.
pub fn line_out(r: Result<LineTarget, Refusal>) -> WickNumber
    ensures { result ≡ line_out (said r) }
{
    number_out(r.map(|t| u64::from(t.0)))
}

pub fn device_out(r: Result<Device, Refusal>) -> WickNumber
    ensures { result ≡ device_out (said r) }
{
    number_out(r.map(|a| u64::from(a.0)))
}

// A book of crate book.
pub fn book_out(b: Timed) -> WickBook
    ensures { result ≡ book_out b }
{
    let asked = b.book.asked;
    let ticks = b.ticks;
    WickBook {
        asked,
        last: b.book.last,
        ticks,
    }
}

// What asking with a command and taking a reply's number answer.
pub fn booked_out(r: Result<u8, Refusal>) -> WickBooked
    ensures { result ≡ booked_by (said r) }
{
    match r {
        Ok(answer) => WickBooked { refusal: 0, answer },
        Err(k) => WickBooked {
            refusal: k.number(),
            answer: 0,
        },
    }
}

// The line by its number: 0 the request line, any other the reply line.
pub fn line_by(on: u8) -> Line
    ensures { result ≡ line_by on }
{
    if on == 0 { Line::Request } else { Line::Reply }
}

// A reader of crate reader, and back.
pub fn reader_in(w: WickReader) -> Held
    ensures { result ≡ reader_in w }
{
    let bytes = w.bytes;
    Held { bytes, len: w.len }
}

pub fn reader_out(h: Held) -> WickReader
    ensures { result ≡ reader_out h }
{
    let bytes = h.bytes;
    WickReader { bytes, len: h.len }
}

// What a feeding or a closing call gives; where there is no item, the count and the bytes of this one stand.
pub fn given_out(g: Given, or: reader::Item) -> WickGiven
    ensures { result ≡ given_out g or }
{
    let reader = reader_out(g.held);
    match g.item {
        Some(x) => {
            let bytes = x.bytes;
            WickGiven {
                reader,
                taken: g.taken,
                has_item: 1,
                item: x.number,
                count: x.count,
                bytes,
            }
        }
        None => {
            let bytes = or.bytes;
            WickGiven {
                reader,
                taken: g.taken,
                has_item: 0,
                item: 0,
                count: or.count,
                bytes,
            }
        }
    }
}

// What stands at a position.
pub fn item_out(r: Option<Item>) -> WickItem
    ensures { result ≡ position_out (said_at r) }
{
    match r {
        Some(x) => WickItem {
            has_item: 1,
            item: x.number,
            count: x.size,
        },
        None => WickItem {
            has_item: 0,
            item: 0,
            count: 0,
        },
    }
}

// The first item of a run that is not quiet.
pub fn quiet_out(r: Option<Loud>) -> WickQuiet
    ensures { result ≡ quiet_out (said_first r) }
{
    match r {
        Some(x) => WickQuiet {
            passes: 0,
            item: x.number,
            place: x.place,
            count: x.size,
        },
        None => WickQuiet {
            passes: 1,
            item: 0,
            place: 0,
            count: 0,
        },
    }
}
