// The codec for programs in C and Rust: `rt lib` makes out/libwickanchor.a of the functions below, a static library for x86-64. A run of
// bytes is a pointer and then a length; a result is a struct by value, laid out as C does. A refusal is its number by documents 01 and 02,
// and 0 stands for none; every other field of a refused call is 0, but for a mark, bytes in use and a summary that were handed in.
// include/wickanchor.h declares them for C. Each function hands on what the crate of its subject answers, as crates c_requests, c_datagrams,
// c_values, c_capture, c_seasons, c_plan and c_clock put it, and its contract cites that crate's definition.
#![tactic(auto)]

ghost use Rattle.std.specs.Prelude.{◌≡◌, not, [], ◌∷◌, eqb};
ghost use Rattle.refusal.specs.Test.{flag};
ghost use Rattle.sum.specs.Sum.{sum_of};
ghost use Rattle.frame.specs.Relay.{relayed};
ghost use Rattle.target.specs.Target.{lights_of, status_of, line_of, device_of, device_number};
ghost use Rattle.command.specs.Command.{is_known, numbers_in};
ghost use Rattle.command.specs.Colours.{xy_type, tc_type, rgbwaf_type};
ghost use Rattle.profile.specs.declared.Profile.TheVariants.{Open, Quiet};
ghost use Rattle.profile.specs.Profile.{is_inside};
ghost use Rattle.colour.specs.Colour.{hue, said_colour};
ghost use Rattle.request.specs.Reading.{read_request};
ghost use Rattle.request.specs.Writing.{basic_frame, unicast_frame, colour_frame, handed_on};
ghost use Rattle.error.specs.Error.{name_of};
ghost use Rattle.reply.specs.Reading.{read_reply, code_of};
ghost use Rattle.reply.specs.Writing.{reply_frame};
ghost use Rattle.event.specs.Reading.{read_event};
ghost use Rattle.event.specs.Writing.{event_frame};
ghost use Rattle.names.specs.Names.{name_of as text_of};
ghost use Rattle.maps.specs.Maps.{mask_of, scenes_of, gear_of, types_of, count_of, lowest_of};
ghost use Rattle.filters.specs.Filters.{filters_of, entry_of};
ghost use Rattle.filter_plan.specs.Plan.{left_of, checked};
ghost use Rattle.filter_plan.specs.Table.{left_by};
ghost use Rattle.filter_since.specs.Trace.{since_of};
ghost use Rattle.summary.specs.Summary.{counted_in};
ghost use Rattle.capture.specs.Capture.{opened, counted, prefixed, nothing_kept, entry_at};
ghost use Rattle.tally.specs.Tally.{no_tally};
ghost use Rattle.report.specs.Report.{reported};
ghost use Rattle.by_parts.specs.Parts.{begun, parted, ended};
ghost use Rattle.book.specs.Ticks.{timed, fresh_timed, GivesUp};
ghost use Rattle.clock_text.specs.Clock.{read_clock};
ghost use Rattle.clock_write.specs.Writing.{write_clock};
ghost use Rattle.clock_day.specs.Day.{runs_at};
ghost use Rattle.stream.specs.Stream.{items};
ghost use Rattle.extent.specs.declared.Line.TheVariants.{Request};
ghost use Rattle.line.specs.Rule.{item_at, settle};
ghost use Rattle.quiet_run.specs.Quiet.{first_loud};
ghost use Rattle.reader.specs.Reader.{hold};
ghost use Rattle.c_datagrams.specs.Written.{WrittenOut};
ghost use Rattle.c_requests.specs.Requests.{aim_out, request_out, address_in};
ghost use Rattle.c_datagrams.specs.Replies.{reply_out, name_no, code_out};
ghost use Rattle.c_datagrams.specs.Events.{event_out, mac_in};
ghost use Rattle.c_values.specs.Numbers.{number_out, line_out, device_out, entry_out};
ghost use Rattle.c_values.specs.Filters.{filters_out, filter_out};
ghost use Rattle.c_values.specs.Books.{book_out, AsksOut, RepliesOut};
ghost use Rattle.c_values.specs.Lines.{line_by, reader_in, reader_out, no_item, fed_out, closed_out, position_out, quiet_out};
ghost use Rattle.c_capture.specs.Captures.{summary_in, mark_in, found_out, opened_out, counted_out, EmptiesOut, AppendsAtOut, AppendsOut, RunsOut, RunsAtOut};
ghost use Rattle.c_capture.specs.Records.{record_out};
ghost use Rattle.c_seasons.specs.Seasons.{corridor_in, boundaries_in, seasons_out};
ghost use Rattle.c_seasons.specs.States.{state_in, state_out};
ghost use Rattle.c_plan.specs.Plans.{verdict_out, left_out, since_out};
ghost use Rattle.c_clock.specs.Clocks.{read_out, clock_in, runs_out};

use c_capture::{
    WickAppended, WickCapture, WickCounted, WickMark, WickOpened, WickRan, WickRanAt, WickRecord,
    WickSummary,
};
use c_clock::{WickClock, WickClockRead, WickClockRuns};
use c_datagrams::{
    WickAddress, WickAim, WickCode, WickEvent, WickMac, WickReply, WickRequest, WickWrote,
};
use c_plan::{WickPlan, WickPlanLeft, WickSince};
use c_seasons::{WickBoundaries, WickCorridor, WickSeasons, WickSeasonsState};
use c_values::{
    WickBook, WickBooked, WickEntry, WickFilter, WickFilters, WickGiven, WickItem, WickNumber,
    WickQuiet, WickReader,
};
use capture::Kept;
use clock_day::Given;
use colour::Colour;
use event::Layout;
use meaning::Arguments;
use morning::{Ran, RanAt};
use profile::Profile;
use reader::Item;
use target::{Device, Group, LineTarget};

// The exclusive-or of the bytes of a run, 0 for none.
#[unsafe(no_mangle)]
pub extern "C" fn wick_sum(s: &[u8]) -> u8
    ensures { result ≡ sum_of s.now }
{
    sum::xor(s)
}

// 1 where the command is one of the 33, else 0.
#[unsafe(no_mangle)]
pub extern "C" fn wick_known(command: u8) -> u8
    ensures { result ≡ flag (is_known command) }
{
    command::known(command) as u8
}

// 1 where the command is inside the quiet profile, else 0.
#[unsafe(no_mangle)]
pub extern "C" fn wick_inside(command: u8) -> u8
    ensures { result ≡ flag (is_inside command) }
{
    profile::inside(command) as u8
}

// The entry of a command in the table of commands.
#[unsafe(no_mangle)]
pub extern "C" fn wick_table(command: u8) -> WickEntry
    ensures { result ≡ entry_out (numbers_in command) }
{
    c_values::entry_out(table::entry_of(command))
}

// Reads a request datagram.
#[unsafe(no_mangle)]
pub extern "C" fn wick_request(s: &[u8]) -> WickRequest
    ensures { result ≡ request_out (read_request s.now) }
{
    c_datagrams::request_out(request::read(s))
}

// Writes a basic request.
#[unsafe(no_mangle)]
pub extern "C" fn wick_write_basic(
    sequence: u8,
    command: u8,
    a: u8,
    b: u8,
    c: u8,
    d: u8,
    out: &mut [u8],
) -> WickWrote
    ensures { WrittenOut (basic_frame Open sequence command (record { a = a; b = b; c = c; d = d })) out.old result out.new }
{
    c_datagrams::wrote_out(request_writers::basic(
        Profile::Open,
        sequence,
        command,
        Arguments { a, b, c, d },
        out,
    ))
}

// Writes request 40.
#[unsafe(no_mangle)]
pub extern "C" fn wick_write_unicast(
    sequence: u8,
    port: u16,
    address: WickAddress,
    out: &mut [u8],
) -> WickWrote
    ensures { WrittenOut (unicast_frame Open sequence port (address_in address)) out.old result out.new }
{
    c_datagrams::wrote_out(request_writers::unicast(
        Profile::Open,
        sequence,
        port,
        c_datagrams::address_in(address),
        out,
    ))
}

// Writes a colour request of any type under a profile. (What the writers with and without the quiet profile share stands here and in crate
// request_writers; that each is a function of its own is C's interface.)
fn write_colour(
    profile: Profile,
    sequence: u8,
    target: u8,
    level: u8,
    colour: Colour,
    out: &mut [u8],
) -> WickWrote
    ensures { WrittenOut (colour_frame profile sequence (record { 0 = target }) level (said_colour colour)) out.old result out.new }
{
    let target = LineTarget(target);
    c_datagrams::wrote_out(request_writers::colour(profile, sequence, target, level, colour, out))
}

// Writes a colour request of type 10.
#[unsafe(no_mangle)]
pub extern "C" fn wick_write_colour_xy(
    sequence: u8,
    target: u8,
    level: u8,
    x: u16,
    y: u16,
    out: &mut [u8],
) -> WickWrote
    ensures { WrittenOut (colour_frame Open sequence (record { 0 = target }) level (hue xy_type (x ∷ y ∷ []))) out.old result out.new }
{
    write_colour(
        Profile::Open,
        sequence,
        target,
        level,
        Colour::Xy { x, y },
        out,
    )
}

// Writes a colour request of type 20.
#[unsafe(no_mangle)]
pub extern "C" fn wick_write_colour_tc(
    sequence: u8,
    target: u8,
    level: u8,
    tc: u16,
    out: &mut [u8],
) -> WickWrote
    ensures { WrittenOut (colour_frame Open sequence (record { 0 = target }) level (hue tc_type (tc ∷ []))) out.old result out.new }
{
    write_colour(Profile::Open, sequence, target, level, Colour::Tc(tc), out)
}

// Writes a colour request of type 80.
#[unsafe(no_mangle)]
pub extern "C" fn wick_write_colour_rgbwaf(
    sequence: u8,
    target: u8,
    level: u8,
    red: u8,
    green: u8,
    blue: u8,
    white: u8,
    amber: u8,
    free: u8,
    out: &mut [u8],
) -> WickWrote
    ensures { WrittenOut (colour_frame Open sequence (record { 0 = target }) level (hue rgbwaf_type (red ∷ green ∷ blue ∷ white ∷ amber ∷ free ∷ []))) out.old result out.new }
{
    let colour = Colour::Rgbwaf {
        red,
        green,
        blue,
        white,
        amber,
        free,
    };
    write_colour(Profile::Open, sequence, target, level, colour, out)
}

// Writes a basic request under the quiet profile: 13 where its command is outside.
#[unsafe(no_mangle)]
pub extern "C" fn wick_write_basic_quiet(
    sequence: u8,
    command: u8,
    a: u8,
    b: u8,
    c: u8,
    d: u8,
    out: &mut [u8],
) -> WickWrote
    ensures { WrittenOut (basic_frame Quiet sequence command (record { a = a; b = b; c = c; d = d })) out.old result out.new }
{
    c_datagrams::wrote_out(request_writers::basic(
        Profile::Quiet,
        sequence,
        command,
        Arguments { a, b, c, d },
        out,
    ))
}

// Writes nothing: request 40 is outside the quiet profile, 13.
#[unsafe(no_mangle)]
pub extern "C" fn wick_write_unicast_quiet(
    sequence: u8,
    port: u16,
    address: WickAddress,
    out: &mut [u8],
) -> WickWrote
    ensures { WrittenOut (unicast_frame Quiet sequence port (address_in address)) out.old result out.new }
{
    c_datagrams::wrote_out(request_writers::unicast(
        Profile::Quiet,
        sequence,
        port,
        c_datagrams::address_in(address),
        out,
    ))
}

// Writes nothing: a colour request, here of type 10, is outside the quiet profile, 13; 7 comes first.
#[unsafe(no_mangle)]
pub extern "C" fn wick_write_colour_xy_quiet(
    sequence: u8,
    target: u8,
    level: u8,
    x: u16,
    y: u16,
    out: &mut [u8],
) -> WickWrote
    ensures { WrittenOut (colour_frame Quiet sequence (record { 0 = target }) level (hue xy_type (x ∷ y ∷ []))) out.old result out.new }
{
    write_colour(
        Profile::Quiet,
        sequence,
        target,
        level,
        Colour::Xy { x, y },
        out,
    )
}

// Writes nothing: a colour request, here of type 20, is outside the quiet profile, 13; 7 comes first.
#[unsafe(no_mangle)]
pub extern "C" fn wick_write_colour_tc_quiet(
    sequence: u8,
    target: u8,
    level: u8,
    tc: u16,
    out: &mut [u8],
) -> WickWrote
    ensures { WrittenOut (colour_frame Quiet sequence (record { 0 = target }) level (hue tc_type (tc ∷ []))) out.old result out.new }
{
    write_colour(Profile::Quiet, sequence, target, level, Colour::Tc(tc), out)
}

// Writes nothing: a colour request, here of type 80, is outside the quiet profile, 13; 7 comes first.
#[unsafe(no_mangle)]
pub extern "C" fn wick_write_colour_rgbwaf_quiet(
    sequence: u8,
    target: u8,
    level: u8,
    red: u8,
    green: u8,
    blue: u8,
    white: u8,
    amber: u8,
    free: u8,
    out: &mut [u8],
) -> WickWrote
    ensures { WrittenOut (colour_frame Quiet sequence (record { 0 = target }) level (hue rgbwaf_type (red ∷ green ∷ blue ∷ white ∷ amber ∷ free ∷ []))) out.old result out.new }
{
    let colour = Colour::Rgbwaf {
        red,
        green,
        blue,
        white,
        amber,
        free,
    };
    write_colour(Profile::Quiet, sequence, target, level, colour, out)
}

// Reads a request and writes it again, unless its command is retired.
#[unsafe(no_mangle)]
pub extern "C" fn wick_relay_request(s: &[u8], out: &mut [u8]) -> WickWrote
    ensures { WrittenOut (handed_on (read_request s.now) s.now) out.old result out.new }
{
    c_datagrams::wrote_out(relay::request(s, out))
}

// Reads a reply datagram.
#[unsafe(no_mangle)]
pub extern "C" fn wick_reply(s: &[u8]) -> WickReply
    ensures { result ≡ reply_out (read_reply s.now) }
{
    c_datagrams::reply_out(reply::read(s))
}

// The error code of a reply datagram.
#[unsafe(no_mangle)]
pub extern "C" fn wick_error_code(s: &[u8]) -> WickCode
    ensures { result ≡ code_out (code_of s.now) }
{
    c_datagrams::code_out(reply::error_code(s))
}

// The number of an error code's name, 0 where it has none.
#[unsafe(no_mangle)]
pub extern "C" fn wick_error_name(code: u8) -> u8
    ensures { result ≡ name_no (name_of code) }
{
    c_datagrams::name_out(error::name_of(code))
}

// Writes a reply.
#[unsafe(no_mangle)]
pub extern "C" fn wick_write_reply(kind: u8, sequence: u8, data: &[u8], out: &mut [u8]) -> WickWrote
    ensures { WrittenOut (reply_frame kind sequence «data».now) out.old result out.new }
{
    c_datagrams::wrote_out(writers::reply(kind, sequence, data, out))
}

// Reads a reply and writes it again.
#[unsafe(no_mangle)]
pub extern "C" fn wick_relay_reply(s: &[u8], out: &mut [u8]) -> WickWrote
    ensures { WrittenOut (relayed (read_reply s.now) s.now) out.old result out.new }
{
    c_datagrams::wrote_out(relay::reply(s, out))
}

// Puts the name of a number of a kind, as text.
#[unsafe(no_mangle)]
pub extern "C" fn wick_name(kind: u8, number: u8, out: &mut [u8]) -> WickWrote
    ensures { WrittenOut (text_of kind number) out.old result out.new }
{
    c_datagrams::wrote_out(names::name(kind, number, out))
}

// Reads an event datagram whose target has three bytes. (The refusal is returned by itself: the compiler then writes either answer once,
// straight into the caller's struct.)
#[unsafe(no_mangle)]
pub extern "C" fn wick_event(s: &[u8]) -> WickEvent
    ensures { result ≡ event_out 3 (read_event 3 s.now) }
{
    match event::read(Layout::Three, s) {
        Ok(e) => c_datagrams::event_out(Layout::Three, e),
        Err(k) => {
            return c_datagrams::event_refused(k);
        }
    }
}

// Writes an event whose target has three bytes.
#[unsafe(no_mangle)]
pub extern "C" fn wick_write_event(
    mac: WickMac,
    target: u32,
    kind: u8,
    data: &[u8],
    out: &mut [u8],
) -> WickWrote
    ensures { WrittenOut (event_frame 3 (mac_in mac) target kind «data».now) out.old result out.new }
{
    c_datagrams::wrote_out(writers::event(
        Layout::Three,
        c_datagrams::mac_in(mac),
        target,
        kind,
        data,
        out,
    ))
}

// Reads an event whose target has three bytes and writes it again.
#[unsafe(no_mangle)]
pub extern "C" fn wick_relay_event(s: &[u8], out: &mut [u8]) -> WickWrote
    ensures { WrittenOut (relayed (read_event 3 s.now) s.now) out.old result out.new }
{
    c_datagrams::wrote_out(relay::event(Layout::Three, s, out))
}

// Reads an event datagram whose target has two bytes.
#[unsafe(no_mangle)]
pub extern "C" fn wick_event_two(s: &[u8]) -> WickEvent
    ensures { result ≡ event_out 2 (read_event 2 s.now) }
{
    match event::read(Layout::Two, s) {
        Ok(e) => c_datagrams::event_out(Layout::Two, e),
        Err(k) => {
            return c_datagrams::event_refused(k);
        }
    }
}

// Writes an event whose target has two bytes.
#[unsafe(no_mangle)]
pub extern "C" fn wick_write_event_two(
    mac: WickMac,
    target: u32,
    kind: u8,
    data: &[u8],
    out: &mut [u8],
) -> WickWrote
    ensures { WrittenOut (event_frame 2 (mac_in mac) target kind «data».now) out.old result out.new }
{
    c_datagrams::wrote_out(writers::event(
        Layout::Two,
        c_datagrams::mac_in(mac),
        target,
        kind,
        data,
        out,
    ))
}

// Reads an event whose target has two bytes and writes it again.
#[unsafe(no_mangle)]
pub extern "C" fn wick_relay_event_two(s: &[u8], out: &mut [u8]) -> WickWrote
    ensures { WrittenOut (relayed (read_event 2 s.now) s.now) out.old result out.new }
{
    c_datagrams::wrote_out(relay::event(Layout::Two, s, out))
}

// The event mask of two bytes.
#[unsafe(no_mangle)]
pub extern "C" fn wick_mask(s: &[u8]) -> WickNumber
    ensures { result ≡ number_out (mask_of s.now) }
{
    c_values::number_out(maps::mask(s).map(u64::from))
}

// How many event types a mask names.
#[unsafe(no_mangle)]
pub extern "C" fn wick_count_types(mask: u16) -> u32
    ensures { result ≡ count_of 16 mask }
{
    maps::count_types(mask)
}

// The lowest event type that a mask names.
#[unsafe(no_mangle)]
pub extern "C" fn wick_lowest_type(mask: u16) -> WickNumber
    ensures { result ≡ number_out (lowest_of 16 mask) }
{
    c_values::number_out(maps::lowest_type(mask).map(u64::from))
}

// The scenes of a group, from the reply to 1A.
#[unsafe(no_mangle)]
pub extern "C" fn wick_scenes(s: &[u8]) -> WickNumber
    ensures { result ≡ number_out (scenes_of s.now) }
{
    c_values::number_out(maps::scenes(s).map(u64::from))
}

// The gear present, from the reply to 1D.
#[unsafe(no_mangle)]
pub extern "C" fn wick_gear(s: &[u8]) -> WickNumber
    ensures { result ≡ number_out (gear_of s.now) }
{
    c_values::number_out(maps::gear(s))
}

// How many gear are present.
#[unsafe(no_mangle)]
pub extern "C" fn wick_count_gear(gear: u64) -> u32
    ensures { result ≡ count_of 64 gear }
{
    maps::count_gear(gear)
}

// The lowest address of the gear present.
#[unsafe(no_mangle)]
pub extern "C" fn wick_lowest_gear(gear: u64) -> WickNumber
    ensures { result ≡ number_out (lowest_of 64 gear) }
{
    c_values::number_out(maps::lowest_gear(gear).map(u64::from))
}

// The gear types, from the reply to AC.
#[unsafe(no_mangle)]
pub extern "C" fn wick_types(s: &[u8]) -> WickNumber
    ensures { result ≡ number_out (types_of s.now) }
{
    c_values::number_out(maps::types(s).map(u64::from))
}

// The mode byte of the filters in the reply to 32, and how many entries follow it.
#[unsafe(no_mangle)]
pub extern "C" fn wick_filters(s: &[u8]) -> WickFilters
    ensures { result ≡ filters_out (filters_of s.now) }
{
    c_values::filters_out(filters::read(s))
}

// Entry i of the filters, counted from 0.
#[unsafe(no_mangle)]
pub extern "C" fn wick_filter(s: &[u8], i: usize) -> WickFilter
    ensures { result ≡ filter_out (entry_of s.now i) }
{
    c_values::filter_out(filters::entry(s, i))
}

// The target on the line of a group by its number.
#[unsafe(no_mangle)]
pub extern "C" fn wick_group_target(group: u8) -> WickNumber
    ensures { result ≡ line_out (line_of (record { 0 = group })) }
{
    c_values::line_out(Group(group).line_target())
}

// The address of the control device with this number of its own.
#[unsafe(no_mangle)]
pub extern "C" fn wick_device(number: u8) -> WickNumber
    ensures { result ≡ device_out (device_of number) }
{
    c_values::device_out(Device::of(number))
}

// The own number of the control device at an address.
#[unsafe(no_mangle)]
pub extern "C" fn wick_device_number(address: u8) -> WickNumber
    ensures { result ≡ number_out (device_number (record { 0 = address })) }
{
    c_values::number_out(Device(address).number().map(u64::from))
}

// What a lighting command with this target lights.
#[unsafe(no_mangle)]
pub extern "C" fn wick_lights(target: u8) -> WickAim
    ensures { result ≡ aim_out (lights_of (record { 0 = target })) }
{
    c_datagrams::aim_out(LineTarget(target).lights())
}

// What a query of gear status with this target asks about.
#[unsafe(no_mangle)]
pub extern "C" fn wick_status(target: u8) -> WickAim
    ensures { result ≡ aim_out (status_of (record { 0 = target })) }
{
    c_datagrams::aim_out(LineTarget(target).status())
}

// A book in which nothing is held, and whose first number is 0.
#[unsafe(no_mangle)]
pub extern "C" fn wick_book() -> WickBook
    ensures { result ≡ book_out fresh_timed }
{
    c_values::book_out(book::fresh())
}

// Asks with a command at a tick: the sequence number for the request.
#[unsafe(no_mangle)]
pub extern "C" fn wick_ask(
    asked: &mut [u8; 256],
    last: &mut u8,
    ticks: &mut [u32; 256],
    command: u8,
    tick: u32,
) -> WickBooked
    ensures { AsksOut (timed asked.old last.old ticks.old) command tick result (timed asked.new last.new ticks.new) }
{
    c_values::booked_out(book::ask(asked, last, ticks, command, tick))
}

// Takes a reply's sequence number: the command that was asked under it.
#[unsafe(no_mangle)]
pub extern "C" fn wick_answer(asked: &mut [u8; 256], number: u8) -> WickBooked
    ensures { RepliesOut asked.old number result asked.new }
{
    c_values::booked_out(book::reply(asked, number))
}

// Gives up each request that was asked longer ago than a limit, by the tick now: how many these were.
#[unsafe(no_mangle)]
pub extern "C" fn wick_give_up(
    asked: &mut [u8; 256],
    ticks: &[u32; 256],
    clock: u32,
    limit: u32,
) -> u16
    ensures { GivesUp asked.old ticks.now clock limit result asked.new }
{
    book::give_up(asked, ticks, clock, limit)
}

// A reader that holds nothing.
#[unsafe(no_mangle)]
pub extern "C" fn wick_reader() -> WickReader
    ensures { result ≡ reader_out (hold []) }
{
    c_values::reader_out(reader::fresh())
}

// An item of nothing, which stands where a call of a reader gives none.
fn no_item() -> Item
    ensures { result ≡ no_item }
{
    Item {
        number: 0,
        count: 0,
        bytes: [0; reader::ITEM_ROOM],
    }
}

// Feeds a reader of a line with a part.
#[unsafe(no_mangle)]
pub extern "C" fn wick_feed(on: u8, reader: WickReader, part: &[u8]) -> WickGiven
    ensures { result ≡ fed_out (line_by on) (reader_in reader) part.now }
{
    c_values::given_out(
        reader::feed(c_values::line_by(on), c_values::reader_in(reader), part),
        no_item(),
    )
}

// Closes a reader of a line: the next item of the bytes that it holds.
#[unsafe(no_mangle)]
pub extern "C" fn wick_close(on: u8, reader: WickReader) -> WickGiven
    ensures { result ≡ closed_out (line_by on) (reader_in reader) }
{
    c_values::given_out(
        reader::close(c_values::line_by(on), c_values::reader_in(reader)),
        no_item(),
    )
}

// What stands at a position of a line from which on these bytes are there, and no more where it is closed (not 0).
#[unsafe(no_mangle)]
pub extern "C" fn wick_item_at(on: u8, closed: u8, s: &[u8]) -> WickItem
    ensures { result ≡ position_out (item_at (line_by on) (not (eqb closed 0)) s.now) }
{
    c_values::item_out(line::item_at(c_values::line_by(on), closed != 0, s))
}

// The quiet profile applied to a finished run of requests.
#[unsafe(no_mangle)]
pub extern "C" fn wick_quiet(s: &[u8]) -> WickQuiet
    ensures { result ≡ quiet_out (first_loud 0 (items (settle Request) s.now)) }
{
    c_values::quiet_out(quiet_run::first(s))
}

// Empties a capture.
#[unsafe(no_mangle)]
pub extern "C" fn wick_capture_empty(version: u8, buf: &mut [u8]) -> WickCapture
    ensures { EmptiesOut buf.old version result buf.new }
{
    c_capture::found_out(append::empty(buf, version), capture::nothing_kept())
}

// Appends an event to a capture by the letter.
#[unsafe(no_mangle)]
pub extern "C" fn wick_capture_append(
    buf: &mut [u8],
    used: usize,
    summary: WickSummary,
    seconds: u32,
    datagram: &[u8],
) -> WickAppended
    ensures { AppendsOut buf.old used (summary_in summary) seconds datagram.now result buf.new }
{
    let x = c_capture::summary_in(summary);
    c_capture::appended_out(append::append(buf, used, x, seconds, datagram), used, x)
}

// Appends an event to a capture by a mark.
#[unsafe(no_mangle)]
pub extern "C" fn wick_capture_append_at(
    buf: &mut [u8],
    mark: WickMark,
    summary: WickSummary,
    seconds: u32,
    datagram: &[u8],
) -> WickCapture
    ensures { AppendsAtOut buf.old (mark_in mark) (summary_in summary) seconds datagram.now result buf.new }
{
    let mark = c_capture::mark_in(mark);
    let x = c_capture::summary_in(summary);
    c_capture::found_out(
        append::append_at(buf, mark, x, seconds, datagram),
        Kept { mark, summary: x },
    )
}

// Appends a run of events to a capture by the letter, each led by its length.
#[unsafe(no_mangle)]
pub extern "C" fn wick_capture_run(
    buf: &mut [u8],
    used: usize,
    summary: WickSummary,
    seconds: u32,
    run: &[u8],
) -> WickRan
    ensures { RunsOut buf.old used (summary_in summary) seconds run.now result buf.new }
{
    let x = c_capture::summary_in(summary);
    c_capture::ran_out(
        morning::run(buf, used, x, seconds, run),
        Ran {
            entered: 0,
            refused: 0,
            used,
            summary: x,
        },
    )
}

// Appends a run of events to a capture by a mark.
#[unsafe(no_mangle)]
pub extern "C" fn wick_capture_run_at(
    buf: &mut [u8],
    mark: WickMark,
    summary: WickSummary,
    seconds: u32,
    run: &[u8],
) -> WickRanAt
    ensures { RunsAtOut buf.old (mark_in mark) (summary_in summary) seconds run.now result buf.new }
{
    let mark = c_capture::mark_in(mark);
    let x = c_capture::summary_in(summary);
    c_capture::ran_at_out(
        morning::run_at(buf, mark, x, seconds, run),
        RanAt {
            entered: 0,
            refused: 0,
            kept: Kept { mark, summary: x },
        },
    )
}

// Opens a capture: its mark.
#[unsafe(no_mangle)]
pub extern "C" fn wick_capture_open(buf: &[u8], used: usize) -> WickOpened
    ensures { result ≡ opened_out (opened buf.now used) }
{
    c_capture::opened_out(capture::open(buf, used))
}

// Counts a capture afresh.
#[unsafe(no_mangle)]
pub extern "C" fn wick_capture_count(buf: &[u8], used: usize) -> WickCounted
    ensures { result ≡ counted_out (counted buf.now used) (counted_in []) }
{
    c_capture::counted_out(capture::count(buf, used), summary::nothing())
}

// The longest good capture at the front of the bytes in use.
#[unsafe(no_mangle)]
pub extern "C" fn wick_capture_prefix(buf: &[u8], used: usize) -> WickCapture
    ensures { result ≡ found_out (prefixed buf.now used) nothing_kept }
{
    c_capture::found_out(capture::prefix(buf, used), capture::nothing_kept())
}

// The record that begins at a place of a capture.
#[unsafe(no_mangle)]
pub extern "C" fn wick_capture_record(buf: &[u8], used: usize, place: usize) -> WickRecord
    ensures { result ≡ record_out place (entry_at buf.now used place) }
{
    c_capture::record_out(place, capture::step(buf, used, place))
}

// The four seasons of one corridor in a capture.
#[unsafe(no_mangle)]
pub extern "C" fn wick_capture_seasons(
    buf: &[u8],
    used: usize,
    who: WickCorridor,
    boundaries: WickBoundaries,
) -> WickSeasons
    ensures { result ≡ seasons_out (reported buf.now used (corridor_in who) (boundaries_in boundaries)) no_tally.seasons }
{
    c_seasons::seasons_out(
        report::report(
            buf,
            used,
            c_seasons::corridor_in(who),
            c_seasons::boundaries_in(boundaries),
        ),
        tally::nothing().seasons,
    )
}

// A report of a capture of which no part has come.
#[unsafe(no_mangle)]
pub extern "C" fn wick_seasons_begin(
    who: WickCorridor,
    boundaries: WickBoundaries,
) -> WickSeasonsState
    ensures { result ≡ state_out (begun (corridor_in who) (boundaries_in boundaries)) }
{
    c_seasons::state_out(by_parts::begin(
        c_seasons::corridor_in(who),
        c_seasons::boundaries_in(boundaries),
    ))
}

// Takes the next part of a capture.
#[unsafe(no_mangle)]
pub extern "C" fn wick_seasons_part(state: WickSeasonsState, part: &[u8]) -> WickSeasonsState
    ensures { result ≡ state_out (parted (state_in state) part.now) }
{
    c_seasons::state_out(by_parts::part(c_seasons::state_in(state), part))
}

// The four seasons, where no more parts come.
#[unsafe(no_mangle)]
pub extern "C" fn wick_seasons_end(state: WickSeasonsState) -> WickSeasons
    ensures { result ≡ seasons_out (ended (state_in state)) no_tally.seasons }
{
    c_seasons::seasons_out(
        by_parts::end(c_seasons::state_in(state)),
        tally::nothing().seasons,
    )
}

// The check of a filter plan against the events that are wanted.
#[unsafe(no_mangle)]
pub extern "C" fn wick_plan(plan: &[u8], wanted: &[u8]) -> WickPlan
    ensures { result ≡ verdict_out (checked plan.now wanted.now) }
{
    c_plan::verdict_out(filter_plan::check(plan, wanted))
}

// The filters that a plan leaves; where a request is bad, those that stood before it.
#[unsafe(no_mangle)]
pub extern "C" fn wick_plan_left(plan: &[u8]) -> WickPlanLeft
    ensures { result ≡ left_out (left_by (left_of plan.now)) }
{
    c_plan::left_out(filter_plan::leaves(plan))
}

// Since which request of a plan an event is hidden to its end.
#[unsafe(no_mangle)]
pub extern "C" fn wick_plan_since(plan: &[u8], address: u8, instance: u8, kind: u8) -> WickSince
    ensures { result ≡ since_out (since_of plan.now address instance kind) }
{
    c_plan::since_out(filter_since::hidden_since(plan, address, instance, kind))
}

// Reads the text of a clock, which is astronomical where the flag is not 0.
#[unsafe(no_mangle)]
pub extern "C" fn wick_clock(astronomical: u8, s: &[u8]) -> WickClockRead
    ensures { result ≡ read_out (read_clock (not (eqb astronomical 0)) s.now) }
{
    c_clock::read_out(clock_text::read(astronomical != 0, s))
}

// Whether the clock of a text runs on a day, and at which second from midnight.
#[unsafe(no_mangle)]
pub extern "C" fn wick_clock_runs(
    astronomical: u8,
    year: u16,
    month: u8,
    day: u8,
    weekday: u8,
    s: &[u8],
) -> WickClockRuns
    ensures { result ≡ runs_out (runs_at (not (eqb astronomical 0)) (record { year = year; month = month; day = day; weekday = weekday }) s.now) }
{
    let given = Given {
        year,
        month,
        day,
        weekday,
    };
    c_clock::runs_out(clock_day::runs(astronomical != 0, given, s))
}

// Writes a clock as its text.
#[unsafe(no_mangle)]
pub extern "C" fn wick_write_clock(clock: WickClock, out: &mut [u8]) -> WickWrote
    ensures { WrittenOut (write_clock (clock_in clock)) out.old result out.new }
{
    c_datagrams::wrote_out(clock_write::write(c_clock::clock_in(clock), out))
}
