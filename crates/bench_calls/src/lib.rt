// The calls of the bench: a constant table of their names, numbers and groups, and what a line calls by it. docs/BENCH.md,
// "What is no call". It leans on crate bench_words, which takes a line apart, and on crate bench_say.
#![tactic(auto)]

ghost use Rattle.std.specs.Prelude.{◌≡◌};
ghost use Rattle.lent.specs.All.{PutsAll};
ghost use Rattle.bench_words.specs.Words.{words_at};
ghost use Rattle.bench_calls.specs.Table.{place_in, row_of, help_texts};
ghost use Rattle.bench_calls.specs.Called.{measured_of, Calls, refused_texts};
ghost use Rattle.bench_calls.specs.Faults.{fault_kind};

use bench_say::Pieces;
use bench_words::Groups;

// A line's call, by its number in the table, with its groups.
#[derive(Drop)]
pub struct Call {
    pub number: usize,
    pub groups: Groups,
}

// Why a line is no call.
#[derive(Clone, Copy, Debug, PartialEq, Eq)]
pub enum Fault {
    NoSuchCall,
    NotAByte,
    WrongGroups,
    WrongBytes,
}

// A row for each call: its number, how many groups it takes, how many bytes the first has at least and at most, and how
// many the second and the third have at most, as digits of one hexadecimal number. FFF is more than a line can name. The first digit of a call's number is its family: what is answered of it is of one kind. (7 and 8 write into a
// buffer, which is their last group of two or of three; A gives the data of a datagram.) New calls stand behind those of theirs.
const ROWS: [usize; 94] = [
    // Datagrams
    0x10_1_000_FFF_FFF_FFF, // request
    0x70_2_006_006_FFF_FFF, // write_basic
    0x71_2_007_007_FFF_FFF, // write_unicast
    0x77_2_007_007_FFF_FFF, // write_colour_xy
    0x78_2_005_005_FFF_FFF, // write_colour_tc
    0x79_2_009_009_FFF_FFF, // write_colour_rgbwaf
    0x7A_2_006_006_FFF_FFF, // write_basic_quiet
    0x7B_2_007_007_FFF_FFF, // write_unicast_quiet
    0x7C_2_007_007_FFF_FFF, // write_colour_xy_quiet
    0x7D_2_005_005_FFF_FFF, // write_colour_tc_quiet
    0x7E_2_009_009_FFF_FFF, // write_colour_rgbwaf_quiet
    0x90_1_000_FFF_FFF_FFF, // reply
    0xA0_1_000_FFF_FFF_FFF, // reply_data
    0x91_1_000_FFF_FFF_FFF, // error_code
    0x80_3_002_002_FFF_FFF, // write_reply
    0x92_1_000_FFF_FFF_FFF, // event
    0xA1_1_000_FFF_FFF_FFF, // event_data
    0x81_3_00B_00B_FFF_FFF, // write_event
    0x94_1_000_FFF_FFF_FFF, // event_two
    0xA2_1_000_FFF_FFF_FFF, // event_two_data
    0x83_3_00B_00B_FFF_FFF, // write_event_two
    0x72_2_000_FFF_FFF_FFF, // relay_request
    0x73_2_000_FFF_FFF_FFF, // relay_reply
    0x74_2_000_FFF_FFF_FFF, // relay_event
    0x76_2_000_FFF_FFF_FFF, // relay_event_two
    // Parts of datagrams
    0x20_1_000_FFF_FFF_FFF, // sum
    0x82_3_000_FFF_FFF_FFF, // frame
    0x21_1_001_001_FFF_FFF, // known
    0x22_1_001_001_FFF_FFF, // shape
    0x23_1_005_005_FFF_FFF, // fits
    0x28_1_001_001_FFF_FFF, // inside
    0x2A_1_001_001_FFF_FFF, // table
    0x24_1_001_001_FFF_FFF, // error_name
    0x93_1_001_001_FFF_FFF, // event_type
    0x25_1_001_001_FFF_FFF, // group_target
    0x11_1_001_001_FFF_FFF, // lights
    0x12_1_001_001_FFF_FFF, // status
    0x26_1_001_001_FFF_FFF, // device
    0x27_1_001_001_FFF_FFF, // device_number
    0x75_2_002_002_FFF_FFF, // name
    // Reply data
    0x30_1_002_002_FFF_FFF, // high_first
    0x31_1_000_FFF_FFF_FFF, // mask
    0x32_1_002_002_FFF_FFF, // count_types
    0x33_1_002_002_FFF_FFF, // lowest_type
    0x34_1_000_FFF_FFF_FFF, // scenes
    0x35_1_000_FFF_FFF_FFF, // gear
    0x36_1_008_008_FFF_FFF, // count_gear
    0x37_1_008_008_FFF_FFF, // lowest_gear
    0x38_1_000_FFF_FFF_FFF, // types
    0x39_1_000_FFF_FFF_FFF, // filters
    0x3A_2_008_008_FFF_FFF, // filter
    // The book of unanswered requests
    0x40_1_000_000_FFF_FFF, // book_fresh
    0x41_3_001_001_100_400, // book_set
    0x42_1_005_005_FFF_FFF, // ask
    0x43_1_001_001_FFF_FFF, // answer
    0x45_1_008_008_FFF_FFF, // give_up
    0x44_1_000_000_FFF_FFF, // book_show
    // Lines: the request line, the reply line
    0x50_1_000_000_FFF_FFF, // fresh_request
    0x51_2_008_008_043_FFF, // hold_request
    0x52_1_000_FFF_FFF_FFF, // feed_request
    0x53_1_000_000_FFF_FFF, // close_request
    0x54_1_000_000_FFF_FFF, // show_request
    0x55_1_000_FFF_FFF_FFF, // settle_request
    0x56_2_001_001_FFF_FFF, // item_request
    0x60_1_000_000_FFF_FFF, // fresh_reply
    0x61_2_008_008_043_FFF, // hold_reply
    0x62_1_000_FFF_FFF_FFF, // feed_reply
    0x63_1_000_000_FFF_FFF, // close_reply
    0x64_1_000_000_FFF_FFF, // show_reply
    0x65_1_000_FFF_FFF_FFF, // settle_reply
    0x66_2_001_001_FFF_FFF, // item_reply
    0x29_1_000_FFF_FFF_FFF, // quiet
    // The capture
    0xC0_2_008_008_514_FFF, // capture_set
    0xC1_1_03A_03A_FFF_FFF, // summary_set
    0xC2_1_00D_00D_FFF_FFF, // mark_set
    0xC3_1_001_001_FFF_FFF, // capture_empty
    0xC4_2_004_004_FFF_FFF, // capture_append
    0xC5_2_004_004_FFF_FFF, // capture_append_at
    0xCB_2_004_004_FFF_FFF, // capture_run
    0xCC_2_004_004_FFF_FFF, // capture_run_at
    0xC6_1_000_000_FFF_FFF, // capture_open
    0xC7_1_000_000_FFF_FFF, // capture_count
    0xC8_1_000_000_FFF_FFF, // capture_prefix
    0xC9_1_008_008_FFF_FFF, // capture_record
    0xCA_1_000_000_FFF_FFF, // capture_show
    // Seasons
    0xD0_1_017_017_FFF_FFF, // seasons
    0xD1_1_017_017_FFF_FFF, // seasons_begin
    0xD2_1_000_FFF_FFF_FFF, // seasons_part
    0xD3_1_000_000_FFF_FFF, // seasons_end
    // A filter plan
    0xE0_2_000_FFF_FFF_FFF, // plan
    // Clocks
    0xF0_2_001_001_FFF_FFF, // clock
    0xF1_2_006_006_FFF_FFF, // clock_runs
    0x7F_2_00B_00B_FFF_FFF, // write_clock
    // Help
    0xB0_1_000_000_FFF_FFF, // help
];

// Their names, in the order of the rows, with a blank between two. (They stand apart from the rows since the help puts them as they stand here.)
const NAMES: [u8; 1062] =
    *b"request write_basic write_unicast write_colour_xy write_colour_tc write_colour_rgbwaf \
write_basic_quiet write_unicast_quiet write_colour_xy_quiet write_colour_tc_quiet \
write_colour_rgbwaf_quiet reply reply_data error_code write_reply event event_data \
write_event event_two event_two_data write_event_two relay_request relay_reply \
relay_event relay_event_two sum frame known shape fits inside table error_name \
event_type group_target lights status device device_number name high_first mask \
count_types lowest_type scenes gear count_gear lowest_gear types filters filter \
book_fresh book_set ask answer give_up book_show fresh_request hold_request feed_request \
close_request show_request settle_request item_request fresh_reply hold_reply \
feed_reply close_reply show_reply settle_reply item_reply quiet capture_set summary_set \
mark_set capture_empty capture_append capture_append_at capture_run capture_run_at \
capture_open capture_count capture_prefix capture_record capture_show seasons \
seasons_begin seasons_part seasons_end plan clock clock_runs write_clock help";

// The place of the first of some names that is this one, or how many there are. The names are parted by blanks. (A while: each turn goes on
// behind the name that it read.)
fn place(names: &[u8], name: &[u8]) -> usize
    ensures { result ≡ place_in name.now (words_at 0 names.now) }
{
    let mut i: usize = 0;
    let mut k: usize = 0;
    while i <= names.len() {
        let e = words::until(names, i, b' ');
        if &names[i..e] == name {
            return k;
        }
        i = e + 1;
        k += 1;
    }
    k
}

// The row of a name, or 0, which is no row: the definition of it says 0.
fn row_of(name: &[u8]) -> usize
    ensures { result ≡ row_of name.now }
{
    let k = place(&NAMES, name);
    if k < 94 { ROWS[k] } else { 0 }
}

// Whether the groups are those that the row asks for.
fn measured(row: usize, g: Groups) -> Result<Call, Fault>
    ensures { result ≡ measured_of row g }
{
    if row / 0x1_000_000_000_000 % 16 != g.count {
        return Err(Fault::WrongGroups);
    }
    if g.a < row / 0x1_000_000_000 % 0x1000 {
        return Err(Fault::WrongBytes);
    }
    if row / 0x1_000_000 % 0x1000 < g.a {
        return Err(Fault::WrongBytes);
    }
    if g.b < g.a {
        return Err(Fault::WrongBytes);
    }
    if row / 0x1000 % 0x1000 < g.b - g.a {
        return Err(Fault::WrongBytes);
    }
    if g.c < g.b {
        return Err(Fault::WrongBytes);
    }
    if row % 0x1000 < g.c - g.b {
        return Err(Fault::WrongBytes);
    }
    Ok(Call {
        number: row / 0x10_000_000_000_000,
        groups: g,
    })
}

// What a line with a word in it calls. The bytes of its groups are put to the front of the run that is lent.
pub fn read(line: &[u8], bytes: &mut [u8]) -> Result<Call, Fault>
    ensures { Calls line.now bytes.old result bytes.new }
{
    let a = bench_words::first(line);
    let e = words::until(line, a, b' ');
    let row = row_of(&line[a..e]);
    if row == 0 {
        return Err(Fault::NoSuchCall);
    }
    match bench_words::parse(line, e, bytes) {
        None => Err(Fault::NotAByte),
        Some(g) => measured(row, g),
    }
}

// What stands for a call that is none, by the places of the answers below (crate bench_say); nothing stands for a call.
fn kind_of(c: Result<Call, Fault>) -> usize
    ensures { result ≡ fault_kind c }
{
    match c {
        Err(Fault::NoSuchCall) => 0x01,
        Err(Fault::NotAByte) => 0x11,
        Err(Fault::WrongGroups) => 0x21,
        Err(Fault::WrongBytes) => 0x31,
        Ok(_) => 0,
    }
}

// The answer to a line that is no call; nothing is put for one that is.
pub fn refused(out: &mut [u8], at: usize, c: Result<Call, Fault>) -> usize
    ensures { PutsAll (refused_texts c) out.old at result out.new }
{
    bench_say::put(
        out,
        at,
        b"? no such call,? not a byte,? wrong number of groups,? wrong number of bytes",
        Pieces(kind_of(c), 0, 0, 0, 0, 0, 0),
    )
}

// The names of all calls.
pub fn help(out: &mut [u8], at: usize) -> usize
    ensures { PutsAll help_texts out.old at result out.new }
{
    let e = lent::word(out, at, b"0 calls ");
    lent::word(out, e, &NAMES)
}
