// Names of numbers as text, for programs that print them: of refusals, commands, types of replies, error codes and types of events. It
// leans on crate words, which finds a name by its place, on crate lent for what is put from a place on, and on crate frame for what a
// writer promises.
#![tactic(auto)]

ghost use Rattle.std.specs.Prelude.{◌≡◌, ◌+◌, ◌*◌, ◌<◌, unwrap_or, IfSome};
ghost use Rattle.lent.specs.Puts.{Puts};
ghost use Rattle.frame.specs.Written.{Written};
ghost use Rattle.words.specs.Words.{word_in};
ghost use Rattle.names.specs.Names.{name_of, name_text};
ghost use Rattle.names.specs.Places.{place_in, keys, names};

use refusal::Refusal;

// The kinds of numbers that have names.
pub const REFUSAL: u8 = 0;

pub const COMMAND: u8 = 1;

pub const REPLY: u8 = 2;

pub const ERROR: u8 = 3;

pub const EVENT: u8 = 4;

// A row for each name: its kind and its number, as digits of one hexadecimal number.
const KEYS: [u16; 83] = [
    // Refusals
    0x0_00, // OK
    0x0_01, // TOO_SHORT
    0x0_02, // BAD_LEAD
    0x0_03, // UNKNOWN_COMMAND
    0x0_04, // BAD_LENGTH_BYTE
    0x0_05, // BAD_LENGTH
    0x0_06, // BAD_SUM
    0x0_07, // BAD_ARGUMENT
    0x0_08, // NO_ROOM
    0x0_09, // NO_NUMBER_FREE
    0x0_0A, // NOT_AWAITED
    0x0_0B, // BAD_DATA_SIZE
    0x0_0C, // NONE_THERE
    0x0_0D, // OUTSIDE_PROFILE
    0x0_0E, // UNKNOWN_VERSION
    0x0_0F, // BAD_RECORD
    0x0_10, // EARLIER_TIME
    0x0_11, // RETIRED
    0x0_12, // NOT_A_FILTER
    0x0_13, // FILTERS_FULL
    0x0_14, // NOT_RISING
    0x0_15, // NOT_A_CLOCK
    0x0_16, // OUT_OF_RANGE
    // Commands
    0x1_01, // QUERY_GROUP_LABEL
    0x1_08, // ENABLE_TPI_EVENT_EMIT
    0x1_09, // QUERY_GROUP_NUMBERS
    0x1_0A, // QUERY_SCENE_NUMBERS
    0x1_0B, // QUERY_PROFILE_NUMBERS
    0x1_0C, // QUERY_OCCUPANCY_INSTANCE_TIMERS
    0x1_0E, // DALI_COLOUR
    0x1_1A, // QUERY_SCENE_NUMBERS_FOR_GROUP
    0x1_1B, // QUERY_SCENE_LABEL_FOR_GROUP
    0x1_1C, // QUERY_CONTROLLER_VERSION_NUMBER
    0x1_1D, // QUERY_CONTROL_GEAR_DALI_ADDRESSES
    0x1_20, // QUERY_DMX_DEVICE_LABEL_BY_NUMBER
    0x1_31, // DALI_ADD_TPI_EVENT_FILTER
    0x1_32, // QUERY_DALI_TPI_EVENT_FILTERS
    0x1_33, // DALI_CLEAR_TPI_EVENT_FILTERS
    0x1_34, // QUERY_DALI_COLOUR
    0x1_40, // SET_TPI_EVENT_UNICAST_ADDRESS
    0x1_41, // QUERY_TPI_EVENT_UNICAST_ADDRESS
    0x1_A0, // DALI_INHIBIT
    0x1_A1, // DALI_SCENE
    0x1_A2, // DALI_ARC_LEVEL
    0x1_A3, // DALI_ON_STEP_UP
    0x1_A4, // DALI_STEP_DOWN_OFF
    0x1_A5, // DALI_UP
    0x1_A6, // DALI_DOWN
    0x1_A7, // DALI_RECALL_MAX
    0x1_A8, // DALI_RECALL_MIN
    0x1_A9, // DALI_OFF
    0x1_AA, // DALI_QUERY_LEVEL
    0x1_AB, // DALI_QUERY_CONTROL_GEAR_STATUS
    0x1_AC, // DALI_QUERY_CG_TYPE
    0x1_AD, // DALI_QUERY_LAST_SCENE
    0x1_AE, // DALI_QUERY_LAST_SCENE_IS_CURRENT
    // Types of replies
    0x2_A0, // OK
    0x2_A1, // ANSWER
    0x2_A2, // NO_ANSWER
    0x2_A3, // ERROR
    // Error codes
    0x3_01, // CHECKSUM
    0x3_02, // SHORT_CIRCUIT
    0x3_03, // RECEIVE_ERROR
    0x3_04, // UNKNOWN_CMD
    0x3_B0, // PAID_FEATURE
    0x3_B1, // INVALID_ARGS
    0x3_B2, // CMD_REFUSED
    0x3_B3, // QUEUE_FAILURE
    0x3_B4, // RESPONSE_UNAVAIL
    0x3_B5, // OTHER_DALI_ERROR
    0x3_B6, // MAX_LIMIT
    0x3_B7, // UNEXPECTED_RESULT
    0x3_B8, // UNKNOWN_TARGET
    // Types of events
    0x4_00, // BUTTON_PRESS
    0x4_01, // BUTTON_HOLD
    0x4_02, // ABSOLUTE_INPUT
    0x4_03, // LEVEL_CHANGE
    0x4_04, // GROUP_LEVEL_CHANGE
    0x4_05, // SCENE_CHANGE
    0x4_06, // IS_OCCUPIED
    0x4_07, // IS_UNOCCUPIED
    0x4_08, // COLOUR_CHANGED
    0x4_09, // PROFILE_CHANGED
];

// The place of the row of a kind and a number.
fn place(kind: u8, number: u8) -> Option<usize>
    ensures told { unwrap_or result 83 ≡ place_in (kind * 256 + number) keys }
    ensures within { IfSome result (λ k. k < 83) }
{
    let key = u16::from_be_bytes([kind, number]);
    KEYS.iter().position(|k| *k == key)
}

// Puts the name of a row; where there are fewer rows, nothing. The names stand in the order of the rows, a blank behind each.
fn of_row(out: &mut [u8], at: usize, k: usize) -> usize
    ensures { Puts (word_in 32 k names) out.old at result out.new }
{
    words::put(
        out,
        at,
        b"OK TOO_SHORT BAD_LEAD UNKNOWN_COMMAND BAD_LENGTH_BYTE BAD_LENGTH BAD_SUM BAD_ARGUMENT NO_ROOM \
NO_NUMBER_FREE NOT_AWAITED BAD_DATA_SIZE NONE_THERE OUTSIDE_PROFILE UNKNOWN_VERSION BAD_RECORD \
EARLIER_TIME RETIRED NOT_A_FILTER FILTERS_FULL NOT_RISING NOT_A_CLOCK OUT_OF_RANGE QUERY_GROUP_LABEL \
ENABLE_TPI_EVENT_EMIT QUERY_GROUP_NUMBERS QUERY_SCENE_NUMBERS QUERY_PROFILE_NUMBERS QUERY_OCCUPANCY_INSTANCE_TIMERS DALI_COLOUR QUERY_SCENE_NUMBERS_FOR_GROUP \
QUERY_SCENE_LABEL_FOR_GROUP QUERY_CONTROLLER_VERSION_NUMBER QUERY_CONTROL_GEAR_DALI_ADDRESSES \
QUERY_DMX_DEVICE_LABEL_BY_NUMBER DALI_ADD_TPI_EVENT_FILTER QUERY_DALI_TPI_EVENT_FILTERS \
DALI_CLEAR_TPI_EVENT_FILTERS QUERY_DALI_COLOUR SET_TPI_EVENT_UNICAST_ADDRESS \
QUERY_TPI_EVENT_UNICAST_ADDRESS DALI_INHIBIT DALI_SCENE DALI_ARC_LEVEL DALI_ON_STEP_UP \
DALI_STEP_DOWN_OFF DALI_UP DALI_DOWN DALI_RECALL_MAX DALI_RECALL_MIN DALI_OFF DALI_QUERY_LEVEL \
DALI_QUERY_CONTROL_GEAR_STATUS DALI_QUERY_CG_TYPE DALI_QUERY_LAST_SCENE \
DALI_QUERY_LAST_SCENE_IS_CURRENT OK ANSWER NO_ANSWER ERROR CHECKSUM SHORT_CIRCUIT RECEIVE_ERROR \
UNKNOWN_CMD PAID_FEATURE INVALID_ARGS CMD_REFUSED QUEUE_FAILURE RESPONSE_UNAVAIL \
OTHER_DALI_ERROR MAX_LIMIT UNEXPECTED_RESULT UNKNOWN_TARGET BUTTON_PRESS BUTTON_HOLD \
ABSOLUTE_INPUT LEVEL_CHANGE GROUP_LEVEL_CHANGE SCENE_CHANGE IS_OCCUPIED IS_UNOCCUPIED \
COLOUR_CHANGED PROFILE_CHANGED ",
        b' ',
        k,
    )
}

// Puts the name of a number of a kind from a place on; where it has none, nothing.
pub fn put(out: &mut [u8], at: usize, kind: u8, number: u8) -> usize
    ensures { Puts (name_text kind number) out.old at result out.new }
{
    match place(kind, number) {
        Some(k) => of_row(out, at, k),
        None => at,
    }
}

// Puts the name of a number of a kind: 7 where it has none, 8 where the buffer is shorter than the name.
pub fn name(kind: u8, number: u8, out: &mut [u8]) -> Result<usize, Refusal>
    ensures { Written (name_of kind number) out.old result out.new }
{
    let Some(k) = place(kind, number) else {
        return Err(Refusal::BadArgument);
    };
    let n = of_row(out, 0, k);
    if n == 0 {
        return Err(Refusal::NoRoom);
    }
    Ok(n)
}
