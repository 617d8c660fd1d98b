// The error codes that have names, from a fixed table. Document 01: "Error codes 01–04 and B0–B8 have names from a fixed
// table"; source 002, "Error Codes", has the names.
#![tactic(auto)]

ghost use Rattle.std.specs.Prelude.{◌≡◌};
ghost use Rattle.error.specs.Error.{name_of};

// The thirteen codes, in the order of source 002, and beside each the number of its name.
const TABLE: [(u8, u8); 13] = [
    (0x01, 1), // CHECKSUM
    (0x02, 2), // SHORT_CIRCUIT
    (0x03, 3), // RECEIVE_ERROR
    (0x04, 4), // UNKNOWN_CMD
    (0xB0, 5), // PAID_FEATURE
    (0xB1, 6), // INVALID_ARGS
    (0xB2, 7), // CMD_REFUSED
    (0xB3, 8), // QUEUE_FAILURE
    (0xB4, 9), // RESPONSE_UNAVAIL
    (0xB5, 10), // OTHER_DALI_ERROR
    (0xB6, 11), // MAX_LIMIT
    (0xB7, 12), // UNEXPECTED_RESULT
    (0xB8, 13), // UNKNOWN_TARGET
];

// The name of a code by the table.
pub fn name_of(code: u8) -> Option<u8>
    ensures { result ≡ name_of code }
{
    for (c, name) in TABLE {
        if c == code {
            return Some(name);
        }
    }
    None
}
