// What a call answers: `Ok` with the whole of what it found, or `Err` with a refusal. Documents 01 and 02, "Refusals, by number". Every
// contract above is stated in the words of this crate's specs/.
#![tactic(auto)]

ghost use Rattle.std.specs.Prelude.{◌≡◌, true};
ghost use Rattle.refusal.specs.Listed.{is_unlisted};

// A number that documents 01 and 02 give no refusal.
#[derive(Clone, Copy, Debug, PartialEq, Eq)]
pub struct Unlisted {
    number: u8,
    ghost unlisted: { is_unlisted number ≡ true },
}

// A refusal: those of documents 01 and 02, in the order of their numbers. Each number is that of one refusal and no other, so that what comes
// back from a caller as a number is taken as it was given.
#[derive(Clone, Copy, Debug, PartialEq, Eq)]
pub enum Refusal {
    // 1: a datagram is shorter than the least of its family
    TooShort,
    // 2: the lead is not that of the family
    BadLead,
    // 3
    UnknownCommand,
    // 4: the length byte, or the number of data bytes, is out of range
    BadLengthByte,
    // 5: a datagram is not as long as its frame states
    BadLength,
    // 6: the exclusive-or is not 0
    BadSum,
    // 7: an argument is outside the table
    BadArgument,
    // 8: what is to be written does not fit
    NoRoom,
    // 9: all 256 sequence numbers are unanswered
    NoNumberFree,
    // 10: a reply's sequence number is not awaited
    NotAwaited,
    // 11: reply data has not the size that it should have
    BadDataSize,
    // 12: the lowest of none, or an entry that there is not
    NoneThere,
    // 13: the profile excludes the command
    OutsideProfile,
    // 14: no version of a capture
    UnknownVersion,
    // 15: a record of a capture is bad or cut short
    BadRecord,
    // 16: a time below that of the record before it
    EarlierTime,
    // 17: a command that is no longer asked
    Retired,
    // 18: a request of a plan that sets no filter
    NotAFilter,
    // 19: a controller holds no more filters
    FiltersFull,
    // 20: boundaries that do not rise
    NotRising,
    // 21: a text that is no clock
    NotAClock,
    // 22: a field of a clock is out of range
    OutOfRange,
    // Any other number, which no call of this codec gives by itself.
    Other(Unlisted),
}

impl Refusal {
    ghost use Rattle.refusal.specs.Refusals.{number_of};

    // "A refusal returns its number only".
    pub fn number(self) -> u8
        ensures { result ≡ number_of self }
    {
        match self {
            Refusal::TooShort => 1,
            Refusal::BadLead => 2,
            Refusal::UnknownCommand => 3,
            Refusal::BadLengthByte => 4,
            Refusal::BadLength => 5,
            Refusal::BadSum => 6,
            Refusal::BadArgument => 7,
            Refusal::NoRoom => 8,
            Refusal::NoNumberFree => 9,
            Refusal::NotAwaited => 10,
            Refusal::BadDataSize => 11,
            Refusal::NoneThere => 12,
            Refusal::OutsideProfile => 13,
            Refusal::UnknownVersion => 14,
            Refusal::BadRecord => 15,
            Refusal::EarlierTime => 16,
            Refusal::Retired => 17,
            Refusal::NotAFilter => 18,
            Refusal::FiltersFull => 19,
            Refusal::NotRising => 20,
            Refusal::NotAClock => 21,
            Refusal::OutOfRange => 22,
            Refusal::Other(u) => u.number,
        }
    }
}

impl From<u8> for Refusal {
    ghost use Rattle.refusal.specs.Refusals.{number_of};

    ghost from_gives = { λ k r. number_of r ≡ k };

    fn from(number: u8) -> Refusal {
        match number {
            1 => Refusal::TooShort,
            2 => Refusal::BadLead,
            3 => Refusal::UnknownCommand,
            4 => Refusal::BadLengthByte,
            5 => Refusal::BadLength,
            6 => Refusal::BadSum,
            7 => Refusal::BadArgument,
            8 => Refusal::NoRoom,
            9 => Refusal::NoNumberFree,
            10 => Refusal::NotAwaited,
            11 => Refusal::BadDataSize,
            12 => Refusal::NoneThere,
            13 => Refusal::OutsideProfile,
            14 => Refusal::UnknownVersion,
            15 => Refusal::BadRecord,
            16 => Refusal::EarlierTime,
            17 => Refusal::Retired,
            18 => Refusal::NotAFilter,
            19 => Refusal::FiltersFull,
            20 => Refusal::NotRising,
            21 => Refusal::NotAClock,
            22 => Refusal::OutOfRange,
            _ => Refusal::Other(Unlisted { number }),
        }
    }
}
