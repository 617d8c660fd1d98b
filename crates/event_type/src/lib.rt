// An event's type and the instance number that its data may begin with. Document 01, "Frames"; source 002, "TPI Event Types".
#![tactic(auto)]

ghost use Rattle.std.specs.Prelude.{◌≡◌};
ghost use Rattle.event_type.specs.Types.{said_type, kind_of, type_number, carries, instance_of};

// An event's type: types 0 to 9 by source 002's names, in its order; another keeps its number.
#[derive(Clone, Copy, Debug, PartialEq, Eq)]
pub enum EventType {
    ButtonPress,
    ButtonHold,
    AbsoluteInput,
    LevelChange,
    GroupLevelChange,
    SceneChange,
    IsOccupied,
    IsUnoccupied,
    ColourChanged,
    ProfileChanged,
    Other(u8),
}

// The type that a number stands for.
impl From<u8> for EventType {
    ghost from_gives = { λ n t. said_type t ≡ kind_of n };

    fn from(number: u8) -> EventType {
        match number {
            0 => EventType::ButtonPress,
            1 => EventType::ButtonHold,
            2 => EventType::AbsoluteInput,
            3 => EventType::LevelChange,
            4 => EventType::GroupLevelChange,
            5 => EventType::SceneChange,
            6 => EventType::IsOccupied,
            7 => EventType::IsUnoccupied,
            8 => EventType::ColourChanged,
            9 => EventType::ProfileChanged,
            _ => EventType::Other(number),
        }
    }
}

impl EventType {
    // The number of a type.
    pub fn number(self) -> u8
        ensures { result ≡ type_number self }
    {
        match self {
            EventType::ButtonPress => 0,
            EventType::ButtonHold => 1,
            EventType::AbsoluteInput => 2,
            EventType::LevelChange => 3,
            EventType::GroupLevelChange => 4,
            EventType::SceneChange => 5,
            EventType::IsOccupied => 6,
            EventType::IsUnoccupied => 7,
            EventType::ColourChanged => 8,
            EventType::ProfileChanged => 9,
            EventType::Other(n) => n,
        }
    }
}

// Whether a type carries an instance number: types 0, 1, 2, 6 and 7 do.
pub fn has_instance(kind: u8) -> bool
    ensures { result ≡ carries kind }
{
    (kind <= 2) | (kind == 6) | (kind == 7)
}

// The instance of an event of this type, whose first data byte this would be, where the type carries one.
pub fn instance_of(kind: u8, first: u8) -> Option<u8>
    ensures { result ≡ instance_of kind first }
{
    if has_instance(kind) {
        Some(first)
    } else {
        None
    }
}
