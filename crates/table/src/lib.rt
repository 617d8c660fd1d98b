// The command rules as one table, to hold beside the maker's list: for each command number the shape of its frame and the rule of its
// arguments, by their numbers. Document 02, W-209. The names are those of source 002, "Commands", also of commands that are not spoken here.
// Crate command has the decision of shape and rule by which all else goes; every entry agrees with it.
#![tactic(auto)]

ghost use Rattle.std.specs.Prelude.{◌≡◌};
ghost use Rattle.command.specs.Command.{numbers_in};
ghost use Rattle.table.specs.Table.{numbers_at, numbers_by};

// What the table has of a command. Shape: 0 unknown, 1 basic, 2 the frame of request 40, 3 colour. Rule: 0 none, 1 to 15 in the order of
// document 01's table, 16 for request 40, 17 for a colour request.
#[derive(Clone, Copy, Debug, PartialEq, Eq)]
pub struct Entry {
    pub shape: u8,
    pub rule: u8,
}

// Shape and rule of each command as the digits of one number: 1_13 is shape 1 and rule 13. Beside it the command, and the maker's name where
// it has one.
// Not an array of pairs: that was tried, and the check of a constant of 256 pairs did not end in ten minutes.
const TABLE: [u16; 256] = [
    0_00, // 00
    1_01, // 01 QUERY_GROUP_LABEL
    0_00, // 02 QUERY_SCENE_LABEL
    0_00, // 03 QUERY_DALI_DEVICE_LABEL
    0_00, // 04 QUERY_PROFILE_LABEL
    0_00, // 05 QUERY_CURRENT_PROFILE_NUMBER
    0_00, // 06 TRIGGER_SDDP_IDENTIFY
    0_00, // 07 QUERY_TPI_EVENT_EMIT_STATE
    1_02, // 08 ENABLE_TPI_EVENT_EMIT
    1_03, // 09 QUERY_GROUP_NUMBERS
    1_03, // 0A QUERY_SCENE_NUMBERS
    1_03, // 0B QUERY_PROFILE_NUMBERS
    1_04, // 0C QUERY_OCCUPANCY_INSTANCE_TIMERS
    0_00, // 0D QUERY_INSTANCES_BY_ADDRESS
    3_17, // 0E DALI_COLOUR
    0_00, // 0F
    0_00, // 10 DMX_COLOUR
    0_00, // 11
    0_00, // 12 QUERY_GROUP_BY_NUMBER
    0_00, // 13 QUERY_SCENE_BY_NUMBER
    0_00, // 14 QUERY_SCENE_NUMBERS_BY_ADDRESS
    0_00, // 15 QUERY_GROUP_MEMBERSHIP_BY_ADDRESS
    0_00, // 16 QUERY_DALI_ADDRESSES_WITH_INSTANCES
    0_00, // 17 QUERY_DMX_DEVICE_NUMBERS
    0_00, // 18 QUERY_DMX_DEVICE_BY_NUMBER
    0_00, // 19 QUERY_DMX_LEVEL_BY_CHANNEL
    1_01, // 1A QUERY_SCENE_NUMBERS_FOR_GROUP
    1_05, // 1B QUERY_SCENE_LABEL_FOR_GROUP
    1_03, // 1C QUERY_CONTROLLER_VERSION_NUMBER
    1_03, // 1D QUERY_CONTROL_GEAR_DALI_ADDRESSES
    0_00, // 1E QUERY_SCENE_LEVELS_BY_ADDRESS
    0_00, // 1F
    1_06, // 20 QUERY_DMX_DEVICE_LABEL_BY_NUMBER
    0_00, // 21 QUERY_INSTANCE_GROUPS
    0_00, // 22 QUERY_DALI_FITTING_NUMBER
    0_00, // 23 QUERY_DALI_INSTANCE_FITTING_NUMBER
    0_00, // 24 QUERY_CONTROLLER_LABEL
    0_00, // 25 QUERY_CONTROLLER_FITTING_NUMBER
    0_00, // 26 QUERY_IS_DALI_READY
    0_00, // 27 QUERY_CONTROLLER_STARTUP_COMPLETE
    0_00, // 28 QUERY_OPERATING_MODE_BY_ADDRESS
    0_00, // 29 OVERRIDE_DALI_BUTTON_LED_STATE
    0_00, // 2A
    0_00, // 2B
    0_00, // 2C
    0_00, // 2D
    0_00, // 2E
    0_00, // 2F
    0_00, // 30 QUERY_LAST_KNOWN_DALI_BUTTON_LED_STATE
    1_07, // 31 DALI_ADD_TPI_EVENT_FILTER
    1_08, // 32 QUERY_DALI_TPI_EVENT_FILTERS
    1_07, // 33 DALI_CLEAR_TPI_EVENT_FILTERS
    1_09, // 34 QUERY_DALI_COLOUR
    0_00, // 35 QUERY_DALI_COLOUR_FEATURES
    0_00, // 36 SET_SYSTEM_VARIABLE
    0_00, // 37 QUERY_SYSTEM_VARIABLE
    0_00, // 38 QUERY_DALI_COLOUR_TEMP_LIMITS
    0_00, // 39
    0_00, // 3A
    0_00, // 3B
    0_00, // 3C
    0_00, // 3D
    0_00, // 3E
    0_00, // 3F
    2_16, // 40 SET_TPI_EVENT_UNICAST_ADDRESS
    1_03, // 41 QUERY_TPI_EVENT_UNICAST_ADDRESS
    0_00, // 42
    0_00, // 43
    0_00, // 44
    0_00, // 45
    0_00, // 46
    0_00, // 47
    0_00, // 48
    0_00, // 49
    0_00, // 4A
    0_00, // 4B
    0_00, // 4C
    0_00, // 4D
    0_00, // 4E
    0_00, // 4F
    0_00, // 50
    0_00, // 51
    0_00, // 52
    0_00, // 53
    0_00, // 54
    0_00, // 55
    0_00, // 56
    0_00, // 57
    0_00, // 58
    0_00, // 59
    0_00, // 5A
    0_00, // 5B
    0_00, // 5C
    0_00, // 5D
    0_00, // 5E
    0_00, // 5F
    0_00, // 60
    0_00, // 61
    0_00, // 62
    0_00, // 63
    0_00, // 64
    0_00, // 65
    0_00, // 66
    0_00, // 67
    0_00, // 68
    0_00, // 69
    0_00, // 6A
    0_00, // 6B
    0_00, // 6C
    0_00, // 6D
    0_00, // 6E
    0_00, // 6F
    0_00, // 70
    0_00, // 71
    0_00, // 72
    0_00, // 73
    0_00, // 74
    0_00, // 75
    0_00, // 76
    0_00, // 77
    0_00, // 78
    0_00, // 79
    0_00, // 7A
    0_00, // 7B
    0_00, // 7C
    0_00, // 7D
    0_00, // 7E
    0_00, // 7F
    0_00, // 80
    0_00, // 81
    0_00, // 82
    0_00, // 83
    0_00, // 84
    0_00, // 85
    0_00, // 86
    0_00, // 87
    0_00, // 88
    0_00, // 89
    0_00, // 8A
    0_00, // 8B
    0_00, // 8C
    0_00, // 8D
    0_00, // 8E
    0_00, // 8F
    0_00, // 90
    0_00, // 91
    0_00, // 92
    0_00, // 93
    0_00, // 94
    0_00, // 95
    0_00, // 96
    0_00, // 97
    0_00, // 98
    0_00, // 99
    0_00, // 9A
    0_00, // 9B
    0_00, // 9C
    0_00, // 9D
    0_00, // 9E
    0_00, // 9F
    1_10, // A0 DALI_INHIBIT
    1_11, // A1 DALI_SCENE
    1_12, // A2 DALI_ARC_LEVEL
    1_13, // A3 DALI_ON_STEP_UP
    1_13, // A4 DALI_STEP_DOWN_OFF
    1_13, // A5 DALI_UP
    1_13, // A6 DALI_DOWN
    1_13, // A7 DALI_RECALL_MAX
    1_13, // A8 DALI_RECALL_MIN
    1_13, // A9 DALI_OFF
    1_14, // AA DALI_QUERY_LEVEL
    1_15, // AB DALI_QUERY_CONTROL_GEAR_STATUS
    1_09, // AC DALI_QUERY_CG_TYPE
    1_14, // AD DALI_QUERY_LAST_SCENE
    1_14, // AE DALI_QUERY_LAST_SCENE_IS_CURRENT
    0_00, // AF DALI_QUERY_MIN_LEVEL
    0_00, // B0 DALI_QUERY_MAX_LEVEL
    0_00, // B1 DALI_QUERY_FADE_RUNNING
    0_00, // B2 DALI_ENABLE_DAPC_SEQ
    0_00, // B3 VIRTUAL_INSTANCE
    0_00, // B4 DALI_CUSTOM_FADE
    0_00, // B5 DALI_GO_TO_LAST_ACTIVE_LEVEL
    0_00, // B6 QUERY_VIRTUAL_INSTANCES
    0_00, // B7 QUERY_DALI_INSTANCE_LABEL
    0_00, // B8 QUERY_DALI_EAN
    0_00, // B9 QUERY_DALI_SERIAL
    0_00, // BA
    0_00, // BB
    0_00, // BC
    0_00, // BD
    0_00, // BE
    0_00, // BF
    0_00, // C0 CHANGE_PROFILE_NUMBER
    0_00, // C1 DALI_STOP_FADE
    0_00, // C2
    0_00, // C3
    0_00, // C4
    0_00, // C5
    0_00, // C6
    0_00, // C7
    0_00, // C8
    0_00, // C9
    0_00, // CA
    0_00, // CB
    0_00, // CC
    0_00, // CD
    0_00, // CE
    0_00, // CF
    0_00, // D0
    0_00, // D1
    0_00, // D2
    0_00, // D3
    0_00, // D4
    0_00, // D5
    0_00, // D6
    0_00, // D7
    0_00, // D8
    0_00, // D9
    0_00, // DA
    0_00, // DB
    0_00, // DC
    0_00, // DD
    0_00, // DE
    0_00, // DF
    0_00, // E0
    0_00, // E1
    0_00, // E2
    0_00, // E3
    0_00, // E4
    0_00, // E5
    0_00, // E6
    0_00, // E7
    0_00, // E8
    0_00, // E9
    0_00, // EA
    0_00, // EB
    0_00, // EC
    0_00, // ED
    0_00, // EE
    0_00, // EF
    0_00, // F0
    0_00, // F1
    0_00, // F2
    0_00, // F3
    0_00, // F4
    0_00, // F5
    0_00, // F6
    0_00, // F7
    0_00, // F8
    0_00, // F9
    0_00, // FA
    0_00, // FB
    0_00, // FC
    0_00, // FD
    0_00, // FE
    0_00, // FF
];

// The number that the table has at a command.
fn cell(command: u8) -> u16
    ensures { numbers_by result ≡ numbers_in command }
{
    TABLE[command as usize]
}

// The entry of a command number.
pub fn entry_of(command: u8) -> Entry
    ensures { numbers_at result ≡ numbers_in command }
{
    let x = cell(command);
    Entry {
        shape: (x / 100) as u8,
        rule: (x % 100) as u8,
    }
}
