// The ranges of a basic request's arguments, one rule for each kind of request. It leans on crate command for the rules, and on crate
// target for gear, groups and devices. Document 01, "Requests and their argument ranges", and document 02, W-201.
#![tactic(auto)]

ghost use Rattle.std.specs.Prelude.{◌≡◌};
ghost use Rattle.ranges.specs.Arguments.{fits as fits_of};

use command::Rule;
use target::{BASE, LAST_DEVICE, LAST_GEAR, LAST_GROUP, LAST_TARGET, STATUS_BROADCAST};

// W-201: "A1 takes D 0–15; 1B keeps 0–12"
const LAST_DALI_SCENE: u8 = 15;

const LAST_LABELLED_SCENE: u8 = 12;

// "instance 0–31", "B start 0–63"
const LAST_INSTANCE: u8 = 31;

const LAST_START: u8 = 63;

// "A has no bits outside C3"
const EMIT: u8 = 0xC3;

// "B = 255", "D is 255", "A .. or 255": no instance, or no address, is meant.
const ANY: u8 = 255;

// Whether four arguments are within the ranges of a rule.
pub fn fits(rule: Rule, a: u8, b: u8, c: u8, d: u8) -> bool
    ensures { result ≡ fits_of rule a b c d }
{
    let device = (BASE <= a) & (a <= LAST_DEVICE);
    let lighting = target::is_lighting(a);
    // "Every argument place not named is 0."
    let rest = (b == 0) & (c == 0) & (d == 0);
    match rule {
        Rule::Group => (a <= LAST_GROUP) & rest,
        Rule::Emit => ((a | EMIT) == EMIT) & rest,
        Rule::Bare => (a == 0) & rest,
        Rule::Timers => device & (b == 0) & (c == 0) & (d <= LAST_INSTANCE),
        Rule::GroupScene => (a <= LAST_GROUP) & (b <= LAST_LABELLED_SCENE) & (c == 0) & (d == 0),
        Rule::Channel => a == 0,
        Rule::Filter => ((a <= LAST_GEAR) & (b == ANY)) | (device & (b <= LAST_INSTANCE)),
        Rule::Query => (b <= LAST_START)
            & (c == 0)
            & ((((a <= LAST_GEAR) | (a == ANY)) & (d == ANY))
                | (device & ((d <= LAST_INSTANCE) | (d == ANY)))),
        Rule::Gear => (a <= LAST_GEAR) & rest,
        Rule::Inhibit => lighting & (b == 0),
        Rule::Scene => lighting & (b == 0) & (c == 0) & (d <= LAST_DALI_SCENE),
        Rule::Level => lighting & (b == 0) & (c == 0),
        Rule::Lights => lighting & rest,
        Rule::Address => (a <= LAST_TARGET) & rest,
        Rule::Status => ((a <= LAST_TARGET) | (a == STATUS_BROADCAST)) & rest,
    }
}
