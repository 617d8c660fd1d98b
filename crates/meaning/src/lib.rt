// What the four arguments of a basic request mean, and typed ways into them: a group number handed over where a line target is
// wanted does not compile. It leans on crates target and command for targets and rules, and on crate order for numbers of two bytes.
// Document 01, "Requests and their argument ranges".
#![tactic(auto)]

ghost use Rattle.std.specs.Prelude.{◌≡◌};
ghost use Rattle.meaning.specs.Meaning.{meaning_of, said_meaning};
ghost use Rattle.meaning.specs.Ways.{group_bytes, timers_bytes, group_scene_bytes, inhibit_bytes, last_bytes, target_bytes};

use command::Rule;
use target::{Device, Group, LineTarget, Target};

// The four argument bytes of a basic request, as they stand in it.
#[derive(Clone, Copy, Debug, Default, PartialEq, Eq)]
pub struct Arguments {
    pub a: u8,
    pub b: u8,
    pub c: u8,
    pub d: u8,
}

// What the arguments of a basic request mean, as far as its command has them.
#[derive(Clone, Copy, Debug, PartialEq, Eq)]
pub enum Meaning {
    Nothing,
    Group(Group),
    Emit(u8),
    Timers {
        device: Device,
        instance: u8,
    },
    GroupScene {
        group: Group,
        scene: u8,
    },
    Channel {
        universe: u8,
        channel: u16,
    },
    Filter {
        address: u8,
        instance: u8,
        mask: u16,
    },
    Query {
        address: u8,
        start: u8,
        instance: u8,
    },
    Gear(u8),
    Inhibit {
        target: Target,
        seconds: u16,
    },
    Scene {
        target: Target,
        scene: u8,
    },
    Level {
        target: Target,
        level: u8,
    },
    // What is lit.
    Lit(Target),
    // What is asked about.
    Target(Target),
}

// What four arguments mean under a rule.
#[tactic(auto, unfolding(crate::specs::Meaning::meaning_of))]
pub fn meaning_of(rule: Rule, a: u8, b: u8, c: u8, d: u8) -> Meaning
    ensures { said_meaning result ≡ meaning_of rule a b c d }
{
    match rule {
        Rule::Group => Meaning::Group(Group(a)),
        Rule::Emit => Meaning::Emit(a),
        Rule::Bare => Meaning::Nothing,
        Rule::Timers => Meaning::Timers {
            device: Device(a),
            instance: d,
        },
        Rule::GroupScene => Meaning::GroupScene {
            group: Group(a),
            scene: b,
        },
        Rule::Channel => Meaning::Channel {
            universe: b,
            channel: order::high_first(c, d),
        },
        Rule::Filter => Meaning::Filter {
            address: a,
            instance: b,
            mask: order::high_first(c, d),
        },
        Rule::Query => Meaning::Query {
            address: a,
            start: b,
            instance: d,
        },
        Rule::Gear => Meaning::Gear(a),
        Rule::Inhibit => Meaning::Inhibit {
            target: LineTarget(a).lights(),
            seconds: order::high_first(c, d),
        },
        Rule::Scene => Meaning::Scene {
            target: LineTarget(a).lights(),
            scene: d,
        },
        Rule::Level => Meaning::Level {
            target: LineTarget(a).lights(),
            level: d,
        },
        Rule::Lights => Meaning::Lit(LineTarget(a).lights()),
        Rule::Address => Meaning::Target(LineTarget(a).lights()),
        Rule::Status => Meaning::Target(LineTarget(a).status()),
    }
}

// The arguments of a line target and a last byte.
fn aimed(target: LineTarget, last: u8) -> Arguments
    ensures { result ≡ last_bytes target last }
{
    Arguments {
        a: target.0,
        d: last,
        ..Arguments::default()
    }
}

// The arguments that say what they are given, one way for each rule with a place for a group, a device or a line target. They judge
// nothing: the writer of requests does.
impl Arguments {
    // 01 and 1A.
    pub fn group(group: Group) -> Arguments
        ensures { result ≡ group_bytes group }
    {
        Arguments {
            a: group.0,
            ..Arguments::default()
        }
    }

    // 1B.
    pub fn group_scene(group: Group, scene: u8) -> Arguments
        ensures { result ≡ group_scene_bytes group scene }
    {
        Arguments {
            a: group.0,
            b: scene,
            ..Arguments::default()
        }
    }

    // 0C.
    pub fn timers(device: Device, instance: u8) -> Arguments
        ensures { result ≡ timers_bytes device instance }
    {
        Arguments {
            a: device.0,
            d: instance,
            ..Arguments::default()
        }
    }

    // A0.
    pub fn inhibit(target: LineTarget, seconds: u16) -> Arguments
        ensures { result ≡ inhibit_bytes target seconds }
    {
        let [c, d] = seconds.to_be_bytes();
        Arguments {
            a: target.0,
            b: 0,
            c,
            d,
        }
    }

    // A1.
    pub fn scene(target: LineTarget, scene: u8) -> Arguments
        ensures { result ≡ last_bytes target scene }
    {
        aimed(target, scene)
    }

    // A2.
    pub fn level(target: LineTarget, level: u8) -> Arguments
        ensures { result ≡ last_bytes target level }
    {
        aimed(target, level)
    }

    // A3 to A9.
    pub fn lights(target: LineTarget) -> Arguments
        ensures { result ≡ target_bytes target }
    {
        aimed(target, 0)
    }

    // AA, AB, AD and AE.
    pub fn target(target: LineTarget) -> Arguments
        ensures { result ≡ target_bytes target }
    {
        aimed(target, 0)
    }
}
