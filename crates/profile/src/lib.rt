// The quiet profile: which commands may be written where a client allows us to ask and never to switch. It leans on crate command for
// which commands are known. Document 02, W-203.
#![tactic(auto)]

ghost use Rattle.std.specs.Prelude.{◌≡◌};
ghost use Rattle.profile.specs.Profile.{is_barred, is_inside, allows};

// "a profile, chosen when a writer is called": none, or the quiet one.
#[derive(Clone, Copy, Debug, PartialEq, Eq)]
pub enum Profile {
    Open,
    Quiet,
}

// Whether a command is named as outside the profile: 08, 31, 33, 40, A0 to A9, and 0E, a colour request.
#[tactic(auto, unfolding(crate::specs::Profile::is_barred))]
fn barred(command: u8) -> bool
    ensures { result ≡ is_barred command }
{
    matches!(
        command,
        0x08 | 0x31 | 0x33 | command::UNICAST_COMMAND | 0xA0..=0xA9 | command::COLOUR_COMMAND
    )
}

// Whether a command is inside the quiet profile: 18 of the 33 are. 0A is, also where it is retired; a number that is unknown is not.
#[tactic(auto, unfolding(crate::specs::Profile::is_inside))]
pub fn inside(command: u8) -> bool
    ensures { result ≡ is_inside command }
{
    command::known(command) && !barred(command)
}

// Whether a profile lets a command be written.
pub fn allows(profile: Profile, command: u8) -> bool
    ensures { result ≡ allows profile command }
{
    match profile {
        Profile::Open => true,
        Profile::Quiet => inside(command),
    }
}
