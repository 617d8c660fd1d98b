// Ticks: a clock of 32 bits that runs round past its end, and how long ago something was by it. Document 02, W-205.
#![tactic(auto)]

ghost use Rattle.std.specs.Prelude.{◌≡◌};
ghost use Rattle.tick.specs.Age.{age_of, is_over};

// How long ago a tick was: the tick now less that tick, taken round the end.
pub fn age(clock: u32, tick: u32) -> u32
    ensures { result ≡ age_of clock tick }
{
    clock.wrapping_sub(tick)
}

// Whether a tick is older than a limit: one that is just as old is not.
pub fn over(clock: u32, tick: u32, limit: u32) -> bool
    ensures { result ≡ is_over clock tick limit }
{
    limit < age(clock, tick)
}
