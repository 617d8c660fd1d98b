// Maps in reply data: the event mask, the scenes of a group, the gear present and the gear types. Each is some bytes, in the
// order that the maker gave it, and is handed back as one number whose bit k stands for event type, scene, gear or gear
// type k. It leans on refusal for the refusals and the words of a test, on order for the numbers of bytes, and on sum for what a run of
// bytes is. Document 01, "Four orders in reply data".
#![tactic(auto, using(crate::proofs::Taken::taken, crate::proofs::Machine::counted, crate::proofs::Machine::lowered), unfolding(order::specs::Order::number_by))]

ghost use Rattle.std.specs.Prelude.{◌≡◌, length, eqb};
ghost use Rattle.refusal.specs.Answer.{full, demand, said};
ghost use Rattle.maps.specs.Maps.{mask_of, scenes_of, gear_of, types_of, count_of, lowest_of};

use refusal::Refusal;

// The bytes of a map that has so many; 11 for another size.
fn sized<const N: usize>(s: &[u8]) -> Result<[u8; N], Refusal>
    ensures { said result ≡ demand (eqb (length s.now) N) 11 (full s.now) }
{
    s.try_into().map_err(|_| Refusal::BadDataSize)
}

// The event mask of two bytes; 11 for another size.
pub fn mask(s: &[u8]) -> Result<u16, Refusal>
    ensures { said result ≡ mask_of s.now }
{
    let mask = sized(s)?;
    Ok(u16::from_be_bytes(mask))
}

// How many event types a mask names. (It and count_gear, lowest_type and lowest_gear stay beside each other: over u16 and u64 each is one call of
// std, and a trait of their own would be longer than both.)
pub fn count_types(mask: u16) -> u32
    ensures { result ≡ count_of 16 mask }
{
    mask.count_ones()
}

// The lowest event type that a mask names; 12 where it names none.
pub fn lowest_type(mask: u16) -> Result<u32, Refusal>
    ensures { said result ≡ lowest_of 16 mask }
{
    if mask == 0 {
        return Err(Refusal::NoneThere);
    }
    Ok(mask.trailing_zeros())
}

// The scenes of a group, from the two bytes of the reply to 1A; 11 for another size.
pub fn scenes(s: &[u8]) -> Result<u16, Refusal>
    ensures { said result ≡ scenes_of s.now }
{
    let scenes = sized(s)?;
    Ok(u16::from_be_bytes(scenes))
}

// The gear present, from the eight bytes of the reply to 1D; 11 for another size.
pub fn gear(s: &[u8]) -> Result<u64, Refusal>
    ensures { said result ≡ gear_of s.now }
{
    let gear = sized(s)?;
    Ok(u64::from_le_bytes(gear))
}

// How many gear are present.
pub fn count_gear(gear: u64) -> u32
    ensures { result ≡ count_of 64 gear }
{
    gear.count_ones()
}

// The lowest address of the gear present; 12 where none is.
pub fn lowest_gear(gear: u64) -> Result<u32, Refusal>
    ensures { said result ≡ lowest_of 64 gear }
{
    if gear == 0 {
        return Err(Refusal::NoneThere);
    }
    Ok(gear.trailing_zeros())
}

// The gear types, from the four bytes of the reply to AC; 11 for another size.
pub fn types(s: &[u8]) -> Result<u32, Refusal>
    ensures { said result ≡ types_of s.now }
{
    let types = sized(s)?;
    Ok(u32::from_le_bytes(types))
}
