// The filters in the reply to 32: a mode byte, then up to 15 entries of four bytes. The entries are handed back as they
// stand: no address, instance or mask is judged. It leans on order for an entry's event mask.
// Document 01, "Four orders in reply data".
#![tactic(auto)]

ghost use Rattle.std.specs.Prelude.{◌≡◌};
ghost use Rattle.refusal.specs.Answer.{said};
ghost use Rattle.filters.specs.Filters.{filters_of, entry_of};

use refusal::Refusal;

// "k entries of address, instance, mask high, mask low": the bytes of an entry. They stand behind the mode byte.
const ENTRY: usize = 4;

// "k is 0 to 15"
const MOST: usize = 15;

// The mode byte, and how many entries follow it.
#[derive(Clone, Copy, Debug, PartialEq, Eq)]
pub struct Filters {
    pub mode: u8,
    pub entries: usize,
}

// An entry: the event types that the mask names, of this address and instance.
#[derive(Clone, Copy, Debug, PartialEq, Eq)]
pub struct Filter {
    pub address: u8,
    pub instance: u8,
    pub mask: u16,
}

// The mode and the number of entries; 11 where the size is not 1 + 4k with k at most 15.
pub fn read(s: &[u8]) -> Result<Filters, Refusal>
    ensures { said result ≡ filters_of s.now }
{
    let entries = s.len() / ENTRY;
    if s.len() != 1 + ENTRY * entries || MOST < entries {
        return Err(Refusal::BadDataSize);
    }
    Ok(Filters {
        mode: s[0],
        entries,
    })
}

// Entry i, counted from 0; 11 as for the whole, and 12 where there are not so many.
pub fn entry(s: &[u8], i: usize) -> Result<Filter, Refusal>
    ensures { said result ≡ entry_of s.now i }
{
    if read(s)?.entries <= i {
        return Err(Refusal::NoneThere);
    }
    let at = 1 + ENTRY * i;
    Ok(Filter {
        address: s[at],
        instance: s[at + 1],
        mask: order::high_first(s[at + 2], s[at + 3]),
    })
}
