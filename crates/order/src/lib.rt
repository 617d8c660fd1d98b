// The number that some bytes stand for, in the order in which the maker writes them. Every crate above that makes a number of
// bytes leans on this one. Document 01, "Frames" and "Four orders in reply data".
#![tactic(auto, unfolding(crate::specs::Order::number_by))]

ghost use Rattle.std.specs.Prelude.{◌≡◌, [], ◌∷◌};
ghost use Rattle.order.specs.Order.{high_first, number_in};

// The number of two bytes, high byte first.
pub fn high_first(high: u8, low: u8) -> u16
    ensures { result ≡ number_in high_first 2 (high ∷ low ∷ []) }
{
    u16::from_be_bytes([high, low])
}

// The number of three bytes, high byte first.
pub fn high_first_of_three(high: u8, middle: u8, low: u8) -> u32
    ensures { result ≡ number_in high_first 3 (high ∷ middle ∷ low ∷ []) }
{
    u32::from_be_bytes([0, high, middle, low])
}

// The number of four bytes, high byte first.
pub fn high_first_of_four(high: u8, second: u8, third: u8, low: u8) -> u32
    ensures { result ≡ number_in high_first 4 (high ∷ second ∷ third ∷ low ∷ []) }
{
    u32::from_be_bytes([high, second, third, low])
}
