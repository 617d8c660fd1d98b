// Colours, as a colour request carries them: each colour type a case of its own, read from its colour data and laid out as such. It leans on
// crate command for the types and the bytes of their channels, and on crate order for numbers of two bytes. Document 02, W-202; source 002,
// "DALI Colour Request Frame".
#![tactic(auto)]

ghost use Rattle.std.specs.Prelude.{◌≡◌};
ghost use Rattle.refusal.specs.Answer.{said_of};
ghost use Rattle.colour.specs.Colour.{said_colour, read_colour, data_of};

use refusal::Refusal;

#[derive(Clone, Copy, Debug, PartialEq, Eq)]
pub enum Colour {
    // 10
    Xy {
        x: u16,
        y: u16,
    },
    // 20, a colour temperature
    Tc(u16),
    // 80
    Rgbwaf {
        red: u8,
        green: u8,
        blue: u8,
        white: u8,
        amber: u8,
        free: u8,
    },
}

// What some bytes say as the colour data of a type: 4 where the type is not listed, 5 where they are not as many as it has.
#[tactic(auto, unfolding(crate::specs::Colour::read_colour, command::specs::Colours::data_bytes, command::specs::Colours::widths_of, order::specs::Order::number_by))]
pub fn read(kind: u8, data: &[u8]) -> Result<Colour, Refusal>
    ensures { said_of said_colour result ≡ read_colour kind «data».now }
{
    match kind {
        command::COLOUR_XY => {
            let [a, b, c, d] = *data else {
                return Err(Refusal::BadLength);
            };
            let x = order::high_first(a, b);
            let y = order::high_first(c, d);
            Ok(Colour::Xy { x, y })
        }
        command::COLOUR_TC => {
            let [a, b] = *data else {
                return Err(Refusal::BadLength);
            };
            Ok(Colour::Tc(order::high_first(a, b)))
        }
        command::COLOUR_RGBWAF => {
            let [red, green, blue, white, amber, free] = *data else {
                return Err(Refusal::BadLength);
            };
            Ok(Colour::Rgbwaf {
                red,
                green,
                blue,
                white,
                amber,
                free,
            })
        }
        _ => Err(Refusal::BadLengthByte),
    }
}

// A colour laid out: its type, and the bytes of its channels, so many; behind them zeros.
#[derive(Drop)]
pub struct Data {
    pub kind: u8,
    pub count: usize,
    pub bytes: [u8; command::RGBWAF_BYTES],
}

#[tactic(auto, unfolding(command::specs::Colours::widths_of))]
pub fn data_of(colour: Colour) -> Data
    ensures { result ≡ data_of (said_colour colour) }
{
    match colour {
        Colour::Xy { x, y } => {
            let [a, b] = x.to_be_bytes();
            let [c, d] = y.to_be_bytes();
            Data {
                kind: command::COLOUR_XY,
                count: command::XY_BYTES,
                bytes: [a, b, c, d, 0, 0],
            }
        }
        Colour::Tc(t) => {
            let [a, b] = t.to_be_bytes();
            Data {
                kind: command::COLOUR_TC,
                count: command::TC_BYTES,
                bytes: [a, b, 0, 0, 0, 0],
            }
        }
        Colour::Rgbwaf {
            red,
            green,
            blue,
            white,
            amber,
            free,
        } => Data {
            kind: command::COLOUR_RGBWAF,
            count: command::RGBWAF_BYTES,
            bytes: [red, green, blue, white, amber, free],
        },
    }
}
