// Codes to enums and back: in arrays trits and nets are numbers.
ghost use Rattle.std.specs.Prelude.{◌≡◌};
ghost use Rattle.rules.specs.Codes.{net_code, trit_answer, trit_code};
ghost use Rattle.rules.specs.Refused.{told};

use crate::{Cell, FIRST_CELL, Net, Refusal, Trit};

impl From<Trit> for u8 {
    ghost from_gives = { λ t n. n ≡ trit_code t };

    fn from(t: Trit) -> u8 {
        t as u8
    }
}

// Any other number is refused.
impl TryFrom<u8> for Trit {
    type Error = Refusal;

    ghost try_from_gives = { λ n r. told (λ t. t) r ≡ trit_answer n };

    fn try_from(n: u8) -> Result<Trit, Refusal> {
        match n {
            0 => Ok(Trit::Zero),
            1 => Ok(Trit::One),
            2 => Ok(Trit::Undef),
            _ => Err(Refusal::Form),
        }
    }
}

// A number over the last net's is taken for a cell all the same: `net_of` of crate trits refuses it.
impl From<u16> for Net {
    ghost from_gives = { λ n x. net_code x ≡ n };

    fn from(n: u16) -> Net {
        match n {
            0 => Net::Const(Trit::Zero),
            1 => Net::Const(Trit::One),
            2 => Net::Const(Trit::Undef),
            _ => Net::Cell(Cell(n - FIRST_CELL)),
        }
    }
}

// The last cell's code is over a u16.
impl From<Net> for u32 {
    ghost from_gives = { λ x n. n ≡ net_code x };

    fn from(x: Net) -> u32 {
        match x {
            Net::Const(t) => t as u32,
            Net::Cell(c) => u32::from(c.0) + u32::from(FIRST_CELL),
        }
    }
}
