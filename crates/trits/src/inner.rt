// A trit of a number that is known to code one, for the crates that keep trits in arrays.
ghost use Rattle.std.specs.Prelude.{◌≡◌};
ghost use Rattle.rules.specs.Codes.{trit_code};
ghost use Rattle.trits.specs.Codes.{cut};

use rules::Trit;

pub fn trit(x: u8) -> Trit
    ensures { trit_code result ≡ cut x }
{
    match x {
        0 => Trit::Zero,
        1 => Trit::One,
        _ => Trit::Undef,
    }
}
