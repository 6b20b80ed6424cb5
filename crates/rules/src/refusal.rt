// The refusals.
ghost use Rattle.std.specs.Prelude.{◌≡◌};
ghost use Rattle.rules.specs.Refused.{number_of};

// Each by 01's number.
#[derive(Clone, Copy, PartialEq, Eq)]
pub enum Refusal {
    Columns = 1,
    Rows = 2,
    Shape = 3,
    Net = 4,
    Rules = 5,
    Catch = 6,
    Nodes = 7,
    Width = 8,
    Overlap = 9,
    Room = 10,
    Line = 11,
    Form = 12,
}

impl From<Refusal> for u8 {
    ghost from_gives = { λ why n. n ≡ number_of why };

    fn from(why: Refusal) -> u8 {
        why as u8
    }
}
