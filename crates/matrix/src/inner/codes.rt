// Codes of nets that are passed alone: the last cell's is over a u16.
ghost use Rattle.std.specs.Prelude.{◌≡◌};
ghost use Rattle.matrix.specs.Faults.{clipped};
ghost use Rattle.rules.specs.Nets.{over};

pub fn over(x: u32) -> bool
    ensures { result ≡ over x }
{
    x > u32::from(rules::LAST_CELL)
}

// All numbers that code no net are alike to the rules of a formed matrix, so that the first of them stands for them.
pub fn clip(x: u32) -> u16
    ensures { result ≡ clipped x }
{
    x.min(u32::from(rules::LAST_NET) + 1) as u16
}
