// The check of a mux table handed in, which emission needs as well.
ghost use Rattle.std.specs.Prelude.{◌/◌, ◌≤◌, length, min, ltb, ◌&&◌, not, ◌≡◌};
ghost use Rattle.lists.specs.Runs.{runs};
ghost use Rattle.rules.specs.Bounds.{mux_max, mux_run};
ghost use Rattle.rules.specs.Emit.{bad_table, mux_of};

// Numbers of an entry: select, one arm, zero arm.
pub const MUX_RUN: usize = 3;

// The code of the net that the first entry drives.
pub const FIRST_MUX: usize = rules::FIRST_CELL as usize + rules::CELL_MAX as usize + 1;

// Entries of a table of n numbers: whole ones, as many as are allowed.
pub fn room(n: usize) -> usize
    ensures { result ≡ min (n / mux_run) mux_max }
{
    (n / MUX_RUN).min(rules::MUX_MAX)
}

// The entries of a table up to a count: select, one arm and zero arm of each.
pub(crate) fn entries(table: &[u16], count: usize) -> &[[u16; MUX_RUN]]
    requires { count ≤ length table.now / mux_run }
    ensures { (result.now ≡ runs mux_run count table.now) × (length result.now ≡ count) }
{
    let (whole, _) = table.as_chunks::<MUX_RUN>();
    &whole[..count]
}

// Whether the entries in use are there, and each operand is known before its entry.
pub fn formed(table: &[u16], count: usize) -> bool
    ensures { result ≡ not (bad_table count table.now) }
{
    if room(table.len()) < count {
        return false;
    }
    let entries = entries(table, count);
    for (k, entry) in entries.iter().enumerate() {
        if !below(entry, FIRST_MUX + k) {
            return false;
        }
    }
    true
}

// Whether each operand of an entry is below a net.
fn below(entry: &[u16; MUX_RUN], limit: usize) -> bool
    ensures { let x = mux_of entry.now in result ≡ (ltb x.select limit && (ltb x.one_arm limit && ltb x.zero_arm limit)) }
{
    entry.iter().all(|net| usize::from(*net) < limit)
}
