// The evaluator: a mux table's entries in order over given trits, and the trit of one net.
// It adds no entry; only the check of a table handed in, in `inner`, is shared.
#![tactic(auto)]

ghost use Rattle.std.specs.Prelude.{◌+◌, ◌≤◌, min, leb, drop, get_or, length, take, false, not, true, [], ◌++◌, ◌≡◌};
ghost use Rattle.evaluate.specs.Values.{reads, value_read};
ghost use Rattle.lists.specs.Lists.{all};
ghost use Rattle.rules.specs.Answers.{evaluate_answer};
ghost use Rattle.rules.specs.Bounds.{mux_first, mux_max};
ghost use Rattle.rules.specs.Codes.{net_code, trit_code};
ghost use Rattle.rules.specs.Emit.{bad_table, in_use, mux_of};
ghost use Rattle.rules.specs.Evaluate.{net_in, run};
ghost use Rattle.rules.specs.Nets.{cell, first_mux};
ghost use Rattle.rules.specs.Trits.{is_trit, mux};
ghost use Rattle.trits.specs.Codes.{cut};

pub mod inner;

use rules::{Cell, Net, Refusal, Trit};

// Cells up to the last that may stand in a matrix are given; a later one is a mux's.
const GIVEN: usize = rules::CELL_MAX as usize + 1;

pub fn evaluate(table: &[u16], count: usize, trits: &[u8], asked: Net) -> Result<Trit, Refusal>
    ensures { value_read result ≡ evaluate_answer count table.now trits.now (net_code asked) }
{
    if !inner::formed(table, count) || !all_trits(trits) || !driven(asked, count) {
        return Err(Refusal::Form);
    }
    let mut values = [0; rules::MUX_MAX];
    run_all(table, count, trits, &mut values);
    let known = Known {
        trits,
        values: &values,
    };
    Ok(known.net(asked))
}

// Whether the trits in use are trits.
fn all_trits(trits: &[u8]) -> bool
    ensures { result ≡ all is_trit (take mux_first trits.now) }
{
    trits.iter().take(GIVEN).all(|x| Trit::try_from(*x).is_ok())
}

// Whether a net is a constant, a given cell, or driven by one of the entries in use.
fn driven(asked: Net, count: usize) -> bool
    requires { count ≤ mux_max }
    ensures { result ≡ not (leb (first_mux + count) (net_code asked)) }
{
    // A u32 has no `From` into a usize.
    (u32::from(asked) as usize) < inner::FIRST_MUX + count
}

// The value of every entry in use, in entry order, at its place.
fn run_all(table: &[u16], count: usize, trits: &[u8], values: &mut [u8; rules::MUX_MAX])
    requires { (bad_table count table.now ≡ false) × (all is_trit (take mux_first trits.now) ≡ true) }
    ensures { values.new ≡ run (reads trits.now) [] (in_use count table.now) ++ drop count values.old }
{
    for (k, entry) in inner::entries(table, count).iter().enumerate() {
        let known = Known {
            trits,
            values: &values[..],
        };
        values[k] = known.mux(entry);
    }
}

// What is known while a table is evaluated: the given cells, and the entries' values, each at its place.
#[derive(Clone, Copy)]
struct Known<'a> {
    trits: &'a [u8],
    values: &'a [u8],
}

impl<'a> Known<'a> {
    // The value of an entry.
    fn mux(self, entry: &[u16; inner::MUX_RUN]) -> u8
        ensures { let x = mux_of entry.now in result ≡ mux (cut (net_in (reads self.entry.trits.now) self.entry.values.now x.select)) (cut (net_in (reads self.entry.trits.now) self.entry.values.now x.one_arm)) (cut (net_in (reads self.entry.trits.now) self.entry.values.now x.zero_arm)) }
    {
        let s = self.net(Net::from(entry[0]));
        let a = self.net(Net::from(entry[1]));
        let b = self.net(Net::from(entry[2]));
        u8::from(trits::mux(s, a, b))
    }

    fn net(self, net: Net) -> Trit
        ensures { trit_code result ≡ cut (net_in (reads self.entry.trits.now) self.entry.values.now (net_code net)) }
    {
        match net {
            Net::Const(t) => t,
            Net::Cell(c) => trits::inner::trit(self.cell(c)),
        }
    }

    // A given cell, or the value of the entry that drives it; what stands past the end reads X.
    fn cell(self, c: Cell) -> u8
        ensures { result ≡ net_in (reads self.entry.trits.now) self.entry.values.now (cell c.0) }
    {
        let k = usize::from(c.0);
        let value = if k < GIVEN {
            self.trits.get(k)
        } else {
            self.values.get(k - GIVEN)
        };
        value.copied().unwrap_or(rules::UNDEF)
    }
}
