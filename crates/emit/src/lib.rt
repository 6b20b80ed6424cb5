// Emission: a tree as muxes appended to a table, one-hot or disjoint, and the disjoint prefix.
// It evaluates nothing and simplifies nothing.
#![tactic(auto)]

ghost use Rattle.std.specs.Prelude.{◌+◌, ◌*◌, ◌<◌, length, take, ◌≡◌};
ghost use Rattle.emit.specs.Calls.{CanPlace, between, emitted_from, placed, placed_after, prefix_read, update_in, update_wide};
ghost use Rattle.lists.specs.Lists.{all};
ghost use Rattle.muxes.specs.Lent.{lent};
ghost use Rattle.rules.specs.Answers.{disjoint_after, disjoint_answer, one_hot_after, one_hot_answer, prefix_answer};
ghost use Rattle.rules.specs.Bounds.{node_run};
ghost use Rattle.rules.specs.Refuse.{refused};
ghost use Rattle.rules.specs.Refused.{number_of};
ghost use Rattle.rules.specs.Store.{used};

use muxes::inner::{Disjoint, LeafValue, OneHot, Overlapping, Sent, Updates};
use rules::{Place, Refusal};

// The number, 0 where accepted; the nets of the value with 0 after them, how many, and the entries then in use.
#[repr(C)]
#[derive(Clone, Copy)]
pub struct Emitted {
    pub no: u8,
    pub nets: [u16; rules::WIDTH_MAX],
    pub width: usize,
    pub used: usize,
}

// Codes of nets, from the first to the last.
#[derive(Clone, Copy)]
struct Codes {
    first: u16,
    last: u16,
}

// Of every net, of a cell that may be a rule, and of a bit: a constant, or such a cell.
const NETS: Codes = Codes {
    first: 0,
    last: rules::LAST_NET,
};

const CELLS: Codes = Codes {
    first: rules::FIRST_CELL,
    last: rules::LAST_CELL,
};

const BITS: Codes = Codes {
    first: 0,
    last: rules::LAST_CELL,
};

impl Codes {
    fn has(self, net: u16) -> bool
        ensures { result ≡ between self.first self.last net }
    {
        self.first <= net && net <= self.last
    }

    fn have(self, nets: &[u16]) -> bool
        ensures { result ≡ all (between self.first self.last) nets.now }
    {
        nets.iter().all(|net| self.has(*net))
    }
}

// Bit i of the value is 1 in leaves that name output i.
pub fn one_hot(
    store: &[u16],
    root: Place,
    outputs: &[u16],
    count: usize,
    table: &mut [u16],
) -> Emitted
    ensures { (result ≡ emitted_from (one_hot_answer store.now root.0 outputs.now count table.old)) × (table.new ≡ one_hot_after store.now root.0 outputs.now count table.old) }
{
    if tree::check(store, root).is_err()
        || !NETS.have(outputs)
        || !evaluate::inner::formed(table, count)
    {
        return refuse(Refusal::Form);
    }
    if !CELLS.have(outputs) {
        return refuse(Refusal::Net);
    }
    if rules::WIDTH_MAX < outputs.len() {
        return refuse(Refusal::Width);
    }
    place(store, root, &OneHot { outputs }, count, table)
}

// Leaves give the update of their rule that has one, else the default; a later update for a net replaces an earlier.
// Updates are lent as their nets, their widths, and their bits end to end.
pub fn disjoint(
    store: &[u16],
    root: Place,
    nets: &[u16],
    widths: &[usize],
    bits: &[u16],
    default: &[u16],
    count: usize,
    table: &mut [u16],
) -> Emitted
    ensures { (result ≡ emitted_from (disjoint_answer store.now root.0 nets.now widths.now bits.now default.now count table.old)) × (table.new ≡ disjoint_after store.now root.0 nets.now widths.now bits.now default.now count table.old) }
{
    let updates = Updates { nets, widths, bits };
    if tree::check(store, root).is_err()
        || !updates_have(updates, NETS, NETS)
        || !NETS.have(default)
        || !evaluate::inner::formed(table, count)
    {
        return refuse(Refusal::Form);
    }
    if !updates_have(updates, CELLS, BITS) || !BITS.have(default) {
        return refuse(Refusal::Net);
    }
    if rules::WIDTH_MAX < default.len() || !updates_wide(updates, default.len()) {
        return refuse(Refusal::Width);
    }
    if muxes::inner::some_leaf(entries(store, root), &Overlapping { updates }) {
        return refuse(Refusal::Overlap);
    }
    place(store, root, &Disjoint { updates, default }, count, table)
}

// Whether every update's net and bits have such codes.
fn updates_have(updates: Updates, targets: Codes, codes: Codes) -> bool
    ensures { result ≡ all (update_in targets.first targets.last codes.first codes.last) (lent updates.entry) }
{
    updates.all(|update| targets.has(update.target) && codes.have(update.bits))
}

// Whether every update has so many bits.
fn updates_wide(updates: Updates, width: usize) -> bool
    ensures { result ≡ all (update_wide width) (lent updates.entry) }
{
    updates.all(|update| update.bits.len() == width)
}

// How many enables, from the first on, may stand together: no leaf names two positions.
pub fn prefix(
    store: &[u16],
    root: Place,
    outputs: &[u16],
    enables: &[u16],
) -> Result<usize, Refusal>
    ensures { prefix_read result ≡ prefix_answer store.now root.0 outputs.now enables.now }
{
    tree::check(store, root)?;
    if !NETS.have(outputs) || !NETS.have(enables) {
        return Err(Refusal::Form);
    }
    if !CELLS.have(outputs) || !CELLS.have(enables) {
        return Err(Refusal::Net);
    }
    Ok(muxes::inner::longest(entries(store, root), outputs, enables))
}

fn refuse(why: Refusal) -> Emitted
    ensures { result ≡ emitted_from (refused (number_of why)) }
{
    Emitted {
        no: u8::from(why),
        nets: [0; rules::WIDTH_MAX],
        width: 0,
        used: 0,
    }
}

// The entries of the tree whose root stands at a place.
fn entries(store: &[u16], root: Place) -> &[u16]
    requires { root.0 < used store.now }
    ensures { result.now ≡ take (node_run * (root.0 + 1)) store.now }
{
    &store[..tree::inner::NODE_RUN * (root.0 + 1)]
}

// The whole need is known before the first write: a tree of so many entries has half as many branches.
fn place<L: LeafValue>(
    store: &[u16],
    root: Place,
    leaves: &L,
    count: usize,
    table: &mut [u16],
) -> Emitted
    requires { CanPlace (L.gives leaves.now) (L.bits leaves.now) store.now root.0 count table.old }
    ensures { (result ≡ emitted_from (placed (L.gives leaves.now) store.now root.0 count table.old)) × (table.new ≡ placed_after (L.gives leaves.now) store.now root.0 count table.old) }
{
    let width = leaves.width();
    let need = (root.0 + 1) / 2 * width;
    if evaluate::inner::room(table.len()) < count + need {
        return refuse(Refusal::Room);
    }
    let Sent { nets, used } = muxes::inner::emit(entries(store, root), leaves, table, count);
    Emitted {
        no: 0,
        nets,
        width,
        used,
    }
}
