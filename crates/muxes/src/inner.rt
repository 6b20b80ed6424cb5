// The recursion of emission, one for both calls, and what a leaf gives; the search for leaves that overlap, and the prefix.
ghost use Rattle.std.specs.Prelude.{ℕ, ◌+◌, ◌*◌, ◌/◌, ◌≤◌, ◌<◌, length, List, [], ◌∷◌, Bool, true, map, ◌≡◌, MatchOption};
ghost use Rattle.lists.specs.Lists.{all, mem};
ghost use Rattle.lists.specs.Vec.{vec};
ghost use Rattle.muxes.specs.Leaves.{any_leaf, hit};
ghost use Rattle.muxes.specs.Sends.{CanEmit, Joined, Sends};
ghost use Rattle.muxes.specs.Lent.{Tests, lent, found, update};
ghost use Rattle.rules.specs.Emit as Emit;
ghost use Rattle.rules.specs.Bounds.{cell_max, mux_max, mux_run, node_run, rules_max, width_max};
ghost use Rattle.rules.specs.Closed.{Wide};
ghost use Rattle.rules.specs.Emit.{Gives, appended, disjoint, get_else, is_some, one_hot, overlap, update_for};
ghost use Rattle.rules.specs.Nets.{cell, first_mux};
ghost use Rattle.rules.specs.Prefix.{crowded, prefix};
ghost use Rattle.rules.specs.Store.{encode};
ghost use Rattle.rules.specs.Tree.{Tree, fine, leaf};
ghost use Rattle.tree.specs.Form.{Ends};

use rules::Cell;
use tree::inner::{NODE_RUN, Root};

// What a tree has sent: the nets of its value, and the entries then in use.
#[derive(Clone, Copy)]
pub struct Sent {
    pub nets: [u16; rules::WIDTH_MAX],
    pub used: usize,
}

// The one function that adds a mux: it writes entry k, and answers the net that the entry drives.
fn put_mux(table: &mut [u16], k: usize, select: u16, one: u16, zero: u16) -> u16
    requires { (mux_run * (k + 1) ≤ length table.old) × (k < mux_max) }
    ensures { (result ≡ first_mux + k) × (table.new ≡ appended k (record { select = select; one_arm = one; zero_arm = zero } ∷ []) table.old) }
{
    let p = evaluate::inner::MUX_RUN * k;
    table[p] = select;
    table[p + 1] = one;
    table[p + 2] = zero;
    // It fits: the net of the last entry that a table may have is below 2^16.
    (evaluate::inner::FIRST_MUX + k) as u16
}

// A branch's muxes from entry k on, bit 0 first.
fn join(
    table: &mut [u16],
    test: Cell,
    one: [u16; rules::WIDTH_MAX],
    zero: [u16; rules::WIDTH_MAX],
    width: usize,
    k: usize,
) -> Sent
    requires { (width ≤ width_max) × (mux_run * (k + width) ≤ length table.old) × (k + width ≤ mux_max) × (test.0 ≤ cell_max) }
    ensures { Joined (cell test.0) one zero width k table.old table.new result }
{
    let select = rules::FIRST_CELL + test.0;
    let mut nets = [0; rules::WIDTH_MAX];
    // The bit's index is one in both arms, in the nets, and from entry k on.
    for i in 0..width {
        nets[i] = put_mux(table, k + i, select, one[i], zero[i]);
    }
    Sent {
        nets,
        used: k + width,
    }
}

// The code of a cell's net, which may be over a u16.
fn code(rule: u16) -> usize
    ensures { result ≡ cell rule }
{
    usize::from(rules::FIRST_CELL) + usize::from(rule)
}

// Whether the rules of a leaf, which are cell numbers, name a net.
fn names(rules: &[u16], net: u16) -> bool
    ensures { result ≡ mem net (map cell rules.now) }
{
    // A loop of its own, since a closure that is called for each rule slows the prefix.
    for rule in rules {
        if code(*rule) == usize::from(net) {
            return true;
        }
    }
    false
}

// ---- updates

// The update of one net.
#[derive(Clone, Copy)]
pub struct Update<'a> {
    pub target: u16,
    pub bits: &'a [u16],
}

// Updates as they are lent: their nets, their widths, and their bits end to end.
#[derive(Clone, Copy)]
pub struct Updates<'a> {
    pub nets: &'a [u16],
    pub widths: &'a [usize],
    pub bits: &'a [u16],
}

impl<'a> Updates<'a> {
    // The first update, and the others. A width is cut to the bits that are left, and 0 where none is given.
    fn split_first(self) -> Option<(Update<'a>, Updates<'a>)>
        ensures { MatchOption result (lent self.entry ≡ []) (λ p. lent self.entry ≡ update p.0 ∷ lent p.1) }
    {
        let (net, nets) = self.nets.split_first()?;
        let (width, widths) = match self.widths.split_first() {
            Some((width, widths)) => (*width, widths),
            None => (0, self.widths),
        };
        let (bits, rest) = self.bits.split_at(width.min(self.bits.len()));
        let first = Update { target: *net, bits };
        let others = Updates {
            nets,
            widths,
            bits: rest,
        };
        Some((first, others))
    }

    // Whether each update passes a test.
    pub fn all<F: Fn(Update<'a>) -> bool>(self, test: F) -> bool
        requires { F.IsAlwaysCallable test }
        ensures { (p : Emit.Update → Bool) → Tests (F.post test) p → result ≡ all p (lent self.entry) }
    {
        let mut rest = self;
        while let Some((first, others)) = rest.split_first() {
            if !test(first) {
                return false;
            }
            rest = others;
        }
        true
    }

    // The bits of the last update of a net: a later one replaces the earlier.
    fn last_for(self, net: usize) -> Option<&'a [u16]>
        ensures { found result ≡ update_for (lent self.entry) net }
    {
        let mut last = None;
        let mut rest = self;
        while let Some((first, others)) = rest.split_first() {
            if usize::from(first.target) == net {
                last = Some(first.bits);
            }
            rest = others;
        }
        last
    }

    // Whether a rule has an update.
    fn has(self, rule: u16) -> bool
        ensures { result ≡ is_some (update_for (lent self.entry) (cell rule)) }
    {
        self.last_for(code(rule)).is_some()
    }

    // The bits of the update of the first rule that has one.
    fn first_of(self, rules: &[u16]) -> Option<&'a [u16]>
        ensures { (d : List ℕ) → get_else (found result) d ≡ disjoint (lent self.entry) d (map cell rules.now) }
    {
        for rule in rules {
            let bits = self.last_for(code(*rule));
            if bits.is_some() {
                return bits;
            }
        }
        None
    }
}

// ---- what a leaf gives

// The value of a leaf, as nets, from its rules.
pub trait LeafValue {
    ghost gives: { Self → Gives };

    ghost bits: { Self → ℕ };

    // How many nets.
    fn width(&self) -> usize
        ensures { result ≡ bits self.now };

    // The nets, with 0 after them.
    fn nets(&self, rules: &[u16]) -> [u16; rules::WIDTH_MAX]
        requires { Wide (gives self.now) (bits self.now) × (bits self.now ≤ width_max) }
        ensures { result ≡ vec width_max 0 (gives self.now (map cell rules.now)) };
}

// Bit i is 1 where the leaf names output i.
#[derive(Clone, Copy)]
pub struct OneHot<'a> {
    pub outputs: &'a [u16],
}

impl<'a> LeafValue for OneHot<'a> {
    ghost gives = { λ s. one_hot s.outputs.now };

    ghost bits = { λ s. length s.outputs.now };

    fn width(&self) -> usize {
        self.outputs.len()
    }

    fn nets(&self, rules: &[u16]) -> [u16; rules::WIDTH_MAX] {
        let mut nets = [0; rules::WIDTH_MAX];
        for (i, output) in self.outputs.iter().enumerate() {
            nets[i] = u16::from(names(rules, *output));
        }
        nets
    }
}

// The bits of the update of the leaf's rule that has one, else the default.
#[derive(Clone, Copy)]
pub struct Disjoint<'a> {
    pub updates: Updates<'a>,
    pub default: &'a [u16],
}

impl<'a> LeafValue for Disjoint<'a> {
    ghost gives = { λ s. disjoint (lent s.updates) s.default.now };

    ghost bits = { λ s. length s.default.now };

    fn width(&self) -> usize {
        self.default.len()
    }

    fn nets(&self, rules: &[u16]) -> [u16; rules::WIDTH_MAX] {
        padded(self.updates.first_of(rules).unwrap_or(self.default))
    }
}

// Bits with 0 after them.
fn padded(bits: &[u16]) -> [u16; rules::WIDTH_MAX]
    requires { length bits.now ≤ width_max }
    ensures { result ≡ vec width_max 0 bits.now }
{
    let mut nets = [0; rules::WIDTH_MAX];
    nets[..bits.len()].copy_from_slice(bits);
    nets
}

// The value of the leaf of n rules in which a store ends.
fn last_leaf<L: LeafValue>(store: &[u16], n: usize, leaves: &L) -> [u16; rules::WIDTH_MAX]
    requires { (node_run ≤ length store.now) × (n ≤ rules_max) × Wide (L.gives leaves.now) (L.bits leaves.now) × (L.bits leaves.now ≤ width_max) }
    ensures { (rs : List ℕ) → Ends (leaf rs) store.now → n ≡ length rs → result ≡ vec width_max 0 (L.gives leaves.now rs) }
{
    let s = store.len() - NODE_RUN + 1;
    leaves.nets(&store[s..s + n])
}

// The tree in which the store ends, into the table from entry k on: the one arm, the zero arm, this branch's muxes.
pub fn emit<L: LeafValue>(store: &[u16], leaves: &L, table: &mut [u16], k: usize) -> Sent
    requires { CanEmit (L.gives leaves.now) (L.bits leaves.now) store.now (length table.old) k }
    ensures { (t : Tree) → Ends t store.now → Sends (L.gives leaves.now) (L.bits leaves.now) k t table.old table.new result }
{
    match tree::inner::root_of(store) {
        Root::Leaf(n) => {
            let nets = last_leaf(store, n, leaves);
            Sent { nets, used: k }
        }
        Root::Branch { test, one, zero } => {
            let a = emit(&store[..one], leaves, table, k);
            let b = emit(&store[..zero], leaves, table, a.used);
            join(table, test, a.nets, b.nets, leaves.width(), b.used)
        }
    }
}

// ---- leaves that are sought

// A test of a leaf, from its rules.
pub trait LeafTest {
    ghost test: { Self → List ℕ → Bool };

    fn meets(&self, rules: &[u16]) -> bool
        ensures { result ≡ test self.now (map cell rules.now) };
}

// The leaf names the nets of two positions.
#[derive(Clone, Copy)]
pub struct Crowded<'a> {
    pub nets: &'a [u16],
}

impl<'a> LeafTest for Crowded<'a> {
    ghost test = { λ s. crowded s.nets.now };

    // Called for each leaf: inlined into the search, its loop, which is the work of the prefix, runs slower.
    #[inline(never)]
    fn meets(&self, rules: &[u16]) -> bool {
        // The second decides, so what comes after it is not searched.
        let mut seen = false;
        for net in self.nets {
            if names(rules, *net) {
                if seen {
                    return true;
                }
                seen = true;
            }
        }
        false
    }
}

// Two rules of the leaf have updates.
#[derive(Clone, Copy)]
pub struct Overlapping<'a> {
    pub updates: Updates<'a>,
}

impl<'a> LeafTest for Overlapping<'a> {
    ghost test = { λ s. overlap (lent s.updates) };

    fn meets(&self, rules: &[u16]) -> bool {
        // As above, the second decides.
        let mut updated = false;
        for rule in rules {
            if self.updates.has(*rule) {
                if updated {
                    return true;
                }
                updated = true;
            }
        }
        false
    }
}

// Whether an entry is a leaf that meets the test.
fn entry_meets<T: LeafTest>(entry: &[u16], test: &T) -> bool
    requires { length entry.now ≡ node_run }
    ensures { result ≡ hit (T.test test.now) entry.now }
{
    let n = usize::from(entry[0]);
    n < NODE_RUN && test.meets(&entry[1..n + 1])
}

// Whether some leaf of the tree meets the test: a loop over the entries, so that no path is walked.
pub fn some_leaf<T: LeafTest>(store: &[u16], test: &T) -> bool
    ensures { result ≡ any_leaf (T.test test.now) (length store.now / node_run) store.now }
{
    for entry in store.chunks_exact(NODE_RUN) {
        if entry_meets(entry, test) {
            return true;
        }
    }
    false
}

// How many of the enables may stand together, in the tree whose entries the store has.
pub fn longest(store: &[u16], outputs: &[u16], enables: &[u16]) -> usize
    ensures { (t : Tree) → store.now ≡ encode t → fine t ≡ true → result ≡ prefix outputs.now t enables.now }
{
    for (i, enable) in enables.iter().enumerate() {
        let nets = &enables[..i + 1];
        if !outputs.contains(enable) || some_leaf(store, &Crowded { nets }) {
            return i;
        }
    }
    enables.len()
}
