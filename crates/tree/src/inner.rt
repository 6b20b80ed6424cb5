// What the recursion of dispatch does to the store that it is lent, and how a tree is read from its end.
ghost use Rattle.std.specs.Prelude.{◌+◌, ◌*◌, ◌/◌, ◌≤◌, ◌<◌, min, cond, ◌&&◌, ◌++◌, map, ◌≡◌, eqb, drop, get_or, length, replicate, take};
ghost use Rattle.lists.specs.Lists.{all};
ghost use Rattle.rules.specs.Bounds.{node_run, nodes_max, rules_max};
ghost use Rattle.rules.specs.Given.{ascends};
ghost use Rattle.rules.specs.Nets.{cell, is_name, number};
ghost use Rattle.rules.specs.Store.{leaf_run, run_of_node};
ghost use Rattle.rules.specs.Tree.{Tree, leaf, mk, same, size};
ghost use Rattle.tree.specs.Form.{Ends, HasTree, IsTree, LastOf, RootOf, none_tests};
ghost use Rattle.tree.specs.Grown.{Arms, Grown, Outcome};
ghost use Rattle.tree.specs.Says.{Says};

use crate::Built;
use rules::{Cell, Place, Refusal};

// Numbers of an entry: a count and the rules.
pub const NODE_RUN: usize = rules::RULES_MAX + 1;

// Places of a store of n numbers: whole entries, as many as are allowed.
pub fn places(n: usize) -> usize
    ensures { result ≡ min (n / node_run) nodes_max }
{
    (n / NODE_RUN).min(rules::NODES_MAX)
}

// Numbers of a store of n that dispatch uses.
pub fn in_use(n: usize) -> usize
    ensures { (result ≡ node_run * min (n / node_run) nodes_max) × (result ≤ n) }
{
    NODE_RUN * places(n)
}

// Sets all of a slice to 0.
pub fn clear(store: &mut [u16])
    ensures { store.new ≡ replicate (length store.old) 0 }
{
    store.fill(0);
}

// A rule is a cell, so what a constant's number is does not matter.
fn number(net: u16) -> u16
    ensures { result ≡ number net }
{
    if net < rules::FIRST_CELL {
        0
    } else {
        net - rules::FIRST_CELL
    }
}

// Writes a leaf of rules, which are net codes, into the first entry.
fn put_leaf(store: &mut [u16], rules: &[u16])
    requires { (length rules.now ≤ rules_max) × (node_run ≤ length store.old) }
    ensures { store.new ≡ leaf_run rules.now ++ drop node_run store.old }
{
    clear(&mut store[..NODE_RUN]);
    store[0] = rules.len() as u16;
    for (i, net) in rules.iter().enumerate() {
        store[i + 1] = number(*net);
    }
}

// Writes a branch into the first entry.
fn put_branch(store: &mut [u16], test: Cell, one: usize)
    requires { (node_run ≤ length store.old) × (one ≤ nodes_max) }
    ensures { store.new ≡ run_of_node (cell test.0) one ++ drop node_run store.old }
{
    clear(&mut store[..NODE_RUN]);
    store[0] = NODE_RUN as u16;
    store[1] = test.0;
    store[2] = one as u16;
}

// Whether the first k0 numbers and the k1 after them are the same.
fn same_runs(store: &[u16], k0: usize, k1: usize) -> bool
    requires { k0 + k1 ≤ length store.now }
    ensures { Says result (take k0 store.now ≡ take k1 (drop k0 store.now)) }
{
    store[..k0] == store[k0..k0 + k1]
}

// A leaf at the front, if there is room.
pub fn leaf(store: &mut [u16], rules: &[u16]) -> Result<Built, Refusal>
    requires { length rules.now ≤ rules_max }
    ensures { Grown (leaf rules.now) store.old store.new result }
{
    if store.len() < NODE_RUN {
        return Err(Refusal::Nodes);
    }
    put_leaf(store, rules);
    Ok(Built {
        root: Place(0),
        size: 1,
    })
}

// The two arms stand in the first `zero` entries and the `one` after them: leaves the one arm out if it is the same, else adds the branch.
pub fn join(store: &mut [u16], test: Cell, zero: usize, one: usize) -> Result<Built, Refusal>
    requires { (1 ≤ zero) × (node_run * zero + node_run * one ≤ length store.old) × (length store.old ≤ node_run * nodes_max) }
    ensures { (z o : Tree) → Arms z o zero one store.old → Outcome (cond (same z o) 0 (size z + size o + 1)) (mk (cell test.0) z o) store.old store.new result }
{
    let k0 = NODE_RUN * zero;
    let k1 = NODE_RUN * one;
    if same_runs(store, k0, k1) {
        return Ok(Built {
            root: Place(zero - 1),
            size: zero,
        });
    }
    let k = k0 + k1;
    if store.len() < k + NODE_RUN {
        return Err(Refusal::Nodes);
    }
    put_branch(&mut store[k..], test, one);
    Ok(Built {
        root: Place(zero + one),
        size: zero + one + 1,
    })
}

// The root of the tree in whose entries a slice ends: how many rules a leaf has, or a branch's test and where its arms end.
#[derive(Clone, Copy)]
pub enum Root {
    Leaf(usize),
    Branch { test: Cell, one: usize, zero: usize },
}

pub fn root_of(store: &[u16]) -> Root
    requires { HasTree store.now }
    ensures { (t : Tree) → Ends t store.now → RootOf t store.now result }
{
    let e = store.len() - NODE_RUN;
    let head = usize::from(store[e]);
    if head != NODE_RUN {
        return Root::Leaf(head);
    }
    let test = Cell(store[e + 1]);
    let k = NODE_RUN * usize::from(store[e + 2]);
    Root::Branch {
        test,
        one: e,
        zero: e - k,
    }
}

// Whether all of a slice is 0.
fn zeros(run: &[u16]) -> bool
    ensures { Says result (run.now ≡ replicate (length run.now) 0) }
{
    run.iter().all(|n| *n == 0)
}

// Whether the numbers of a leaf's rules strictly ascend to the last allowed.
fn ascend(run: &[u16]) -> bool
    ensures { result ≡ (all is_name (map cell run.now) && ascends (map cell run.now)) }
{
    let mut low = 0;
    for n in run {
        let n = *n;
        if n < low {
            return false;
        }
        if rules::CELL_MAX < n {
            return false;
        }
        low = n + 1;
    }
    true
}

// Whether an entry of n rules is a leaf's.
fn is_leaf(run: &[u16], n: usize) -> bool
    requires { (length run.now ≡ node_run) × (n ≡ get_or run.now 0 0) × (n < node_run) }
    ensures { Says result (IsTree run.now) }
{
    let a = n + 1;
    if !zeros(&run[a..]) {
        return false;
    }
    ascend(&run[1..a])
}

// Whether no entry is a branch that tests a net: what a loop finds, so that no path is walked.
fn untested(store: &[u16], test: Cell) -> bool
    ensures { result ≡ none_tests test.0 (length store.now / node_run) store.now }
{
    let n = test.0;
    for run in store.chunks_exact(NODE_RUN) {
        if tests(run[0], run[1], n) {
            return false;
        }
    }
    true
}

// Whether an entry with these first two numbers is a branch that tests n.
fn tests(head: u16, test: u16, n: u16) -> bool
    ensures { result ≡ (eqb head node_run && eqb test n) }
{
    usize::from(head) == NODE_RUN && test == n
}

// What the last entry says, if a tree may end so: it is a tree by itself, or it joins two, which stand up to `zero` and from there up to `one`.
#[derive(Clone, Copy)]
enum Last {
    Alone,
    Joins { zero: usize, one: usize },
}

// The last entry is a branch's: whether all but its arms is well formed.
fn branch_of(store: &[u16], e: usize) -> Option<Last>
    requires { (length store.now ≡ e + node_run) × (get_or store.now e 0 ≡ node_run) }
    ensures { LastOf store.now result }
{
    let a = e + 3;
    if !zeros(&store[a..]) {
        return None;
    }
    let test = store[e + 1];
    if rules::CELL_MAX < test {
        return None;
    }
    let k = NODE_RUN * usize::from(store[e + 2]);
    if e < k {
        return None;
    }
    if !untested(&store[..e], Cell(test)) {
        return None;
    }
    Some(Last::Joins {
        zero: e - k,
        one: e,
    })
}

fn last_of(store: &[u16]) -> Option<Last>
    ensures { LastOf store.now result }
{
    if store.len() < NODE_RUN {
        return None;
    }
    let e = store.len() - NODE_RUN;
    let head = usize::from(store[e]);
    if head == NODE_RUN {
        return branch_of(store, e);
    }
    if NODE_RUN < head {
        return None;
    }
    if e != 0 {
        return None;
    }
    if is_leaf(store, head) {
        return Some(Last::Alone);
    }
    None
}

// Whether a slice holds the entries of one well formed tree, and nothing else.
pub fn is_tree(store: &[u16]) -> bool
    ensures { Says result (IsTree store.now) }
{
    match last_of(store) {
        None => false,
        Some(Last::Alone) => true,
        Some(Last::Joins { zero, one }) => {
            if !is_tree(&store[zero..one]) {
                return false;
            }
            is_tree(&store[..zero])
        }
    }
}
