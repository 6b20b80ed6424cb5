// Dispatch: a matrix and its enable become a tree in a lent store, or a number.
// The matrix is checked once, at the door; the recursion below it checks nothing again.
#![tactic(auto)]

ghost use Rattle.std.specs.Prelude.{IfOk, get_or, length, map, false, ◌≡◌, ℕ, ◌*◌, ◌+◌, ◌<◌, ◌≤◌};
ghost use Rattle.dispatch.specs.Choice.{least, upto};
ghost use Rattle.dispatch.specs.Good.{Good, built_read, door};
ghost use Rattle.lists.specs.Vec.{vec};
ghost use Rattle.matrix.specs.Mat.{Clean, given, view};
ghost use Rattle.rules.proofs.Evals.{Cells};
ghost use Rattle.rules.specs.Answers.{dispatch_answer, dispatch_store};
ghost use Rattle.rules.specs.Bounds.{cell_max, columns_max, node_run, nodes_max, rows_max};
ghost use Rattle.rules.specs.Codes.{net_code};
ghost use Rattle.rules.specs.Dispatch.{catch_all, column, done, raw_of, rules, test};
ghost use Rattle.rules.specs.Matrix.{add_enable, swap};
ghost use Rattle.rules.specs.Nets.{cell};
ghost use Rattle.rules.specs.Refusals.{enable_table};
ghost use Rattle.rules.specs.Refuse.{refusal};
ghost use Rattle.rules.specs.Refused.{number_or_0};
ghost use Rattle.rules.specs.Tree.{leaf};
ghost use Rattle.rules.specs.Trits.{bit, is_x};
ghost use Rattle.tree.specs.Grown.{Grown, Whole};

use matrix::Matrix;
use rules::{Net, Refusal};
use tree::Built;

fn more(count: usize, mask: u8) -> usize
    requires { count < rows_max }
    ensures { result ≡ bit (is_x mask) + count }
{
    count + usize::from(mask == rules::UNDEF)
}

// One row more: an X in a column is one more there.
fn tally(counts: [usize; rules::COLUMNS_MAX], pattern: &[u8]) -> [usize; rules::COLUMNS_MAX]
    requires { (length pattern.now ≤ columns_max) × ((j : ℕ) → j < length pattern.now → get_or counts j 0 < rows_max) }
    ensures { result ≡ vec columns_max 0 (upto (λ (j : ℕ). bit (is_x (get_or pattern.now j 0)) + get_or counts j 0) (length pattern.now)) }
{
    let mut made = [0usize; rules::COLUMNS_MAX];
    for (j, mask) in pattern.iter().enumerate() {
        let x = more(counts[j], *mask);
        made[j] = x;
    }
    made
}

// The lowest on a tie.
fn fewest(counts: &[usize]) -> rules::Column
    ensures { result.0 ≡ least counts.now (length counts.now) 0 0 }
{
    let mut at = 0;
    for (j, count) in counts.iter().enumerate() {
        if *count < counts[at] {
            at = j;
        }
    }
    rules::Column(at)
}

// The X of every column are counted in one pass over the rows.
fn column_of(m: Matrix) -> rules::Column
    requires { Clean m }
    ensures { result.0 ≡ column (view m) }
{
    let n = m.columns;
    let mut counts = [0usize; rules::COLUMNS_MAX];
    for row in m.rows[..m.count].iter().rev() {
        counts = tally(counts, &row.pattern[..n]);
    }
    fewest(&counts[..n])
}

// A column of a normal form is a cell.
fn test_of(m: Matrix) -> rules::Cell
    requires { Clean m × Cells (view m) × (done (view m) ≡ false) }
    ensures { cell result.0 ≡ test (view m) }
{
    let value = m.value;
    let column = column_of(m);
    let at = column.0;
    let net = value[at];
    rules::Cell(net - rules::FIRST_CELL)
}

// The nets alone: an arm has the rows of the matrix that it comes of.
fn set(nets: &mut [u16], test: rules::Cell, bit: u8)
    requires { test.0 ≤ cell_max }
    ensures { nets.new ≡ map (swap (cell test.0) bit) nets.old }
{
    matrix::inner::step::assume_nets(nets, rules::FIRST_CELL + test.0, bit);
}

// A matrix without rows has a row without rules in its first slot.
fn leaf_of(m: Matrix, store: &mut [u16]) -> Result<Built, Refusal>
    requires { Clean m }
    ensures { Grown (leaf (rules (view m))) store.old store.new result }
{
    tree::inner::leaf(store, m.rows[0].rules.slice())
}

// Where equal arms are one tree, the entries of the one arm are used again. The nets of an arm are lent apart, as in assume.
fn grow(m: Matrix, store: &mut [u16]) -> Result<Built, Refusal>
    requires { Good m × (length store.old ≤ node_run * nodes_max) }
    ensures { Grown (raw_of (view m)) store.old store.new result }
{
    let mut w = matrix::inner::normal::normalize(m);
    let n = w.columns;
    let k = w.count;
    if n == 0 {
        return leaf_of(w, store);
    }
    if k == 1 {
        return leaf_of(w, store);
    }
    let test = test_of(w);
    let value = w.value;
    let mut zeros = value;
    set(&mut zeros[..n], test, 0);
    w.value = zeros;
    let Ok(zero) = grow(w, store) else {
        return Err(Refusal::Nodes);
    };
    let at = tree::inner::NODE_RUN * zero.size;
    let mut ones = value;
    set(&mut ones[..n], test, 1);
    w.value = ones;
    let Ok(one) = grow(w, &mut store[at..]) else {
        return Err(Refusal::Nodes);
    };
    tree::inner::join(store, test, zero.size, one.size)
}

// The entries after the root are cleared, all of them where there is no root.
fn build(m: Matrix, store: &mut [u16]) -> Result<Built, Refusal>
    requires { Good m }
    ensures { Whole (raw_of (view m)) store.old store.new result }
{
    let used = tree::inner::in_use(store.len());
    let Ok(built) = grow(m, &mut store[..used]) else {
        tree::inner::clear(&mut store[..used]);
        return Err(Refusal::Nodes);
    };
    let at = built.root.0;
    let e = tree::inner::NODE_RUN * (at + 1);
    tree::inner::clear(&mut store[e..used]);
    Ok(built)
}

// Whether the last row is all X.
fn catches(m: &Matrix) -> bool
    ensures { result ≡ catch_all (view m.now).rows }
{
    match m.rows_in_use().last() {
        Some(row) => rows::inner::undef(row.masks_in_use()),
        None => false,
    }
}

// The matrix with its enable, or what is known to be wrong before a tree is built.
fn opened(m: Matrix, enable: Net) -> Result<Matrix, Refusal>
    ensures number { number_or_0 result ≡ door (refusal (enable_table (net_code enable) (given m))) (catch_all (view m).rows) }
    ensures made { IfOk result (λ w. Good w × (view w ≡ add_enable (net_code enable) (view m))) }
{
    matrix::inner::numbers::add_enable(&m, u32::from(enable))?;
    if !catches(&m) {
        return Err(Refusal::Catch);
    }
    Ok(matrix::inner::step::enable(m, enable))
}

// The matrix with its enable as a tree at the front of the store: its root's place and its size, or the number.
pub fn dispatch(matrix: Matrix, enable: Net, store: &mut [u16]) -> Result<Built, Refusal>
    ensures { (built_read result ≡ dispatch_answer (net_code enable) (given matrix) store.old) × (store.new ≡ dispatch_store (net_code enable) (given matrix) store.old) }
{
    match opened(matrix, enable) {
        Ok(made) => build(made, store),
        Err(why) => {
            let used = tree::inner::in_use(store.len());
            tree::inner::clear(&mut store[..used]);
            Err(why)
        }
    }
}
