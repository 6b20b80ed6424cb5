// normalize: rows in order, then the columns that stay.
ghost use Rattle.std.specs.Prelude.{eqb, get_or, length, take, false, not, ◌||◌, map, ◌≡◌, ℕ, ◌≤◌};
ghost use Rattle.lists.specs.Lists.{kept};
ghost use Rattle.lists.specs.Vec.{vec};
ghost use Rattle.matrix.specs.Mat.{Clean, asked, matrix_from, stripped, view};
ghost use Rattle.rows.specs.Rows.{flags, places, view as viewed};
ghost use Rattle.rules.specs.Bounds.{columns_max};
ghost use Rattle.rules.specs.Codes.{net_code};
ghost use Rattle.rules.specs.Matrix.{Row};
ghost use Rattle.rules.specs.Nets.{is_cell};
ghost use Rattle.rules.specs.Normalize.{again, normalize};
ghost use Rattle.rules.specs.Steps.{place};
ghost use Rattle.rules.specs.Trits.{is_x};

use std::mem;

// By the patterns as given.
fn again(last: &Option<rows::Row>, row: &rows::Row) -> bool
    ensures { result ≡ again (asked last.now) (viewed row.now).pattern }
{
    match last {
        Some(last) => row.masks_in_use() == last.masks_in_use()
            || rows::inner::undef(last.masks_in_use()),
        None => false,
    }
}

fn mark(used: [bool; rules::COLUMNS_MAX], pattern: &[u8]) -> [bool; rules::COLUMNS_MAX]
    requires { length pattern.now ≤ columns_max }
    ensures { result ≡ vec columns_max false (flags (λ (j mask : ℕ). get_or used j false || not (is_x mask)) pattern.now) }
{
    let mut made = [false; rules::COLUMNS_MAX];
    for (j, mask) in pattern.iter().enumerate() {
        made[j] = used[j] || *mask != rules::UNDEF;
    }
    made
}

fn goes(net: rules::Net, first: usize, j: usize, used: bool) -> bool
    ensures { result ≡ (not (is_cell (net_code net)) || (not (eqb first j) || not used)) }
{
    matches!(net, rules::Net::Const(_)) || first != j || !used
}

// Of the rows as settled: a mask that moved into its net's first column keeps that column.
fn gone(
    nets: &[u16],
    firsts: [usize; rules::COLUMNS_MAX],
    used: [bool; rules::COLUMNS_MAX],
) -> [bool; rules::COLUMNS_MAX]
    requires narrow { length nets.now ≤ columns_max }
    requires looked_up { firsts ≡ vec columns_max 0 (places nets.now) }
    ensures { result ≡ vec columns_max false (flags (λ (j x : ℕ). not (is_cell x) || (not (eqb (place x nets.now) j) || not (get_or used j false))) nets.now) }
{
    let mut made = [false; rules::COLUMNS_MAX];
    for (j, x) in nets.iter().enumerate() {
        made[j] = goes(rules::Net::from(*x), firsts[j], j, used[j]);
    }
    made
}

fn strip_row(row: rows::Row, gone: &[bool], columns: usize) -> rows::Row
    ensures { result ≡ stripped gone.now columns row }
{
    rows::Row {
        pattern: rows::inner::strip(0, gone, row.masks_in_use()),
        len: columns,
        ..row
    }
}

fn strip_rows(mut m: crate::Matrix, gone: [bool; rules::COLUMNS_MAX]) -> crate::Matrix
    requires { Clean m }
    ensures { result ≡ matrix_from (record { nets = kept (take m.columns gone) (view m).nets; rows = map (λ (r : Row). record { pattern = kept (take m.columns gone) r.pattern; rules = r.rules }) (view m).rows }) }
{
    let n = m.columns;
    let gone = &gone[..n];
    let columns = gone.iter().filter(|goes| !**goes).count();
    let nets = rows::inner::strip(0, gone, &m.value[..n]);
    // By their places: what a loop does to a part of a field that it lends is not known after it.
    for i in 0..m.count {
        m.rows[i] = strip_row(m.rows[i], gone, columns);
    }
    m.value = nets;
    m.columns = columns;
    m
}

// A row that a constant drops is the last one all the same. A slot is blank once its row was read: rows move down in place, so that both are places of one array.
pub fn normalize(mut m: crate::Matrix) -> crate::Matrix
    requires { Clean m }
    ensures { result ≡ matrix_from (normalize (view m)) }
{
    let value = m.value;
    let nets = &value[..m.columns];
    let firsts = rows::inner::firsts(nets);
    let mut used = [false; rules::COLUMNS_MAX];
    let mut last = None;
    let mut k = 0;
    for j in 0..m.count {
        let row = mem::replace(&mut m.rows[j], rows::inner::blank());
        if again(&last, &row) {
            continue;
        }
        last = Some(row);
        if let Some(pattern) = rows::inner::settle(nets, firsts, row.pattern) {
            m.rows[k] = rows::Row { pattern, ..row };
            let marked = mark(used, &pattern[..nets.len()]);
            used = marked;
            k += 1;
        }
    }
    m.count = k;
    let gone = gone(nets, firsts, used);
    strip_rows(m, gone)
}
