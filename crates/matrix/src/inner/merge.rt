// merge: how many rows it makes, whether one of them has too many rules, and the rows themselves.
ghost use Rattle.std.specs.Prelude.{leb, length, cond, not, map, [], ◌++◌, ◌∷◌, ◌≡◌, ◌+◌, ◌≤◌};
ghost use Rattle.lists.specs.Lists.{all, mem};
ghost use Rattle.matrix.specs.Mat.{Clean, matrix_from, view};
ghost use Rattle.rows.specs.Rows as rows;
ghost use Rattle.rows.specs.Rows.{row_from, Tidy};
ghost use Rattle.rules.specs.Bounds.{columns_max, rows_max, rules_max};
ghost use Rattle.rules.specs.Given.{Sized, SizedRows, too_many};
ghost use Rattle.rules.specs.Matrix.{Row, alone, joined, merge, merge_rows, union};
ghost use Rattle.sets.specs.Sets.{list_of};

use crate::Matrix;

fn share(named: sets::Rules, t: u16, k: usize) -> usize
    ensures { (result ≡ cond (mem t (list_of named)) k 1) × (result ≤ k + 1) }
{
    if named.holds(t) { k } else { 1 }
}

pub fn count_rows(m: &Matrix, t: u16, child: &Matrix) -> usize
    ensures { result ≡ length (merge_rows t (view child.now) (view m.now).rows) }
{
    let k = child.rows_in_use().len();
    let mut total = 0;
    for row in m.rows_in_use() {
        total += share(row.rules, t, k);
    }
    total
}

fn crowded(named: sets::Rules, more: sets::Rules) -> bool
    ensures { result ≡ not (leb (length (union (list_of named) (list_of more))) rules_max) }
{
    sets::inner::united(named, more).fit().is_none()
}

// Against every row of the child.
fn over(named: sets::Rules, child: &Matrix) -> bool
    ensures { result ≡ not (all (λ (c : Row). leb (length (union (list_of named) c.rules)) rules_max) (view child.now).rows) }
{
    child
        .rows_in_use()
        .iter()
        .any(|other| crowded(named, other.rules))
}

// A row that stays alone keeps its rules: there are no slots for too many.
fn row_over(row: rows::Row, t: u16, child: &Matrix) -> bool
    ensures { result ≡ not (all (λ (x : Row). leb (length x.rules) rules_max) (merge_rows t (view child.now) (rows.view row ∷ []))) }
{
    row.rules.holds(t) && over(row.rules, child)
}

pub fn too_many(m: &Matrix, t: u16, child: &Matrix) -> bool
    ensures { result ≡ too_many (merge t (view m.now) (view child.now)) }
{
    m.rows_in_use().iter().any(|row| row_over(*row, t, child))
}

fn joined(row: rows::Row, other: rows::Row) -> rows::Row
    requires { Tidy row × Tidy other × (row.len + other.len ≤ columns_max) × (length (union (rows.view row).rules (rows.view other).rules) ≤ rules_max) }
    ensures { result ≡ row_from (joined (rows.view row) (rows.view other)) }
{
    rows::Row {
        pattern: rows::inner::joined(0, row.masks_in_use(), other.masks_in_use()),
        len: row.len + other.len,
        rules: sets::inner::united(row.rules, other.rules).fit().unwrap(),
    }
}

fn alone(row: rows::Row, w: usize) -> rows::Row
    requires { Tidy row × (row.len + w ≤ columns_max) }
    ensures { result ≡ row_from (alone w (rows.view row)) }
{
    rows::Row {
        pattern: rows::inner::alone(row.masks_in_use(), w),
        len: row.len + w,
        ..row
    }
}

// Behind the rows made so far, one for each of the child's.
fn add_joined(mut made: Matrix, row: rows::Row, child: Matrix) -> Matrix
    requires { Clean made × Clean child × Tidy row × (made.count + child.count ≤ rows_max) × SizedRows made.columns (map (joined (rows.view row)) (view child).rows) }
    ensures { result ≡ matrix_from (record { nets = (view made).nets; rows = (view made).rows ++ map (joined (rows.view row)) (view child).rows }) }
{
    for (i, other) in child.rows[..child.count].iter().enumerate() {
        made.rows[made.count + i] = joined(row, *other);
    }
    made.count += child.count;
    made
}

fn add_row(mut made: Matrix, row: rows::Row, t: u16, child: Matrix) -> Matrix
    requires { Clean made × Clean child × Tidy row × (made.count + length (merge_rows t (view child) (rows.view row ∷ [])) ≤ rows_max) × SizedRows made.columns (merge_rows t (view child) (rows.view row ∷ [])) }
    ensures { result ≡ matrix_from (record { nets = (view made).nets; rows = (view made).rows ++ merge_rows t (view child) (rows.view row ∷ []) }) }
{
    if row.rules.holds(t) {
        return add_joined(made, row, child);
    }
    made.rows[made.count] = alone(row, child.columns);
    made.count += 1;
    made
}

pub fn merge(m: Matrix, t: u16, child: Matrix) -> Matrix
    requires { Clean m × Clean child × Sized (merge t (view m) (view child)) }
    ensures { result ≡ matrix_from (merge t (view m) (view child)) }
{
    let mut made = Matrix {
        value: rows::inner::joined(0, &m.value[..m.columns], &child.value[..child.columns]),
        columns: m.columns + child.columns,
        rows: [rows::inner::blank(); rules::ROWS_MAX],
        count: 0,
    };
    for row in &m.rows[..m.count] {
        made = add_row(made, *row, t, child);
    }
    made
}
