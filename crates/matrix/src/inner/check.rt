// What is wrong with a matrix handed in: each condition by itself, total at any counts, and the number that is given.
ghost use Rattle.std.specs.Prelude.{length, take, ◌&&◌, [], ◌∷◌, ◌≡◌, ◌≤◌};
ghost use Rattle.lists.specs.Lists.{all};
ghost use Rattle.matrix.specs.Faults.{either, faults_of, formed, named, table};
ghost use Rattle.matrix.specs.Mat.{given};
ghost use Rattle.rules.specs.Bounds.{columns_max, rows_max};
ghost use Rattle.rules.specs.Given.{matrix_table};
ghost use Rattle.rules.specs.Nets.{is_net};
ghost use Rattle.rules.specs.Refusals.{all_low};
ghost use Rattle.rules.specs.Refuse.{refusal};
ghost use Rattle.rules.specs.Refused.{number_or_0};

use crate::inner::codes;
use crate::{Faults, Matrix};
use rules::Refusal;

impl Faults {
    pub fn or(self, other: Faults) -> Faults
        ensures { result ≡ either self other }
    {
        Faults {
            form: self.form | other.form,
            columns: self.columns | other.columns,
            rows: self.rows | other.rows,
            shape: self.shape | other.shape,
            net: self.net | other.net,
            rules: self.rules | other.rules,
        }
    }

    // 12 is tested first; then the lowest that applies.
    pub fn first(self) -> Result<(), Refusal>
        ensures { number_or_0 result ≡ refusal (table self) }
    {
        if self.form {
            Err(Refusal::Form)
        } else if self.columns {
            Err(Refusal::Columns)
        } else if self.rows {
            Err(Refusal::Rows)
        } else if self.shape {
            Err(Refusal::Shape)
        } else if self.net {
            Err(Refusal::Net)
        } else if self.rules {
            Err(Refusal::Rules)
        } else {
            Ok(())
        }
    }
}

impl Matrix {
    // The columns and the rows in use: a count may say more than there are slots.
    pub fn nets_in_use(&self) -> &[u16]
        ensures few { length result.now ≤ columns_max }
        ensures items { result.now ≡ take self.now.columns self.now.value }
    {
        let n = self.columns.min(rules::COLUMNS_MAX);
        &self.value[..n]
    }

    pub fn rows_in_use(&self) -> &[rows::Row]
        ensures few { length result.now ≤ rows_max }
        ensures items { result.now ≡ take self.now.count self.now.rows }
    {
        let n = self.count.min(rules::ROWS_MAX);
        &self.rows[..n]
    }
}

pub fn low(items: &[u16]) -> bool
    ensures { result ≡ all_low items.now }
{
    items.iter().all(|x| !codes::over(u32::from(*x)))
}

fn row_formed(r: &rows::Row) -> bool
    ensures { result ≡ formed r.now }
{
    rows::inner::trits(r.masks_in_use())
        && sets::inner::nets(r.rules.slice())
        && r.rules.ascending()
}

fn rows_formed(rows: &[rows::Row]) -> bool
    ensures { result ≡ all formed rows.now }
{
    rows.iter().all(row_formed)
}

fn rows_named(rows: &[rows::Row]) -> bool
    ensures { result ≡ all named rows.now }
{
    rows.iter().all(|r| r.rules.named())
}

// Where a column has a number that codes no net, no row is looked at.
fn is_formed(nets: &[u16], rows: &[rows::Row]) -> bool
    ensures { result ≡ (all is_net nets.now && all formed rows.now) }
{
    sets::inner::nets(nets) && rows_formed(rows)
}

// Where a column has a cell over 9,999, no row is looked at.
fn is_low(nets: &[u16], rows: &[rows::Row]) -> bool
    ensures { result ≡ (all_low nets.now && all named rows.now) }
{
    low(nets) && rows_named(rows)
}

// All six at once, for the calls that add conditions of their own.
pub fn faults(m: &Matrix) -> Faults
    ensures { result ≡ faults_of (given m.now) }
{
    let nets = m.nets_in_use();
    let rows = m.rows_in_use();
    let shaped = rows.iter().all(|r| r.len == m.columns);
    let few = rows.iter().all(|r| r.rules.count <= rules::RULES_MAX);
    Faults {
        form: !is_formed(nets, rows),
        columns: m.columns > rules::COLUMNS_MAX,
        rows: m.count > rules::ROWS_MAX,
        shape: !shaped,
        net: !is_low(nets, rows),
        rules: !few,
    }
}

pub fn check(m: &Matrix) -> Result<(), Refusal>
    ensures { number_or_0 result ≡ refusal (matrix_table (given m.now)) }
{
    faults(m).first()
}
