// What new and add make: a matrix of the nets in a slice, and one row more.
ghost use Rattle.std.specs.Prelude.{length, [], ◌++◌, ◌∷◌, ◌≡◌, ◌<◌, ◌≤◌};
ghost use Rattle.matrix.specs.Mat.{Clean, matrix_from, view};
ghost use Rattle.rows.specs.Rows.{row_from, Tidy, view as viewed};
ghost use Rattle.rules.specs.Bounds.{columns_max, rows_max};
ghost use Rattle.rules.specs.Matrix.{new};
ghost use Rattle.sets.specs.Sets.{list_of, rules_from};

use crate::inner::blank;

pub fn fresh(nets: &[u16]) -> crate::Matrix
    requires { length nets.now ≤ columns_max }
    ensures { result ≡ matrix_from (new nets.now) }
{
    crate::Matrix {
        value: rows::inner::tidy(0, nets),
        columns: nets.len(),
        ..blank::none()
    }
}

pub fn row(pattern: &[u8], rules: sets::Rules) -> rows::Row
    requires { (length pattern.now ≤ columns_max) × (rules ≡ rules_from (list_of rules)) }
    ensures { result ≡ row_from (record { pattern = pattern.now; rules = list_of rules }) }
{
    rows::Row {
        pattern: rows::inner::tidy(0, pattern),
        len: pattern.len(),
        rules,
    }
}

// One row more, the last.
pub fn push(mut m: crate::Matrix, row: rows::Row) -> crate::Matrix
    requires { Clean m × (m.count < rows_max) × Tidy row }
    ensures { result ≡ matrix_from (record { nets = (view m).nets; rows = (view m).rows ++ (viewed row ∷ []) }) }
{
    m.rows[m.count] = row;
    m.count += 1;
    m
}
