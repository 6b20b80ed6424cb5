// A matrix as a call hands it on: 0 past every count, whatever stood there, and no count past the slots.
ghost use Rattle.std.specs.Prelude.{◌≡◌};
ghost use Rattle.matrix.specs.Mat.{matrix_from, view};
ghost use Rattle.rows.specs.Rows.{row_from, view as viewed};

use crate::Matrix;

fn tidy_row(r: &rows::Row) -> rows::Row
    ensures { result ≡ row_from (viewed r.now) }
{
    let masks = r.masks_in_use();
    rows::Row {
        pattern: rows::inner::tidy(0, masks),
        len: masks.len(),
        rules: rows::inner::tidy_rules(r.rules),
    }
}

pub fn tidy(m: Matrix) -> Matrix
    ensures { result ≡ matrix_from (view m) }
{
    let nets = m.nets_in_use();
    let rows = m.rows_in_use();
    let mut made = [rows::inner::blank(); rules::ROWS_MAX];
    for (i, row) in rows.iter().enumerate() {
        made[i] = tidy_row(row);
    }
    Matrix {
        value: rows::inner::tidy(0, nets),
        columns: nets.len(),
        rows: made,
        count: rows.len(),
    }
}
