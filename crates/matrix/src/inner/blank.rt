// The matrix that every other is built from.
ghost use Rattle.std.specs.Prelude.{◌≡◌};
ghost use Rattle.matrix.specs.Mat.{matrix_from};
ghost use Rattle.rules.specs.Matrix.{none_yet};

// Without columns and rows.
pub fn none() -> crate::Matrix
    ensures { result ≡ matrix_from none_yet }
{
    crate::Matrix {
        value: [0; rules::COLUMNS_MAX],
        columns: 0,
        rows: [rows::inner::blank(); rules::ROWS_MAX],
        count: 0,
    }
}
