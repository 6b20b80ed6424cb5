// All rules of all rows as one set.
ghost use Rattle.std.specs.Prelude.{[], ◌≡◌};
ghost use Rattle.lists.specs.Vec.{vec};
ghost use Rattle.matrix.specs.Faults.{Fits};
ghost use Rattle.matrix.specs.Mat.{view};
ghost use Rattle.matrix.specs.Outs.{outputs_from};
ghost use Rattle.rules.specs.Bounds.{outputs_max};
ghost use Rattle.rules.specs.Matrix.{outputs};
ghost use Rattle.rules.specs.Refuse.{done, refused};
ghost use Rattle.rules.specs.Refused.{number_of};

use crate::{Matrix, Outputs};
use rules::Refusal;

// Alone, since an array of so many zeros would stand in every goal of its function.
fn zeros() -> [u16; rules::ROWS_MAX * rules::RULES_MAX]
    ensures { result ≡ vec outputs_max 0 [] }
{
    [0; rules::ROWS_MAX * rules::RULES_MAX]
}

pub fn refused(why: Refusal) -> Outputs
    ensures { result ≡ outputs_from (refused (number_of why)) }
{
    Outputs {
        no: u8::from(why),
        nets: zeros(),
        count: 0,
    }
}

// From the last rule of the last row to the first of the first.
pub fn outputs(m: &Matrix) -> Outputs
    requires { Fits m.now }
    ensures { result ≡ outputs_from (done (outputs (view m.now))) }
{
    let mut nets = zeros();
    let mut count = 0;
    for row in m.rows_in_use().iter().rev() {
        for rule in row.rules.slice().iter().rev() {
            count = sets::inner::insert(&mut nets, count, *rule);
        }
    }
    Outputs { no: 0, nets, count }
}
