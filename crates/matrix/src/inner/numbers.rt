// Whether each call refuses: what is wrong with the matrix handed in, and what the call adds to that.
ghost use Rattle.std.specs.Prelude.{IfOk, ◌≡◌};
ghost use Rattle.matrix.specs.Mat.{given};
ghost use Rattle.rules.specs.Matrix.{set_of};
ghost use Rattle.rules.specs.Refusals.{add_table, assume_table, enable_table, merge_table, new_table};
ghost use Rattle.rules.specs.Refuse.{refusal};
ghost use Rattle.rules.specs.Refused.{number_or_0};
ghost use Rattle.sets.specs.Sets.{rules_from};

use crate::inner::merge::{count_rows, too_many};
use crate::inner::{check, codes};
use crate::{Faults, Matrix};
use rules::Refusal;

pub fn new(nets: &[u16]) -> Result<(), Refusal>
    ensures { number_or_0 result ≡ refusal (new_table nets.now) }
{
    let own = Faults {
        form: !sets::inner::nets(nets),
        columns: nets.len() > rules::COLUMNS_MAX,
        net: !check::low(nets),
        ..Faults::default()
    };
    own.first()
}

// The rules as a set, which are too many where there is none.
pub fn add(m: &Matrix, pattern: &[u8], rules: &[u16]) -> Result<sets::Rules, Refusal>
    ensures number { number_or_0 result ≡ refusal (add_table (given m.now) pattern.now rules.now) }
    ensures set { IfOk result (λ s. s ≡ rules_from (set_of rules.now)) }
{
    let own = Faults {
        form: !(rows::inner::trits(pattern) & sets::inner::nets(rules)),
        rows: m.rows_in_use().len() >= rules::ROWS_MAX,
        shape: pattern.len() != m.columns,
        net: !sets::inner::names(rules),
        ..Faults::default()
    };
    check::faults(m).or(own).first()?;
    sets::inner::collect(rules).ok_or(Refusal::Rules)
}

// The enable's column and row are one more of each, but for the constant 1.
pub fn add_enable(m: &Matrix, enable: u32) -> Result<(), Refusal>
    ensures { number_or_0 result ≡ refusal (enable_table enable (given m.now)) }
{
    let adds = enable != 1;
    let own = Faults {
        columns: adds & (m.nets_in_use().len() >= rules::COLUMNS_MAX),
        rows: adds & (m.rows_in_use().len() >= rules::ROWS_MAX),
        net: codes::over(enable),
        ..Faults::default()
    };
    check::faults(m).or(own).first()
}

pub fn assume(m: &Matrix, target: u32) -> Result<(), Refusal>
    ensures { number_or_0 result ≡ refusal (assume_table target (given m.now)) }
{
    let own = Faults {
        net: codes::over(target),
        ..Faults::default()
    };
    check::faults(m).or(own).first()
}

pub fn merge(m: &Matrix, at: u32, child: &Matrix) -> Result<(), Refusal>
    ensures { number_or_0 result ≡ refusal (merge_table at (given m.now) (given child.now)) }
{
    let columns = m.nets_in_use().len() + child.nets_in_use().len();
    let t = codes::clip(at);
    let own = Faults {
        columns: columns > rules::COLUMNS_MAX,
        rows: count_rows(m, t, child) > rules::ROWS_MAX,
        net: !sets::inner::is_name(at),
        rules: too_many(m, t, child),
        ..Faults::default()
    };
    check::faults(m).or(check::faults(child).or(own)).first()
}
