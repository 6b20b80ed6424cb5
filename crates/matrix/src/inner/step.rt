// What dispatch does to a matrix before it normalizes: a net made a constant, and the enable's column.
ghost use Rattle.std.specs.Prelude.{eqb, false, map, ◌≡◌, ◌<◌};
ghost use Rattle.matrix.specs.Mat.{Clean, given, matrix_from, view};
ghost use Rattle.rows.specs.Rows.{row_from, Tidy};
ghost use Rattle.rows.specs.Rows as rows;
ghost use Rattle.rules.specs.Bounds.{columns_max, rows_max};
ghost use Rattle.rules.specs.Codes.{net_code};
ghost use Rattle.rules.specs.Matrix.{add_enable, assume, swap, widened};
ghost use Rattle.rules.specs.Refusals.{enable_table};
ghost use Rattle.rules.specs.Refuse.{refusal};

use crate::inner::tidy;
use rules::Net;

fn swap(target: u16, value: u16, net: u16) -> u16
    ensures { result ≡ swap target value net }
{
    if net == target {
        return value;
    }
    net
}

// A net made a constant, by their codes.
pub fn assume_nets(nets: &mut [u16], target: u16, bit: u8)
    ensures { nets.new ≡ map (swap target bit) nets.old }
{
    for net in nets {
        *net = swap(target, u16::from(bit), *net);
    }
}

// The rows stay as they are. The nets are lent apart: what is done to a part of a field that is lent is not known after it.
pub fn assume(mut m: crate::Matrix, target: u16, value: u8) -> crate::Matrix
    requires { Clean m }
    ensures { result ≡ matrix_from (assume target value (view m)) }
{
    let mut nets = m.value;
    assume_nets(&mut nets[..m.columns], target, value);
    m.value = nets;
    m
}

// The mask 1 in the column after the last.
fn widened(mut r: rows::Row) -> rows::Row
    requires { Tidy r × (r.len < columns_max) }
    ensures { result ≡ row_from (widened (rows.view r)) }
{
    r.pattern[r.len] = 1;
    r.len += 1;
    r
}

// The enable's own row comes first: every old one stands a place further on.
fn enabled(mut m: crate::Matrix, enable: u16) -> crate::Matrix
    requires { Clean m × (m.columns < columns_max) × (m.count < rows_max) × (eqb enable 1 ≡ false) }
    ensures { result ≡ matrix_from (add_enable enable (view m)) }
{
    let n = m.columns;
    let mut rows = [rows::inner::blank(); rules::ROWS_MAX];
    rows[0] = rows::Row {
        pattern: rows::inner::off(n),
        len: n + 1,
        rules: sets::inner::none(),
    };
    for (i, row) in m.rows[..m.count].iter().enumerate() {
        rows[i + 1] = widened(*row);
    }
    m.value[n] = enable;
    crate::Matrix {
        columns: n + 1,
        rows,
        count: m.count + 1,
        ..m
    }
}

pub fn add_enable(m: crate::Matrix, enable: u16) -> crate::Matrix
    requires { Clean m × (eqb enable 1 ≡ false → (m.columns < columns_max) × (m.count < rows_max)) }
    ensures { result ≡ matrix_from (add_enable enable (view m)) }
{
    if enable == 1 {
        return m;
    }
    enabled(m, enable)
}

// The enable added to any matrix that no number of add_enable applies to.
pub fn enable(m: crate::Matrix, enable: Net) -> crate::Matrix
    requires { refusal (enable_table (net_code enable) (given m)) ≡ 0 }
    ensures { result ≡ matrix_from (add_enable (net_code enable) (view m)) }
{
    add_enable(tidy::tidy(m), u32::from(enable) as u16)
}
