// The matrix: nets for its columns and rows in order, each with a count; the check of one handed in, and every operation on it.
// An operation takes the matrix by value and hands it back, the refusal beside it.
#![tactic(auto)]

ghost use Rattle.std.specs.Prelude.{◌≡◌};
ghost use Rattle.matrix.specs.Mat.{given, made_from};
ghost use Rattle.matrix.specs.Outs.{outputs_from};
ghost use Rattle.rules.specs.Answers.{add_answer, assume_answer, enable_answer, merge_answer, new_answer, normalize_answer, outputs_answer};
ghost use Rattle.rules.specs.Codes.{net_code, trit_code};
ghost use Rattle.rules.specs.Refused.{number_of};

use rules::{Net, Refusal, Trit};

#[repr(C)]
#[derive(Clone, Copy, PartialEq, Eq)]
pub struct Matrix {
    pub value: [u16; rules::COLUMNS_MAX],
    pub columns: usize,
    pub rows: [rows::Row; rules::ROWS_MAX],
    pub count: usize,
}

// 01's number, 0 where accepted, and the matrix: the one made, or the one handed in.
#[repr(C)]
#[derive(Clone, Copy)]
pub struct Made {
    pub no: u8,
    pub matrix: Matrix,
}

// 01's number, 0 where accepted, and the nets that some row names.
#[repr(C)]
#[derive(Clone, Copy)]
pub struct Outputs {
    pub no: u8,
    pub nets: [u16; rules::ROWS_MAX * rules::RULES_MAX],
    pub count: usize,
}

// Which numbers apply to a matrix by itself.
#[derive(Clone, Copy, Default)]
pub struct Faults {
    pub form: bool,
    pub columns: bool,
    pub rows: bool,
    pub shape: bool,
    pub net: bool,
    pub rules: bool,
}

pub mod inner;

impl Made {
    fn done(matrix: Matrix) -> Made
        ensures { result ≡ record { no = 0; matrix = matrix } }
    {
        Made { no: 0, matrix }
    }

    fn refused(why: Refusal, matrix: Matrix) -> Made
        ensures { result ≡ record { no = number_of why; matrix = matrix } }
    {
        Made {
            no: u8::from(why),
            matrix,
        }
    }
}

impl Matrix {
    // A refused new matrix is the one without columns and rows.
    pub fn new(nets: &[u16]) -> Made
        ensures { result ≡ made_from (new_answer nets.now) }
    {
        if let Err(why) = inner::numbers::new(nets) {
            return Made::refused(why, inner::blank::none());
        }
        Made::done(inner::build::fresh(nets))
    }

    // One row more, the last, with its rules as a set.
    pub fn add(mut self, pattern: &[u8], rules: &[u16]) -> Made
        ensures { result ≡ made_from (add_answer pattern.now rules.now (given self)) }
    {
        let set = match inner::numbers::add(&self, pattern, rules) {
            Ok(set) => set,
            Err(why) => return Made::refused(why, self),
        };
        self = inner::tidy::tidy(self);
        self = inner::build::push(self, inner::build::row(pattern, set));
        Made::done(self)
    }

    // Every row that names the net is joined with each of the child's.
    pub fn merge(mut self, at: Net, child: Matrix) -> Made
        ensures { result ≡ made_from (merge_answer (net_code at) (given self) (given child)) }
    {
        let at = u32::from(at);
        if let Err(why) = inner::numbers::merge(&self, at, &child) {
            return Made::refused(why, self);
        }
        self = inner::tidy::tidy(self);
        self = inner::merge::merge(self, at as u16, inner::tidy::tidy(child));
        Made::done(self)
    }

    // The target becomes the constant in every column that has it.
    pub fn assume(mut self, target: Net, value: Trit) -> Made
        ensures { result ≡ made_from (assume_answer (net_code target) (trit_code value) (given self)) }
    {
        let target = u32::from(target);
        if let Err(why) = inner::numbers::assume(&self, target) {
            return Made::refused(why, self);
        }
        self = inner::tidy::tidy(self);
        self = inner::step::assume(self, target as u16, u8::from(value));
        Made::done(self)
    }

    // A last column for the enable and a first row without rules, but for the constant 1.
    pub fn add_enable(mut self, enable: Net) -> Made
        ensures { result ≡ made_from (enable_answer (net_code enable) (given self)) }
    {
        if let Err(why) = inner::numbers::add_enable(&self, u32::from(enable)) {
            return Made::refused(why, self);
        }
        self = inner::step::enable(self, enable);
        Made::done(self)
    }

    pub fn normalize(mut self) -> Made
        ensures { result ≡ made_from (normalize_answer (given self)) }
    {
        if let Err(why) = inner::check::check(&self) {
            return Made::refused(why, self);
        }
        self = inner::tidy::tidy(self);
        self = inner::normal::normalize(self);
        Made::done(self)
    }

    // All rules of all rows, ascending, each once.
    pub fn outputs(self) -> Outputs
        ensures { result ≡ outputs_from (outputs_answer (given self)) }
    {
        match inner::check::check(&self) {
            Ok(()) => inner::outs::outputs(&self),
            Err(why) => inner::outs::refused(why),
        }
    }
}
