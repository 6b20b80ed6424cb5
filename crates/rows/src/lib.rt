// A row: a pattern of trit codes and a rule set, each with its own count; and the loops of normalize over one row.
// Nothing here knows the matrix.
#![tactic(auto)]

#[repr(C)]
#[derive(Clone, Copy, PartialEq, Eq)]
pub struct Row {
    pub pattern: [u8; rules::COLUMNS_MAX],
    pub len: usize,
    pub rules: sets::Rules,
}

// The nets of a line or of a matrix.
#[derive(Clone, Copy)]
pub struct Nets {
    pub value: [u16; rules::COLUMNS_MAX],
    pub columns: usize,
}

pub mod inner;
