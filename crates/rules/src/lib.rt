// Document 01 as definitions: `specs/` has a file a section, `proofs/` the laws of the definitions alone.
// Here are only the types of trits, nets, places and refusals, their numbers, and the bounds; no operation on them.
#![tactic(auto)]

mod bounds;
mod convert;
mod refusal;

pub use refusal::Refusal;

#[derive(Clone, Copy)]
pub enum Trit {
    Zero,
    One,
    Undef,
}

// The number of a cell net, a column of a matrix, and an entry of the node store: three kinds that never mix.
#[derive(Clone, Copy)]
pub struct Cell(pub u16);

#[derive(Clone, Copy)]
pub struct Column(pub usize);

#[derive(Clone, Copy)]
pub struct Place(pub usize);

#[derive(Clone, Copy)]
pub enum Net {
    Const(Trit),
    Cell(Cell),
}

pub const COLUMNS_MAX: usize = 16;

pub const ROWS_MAX: usize = 64;

pub const RULES_MAX: usize = 8;

pub const NODES_MAX: usize = 1024;

pub const WIDTH_MAX: usize = 64;

pub const MUX_MAX: usize = 8192;

pub const CELL_MAX: u16 = 9999;

// The codes of the trit X, and of cell 0: the constants' come before it.
pub const UNDEF: u8 = 2;

pub const FIRST_CELL: u16 = 3;

// The codes of the last cell that may stand in a matrix, and of the net that the last mux drives.
pub const LAST_CELL: u16 = FIRST_CELL + CELL_MAX;

pub const LAST_NET: u16 = LAST_CELL + MUX_MAX as u16;
