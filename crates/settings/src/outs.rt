// `outputs`: none, and as many as there can be.
use crate::say::blank;
use matrix::{Matrix, Outputs};
use std::io;

const ROWS: u16 = rules::ROWS_MAX as u16;

const RULES: u16 = rules::RULES_MAX as u16;

pub(crate) fn all(rt: &impl Print) -> io::Result<()> {
    told(rt, "no rows", &blank().outputs())?;
    let empty = text::read(b"[ %0 ]:\n  0 => (empty)\n  X => (empty)\n").matrix;
    told(rt, "rows without rules", &empty.outputs())?;
    few(rt)?;
    most(rt)
}

fn told(rt: &impl Print, name: &str, outputs: &Outputs) -> io::Result<()> {
    println!(rt; "outputs of {name}: {} count {}", outputs.no, outputs.count)
}

// The codes of %1, %7 and %9999, each once, and 0 after them.
fn few(rt: &impl Print) -> io::Result<()> {
    let m = text::read(b"[ %0 ]:\n  0 => %7 %9999\n  1 => %1 %7\n  X => %9999\n").matrix;
    let outputs = m.outputs();
    told(rt, "%7 %9999, %1 %7, %9999", &outputs)?;
    for (place, net) in ["first", "second", "third", "fourth"]
        .iter()
        .zip(outputs.nets)
    {
        println!(rt; "{place} {net}")?;
    }
    Ok(())
}

// Each row has the eight cells before those of the row above, and names them descending: its cells are computed from its number.
fn full() -> Matrix {
    let mut m = text::read(b"[ %0 ]:\n").matrix;
    for row in (0..ROWS).rev() {
        let b = RULES * row + rules::FIRST_CELL;
        m = m
            .add(&[2], &[b + 7, b + 6, b + 5, b + 4, b + 3, b + 2, b + 1, b])
            .matrix;
    }
    m
}

// How many places hold the cell of their own number.
fn in_place(nets: &[u16]) -> usize {
    nets.iter()
        .zip(rules::FIRST_CELL..)
        .filter(|(net, code)| **net == *code)
        .count()
}

fn most(rt: &impl Print) -> io::Result<()> {
    let outputs = full().outputs();
    told(rt, "64 rows of 8", &outputs)?;
    let [first, .., last] = outputs.nets;
    println!(rt; "first {first}")?;
    println!(rt; "last {last}")?;
    println!(rt; "at the place of its number {}", in_place(&outputs.nets))
}
