// Bench settings 6, 10, 11 and 12 of 01.
use crate::say::{Kept, Told, blank, cell};
use matrix::Matrix;
use rules::{Net, Trit};
use std::io;

const HEAD: &[u8; 8] = b"[ %0 ]:\n";

const ROW: &[u8; 15] = b"  X => (empty)\n";

// The bytes of a text of 64 such rows, and of one of 65.
pub(crate) const TALL: usize = HEAD.len() + rules::ROWS_MAX * ROW.len();

pub(crate) const TALLER: usize = TALL + ROW.len();

pub(crate) fn all(rt: &impl Print) -> io::Result<()> {
    settings(rt)?;
    setting_12(rt)?;
    setting_12_nets(rt)
}

// 6: "normalized rows X, 0, X"; 10: "merged at %10"; 11: "Trits 0, 1, X, 0, 1 from highest".
fn settings(rt: &impl Print) -> io::Result<()> {
    let m = text::read(b"[ 0 %0 ]:\n  0X => %10\n  X0 => %11\n  XX => %12\n").matrix;
    print!(rt; "setting 6:{}", Told(m.normalize(), m))?;
    let parent = text::read(b"[ %0 ]:\n  1 => %10\n  X => (empty)\n").matrix;
    let child = text::read(b"[ %1 ]:\n  1 => %20\n  X => (empty)\n").matrix;
    print!(rt;
        "setting 10:{}",
        Told(parent.merge(cell(10), child), parent)
    )?;
    let m = Matrix::new(&[3; 5]).matrix;
    print!(rt; "setting 11:{}", Told(m.add(&[1, 0, 2, 1, 0], &[]), m))
}

// "64 rows: enable 1 accepted, enable %5 refused 2. 16 columns: enable 1 accepted, 0 refused 1."
fn setting_12(rt: &impl Print) -> io::Result<()> {
    for (name, m, enable) in [
        ("64 rows, enable 1", tall(), Net::Const(Trit::One)),
        ("64 rows, enable %5", tall(), cell(5)),
        ("16 columns, enable 1", wide(), Net::Const(Trit::One)),
        ("16 columns, enable 0", wide(), Net::Const(Trit::Zero)),
    ] {
        println!(rt; "setting 12, {name}:{}", Kept(m.add_enable(enable), m))?;
    }
    Ok(())
}

// "%9999 accepted, %10000 refused 4."
fn setting_12_nets(rt: &impl Print) -> io::Result<()> {
    print!(rt;
        "setting 12, %9999:{}",
        Told(Matrix::new(&[10002]), blank())
    )?;
    print!(rt;
        "setting 12, %10000:{}",
        Told(Matrix::new(&[10003]), blank())
    )
}

// A matrix of one column and as many rows of a don't-care as there are bytes for.
pub(crate) fn tall_text<const N: usize>() -> [u8; N] {
    let mut text = [0; N];
    if let Some((head, rows)) = text.split_first_chunk_mut() {
        *head = *HEAD;
        for row in rows.chunks_exact_mut(ROW.len()) {
            row.copy_from_slice(ROW);
        }
    }
    text
}

// 64 rows of don't-cares.
pub(crate) fn tall() -> Matrix {
    text::read(&tall_text::<TALL>()).matrix
}

pub(crate) fn wide() -> Matrix {
    text::read(
        b"[ %15 %14 %13 %12 %11 %10 %9 %8 %7 %6 %5 %4 %3 %2 %1 %0 ]:\n  XXXX_XXXX_XXXX_XXXX => %20\n",
    ).matrix
}
