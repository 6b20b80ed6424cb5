// `new`: every code as the one column, and the edges of the column count.
use crate::say::{Told, blank};
use crate::tally::Tally;
use matrix::Matrix;
use std::io;

pub(crate) fn all(rt: &impl Print) -> io::Result<()> {
    each(rt)?;
    counts(rt)
}

fn each(rt: &impl Print) -> io::Result<()> {
    let mut tally = Tally::default();
    for code in 0..=u16::MAX {
        tally.count(Matrix::new(&[code]).no);
    }
    println!(rt; "new of every code: {tally}")
}

// 12 first, then the lowest.
fn counts(rt: &impl Print) -> io::Result<()> {
    let cases: [(&str, &[u16]); 6] = [
        ("0 columns", &[]),
        ("16 columns", &[3; rules::COLUMNS_MAX]),
        ("17 columns", &[3; rules::COLUMNS_MAX + 1]),
        ("17 columns, all %10000", &[10003; rules::COLUMNS_MAX + 1]),
        ("17 columns, all no net", &[18195; rules::COLUMNS_MAX + 1]),
        ("%10000 and a code that is no net", &[10003, 18195]),
    ];
    for (name, nets) in cases {
        print!(rt; "new of {name}:{}", Told(Matrix::new(nets), blank()))?;
    }
    Ok(())
}
