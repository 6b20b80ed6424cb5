// Tables that are malformed, and what of a table is not read.
use crate::ask::Table;
use std::io;

// Numbers of a table of 8,192 entries, and of one of more.
const FULL: usize = rules::MUX_MAX * evaluate::inner::MUX_RUN;

const LONG: usize = FULL + 8 * evaluate::inner::MUX_RUN;

// The last cell that an entry drives.
const LAST: u16 = rules::CELL_MAX + rules::MUX_MAX as u16;

pub(crate) fn forms(rt: &impl Print) -> io::Result<()> {
    let cases: [(&str, &[u16], usize); 8] = [
        ("more in use", &[0, 0, 0], 2),
        ("more in use than whole", &[0, 0, 0, 0, 0], 2),
        ("2^64 - 1 in use", &[0, 0, 0], usize::MAX),
        ("by itself", &[10003, 0, 0], 1),
        ("by a later", &[0, 0, 10004, 0, 0, 0], 2),
        ("by none", &[0, 18194, 0], 1),
        ("no net", &[0, 0, 18195], 1),
        ("past the count", &[0, 0, 0, 65535, 65535, 65535], 1),
    ];
    for (name, muxes, used) in cases {
        let table = Table {
            muxes,
            used,
            trits: &[],
        };
        println!(rt; "{name}: {}", table.form())?;
    }
    Ok(())
}

pub(crate) fn full(rt: &impl Print) -> io::Result<()> {
    let ones = [1; FULL];
    let table = Table {
        muxes: &ones,
        used: rules::MUX_MAX,
        trits: &[],
    };
    println!(rt; "8,192 in use: {}", table.cell(LAST))
}

pub(crate) fn long(rt: &impl Print) -> io::Result<()> {
    let ones = [1; LONG];
    let table = Table {
        muxes: &ones,
        used: rules::MUX_MAX,
        trits: &[],
    };
    println!(rt; "8,192 in use, asked %18192: {}", table.cell(LAST + 1))?;
    let over = Table {
        used: rules::MUX_MAX + 1,
        ..table
    };
    println!(rt; "8,193 in use: {}", over.form())
}
