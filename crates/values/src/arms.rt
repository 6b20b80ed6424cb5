// A mux whose select is unknown, and muxes whose select is not.
use crate::ask::{Answer, Sign, Table};
use std::io;

// The cells that the first two entries drive.
const FIRST: u16 = rules::CELL_MAX + 1;

const SECOND: u16 = FIRST + 1;

fn mux(muxes: &[u16]) -> Answer<Sign> {
    Table {
        muxes,
        used: 1,
        trits: &[],
    }
    .cell(FIRST)
}

pub(crate) fn unknown(rt: &impl Print) -> io::Result<()> {
    for (name, entry) in [
        ("select X, arms 1", [2, 1, 1]),
        ("select X, arms 0", [2, 0, 0]),
        ("select X, arms X", [2, 2, 2]),
        ("select X, arms 1 and 0", [2, 1, 0]),
        ("select %0 unknown, arms %1 unknown", [3, 4, 4]),
    ] {
        println!(rt; "{name}: {}", mux(&entry))?;
    }
    Ok(())
}

pub(crate) fn known(rt: &impl Print) -> io::Result<()> {
    println!(rt; "select 1: {}", mux(&[1, 0, 1]))?;
    println!(rt; "select 0: {}", mux(&[0, 0, 1]))?;
    let two = Table {
        muxes: &[2, 1, 1, 10003, 0, 1],
        used: 2,
        trits: &[],
    };
    println!(rt; "an entry before: {}", two.cell(SECOND))
}
