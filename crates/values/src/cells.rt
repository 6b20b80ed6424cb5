// Nets asked: given cells, cells past the end, constants, and cells over 9,999.
use crate::ask::{Sign, Table};
use std::io;

// The cell that entry 1 drives.
const SECOND: u16 = rules::CELL_MAX + 2;

pub(crate) fn all(rt: &impl Print) -> io::Result<()> {
    let none = Table {
        muxes: &[],
        used: 0,
        trits: &[1; 5],
    };
    println!(rt; "last trit: {}", none.cell(4))?;
    println!(rt; "past the end: {}", none.cell(5))?;
    println!(rt; "%9999 past the end: {}", none.cell(rules::CELL_MAX))?;
    for asked in [rules::Trit::Zero, rules::Trit::One, rules::Trit::Undef] {
        println!(rt;
            "asked {}: {}",
            Sign(asked),
            none.net(rules::Net::Const(asked))
        )?;
    }
    println!(rt;
        "asked %10000 of no entries: {}",
        none.cell(rules::CELL_MAX + 1)
    )?;
    driven(rt, none.trits)
}

// By the last entry in use, and by none.
fn driven(rt: &impl Print, trits: &[u8]) -> io::Result<()> {
    let two = Table {
        muxes: &[1, 1, 0, 1, 0, 1],
        used: 2,
        trits,
    };
    let one = Table { used: 1, ..two };
    println!(rt; "asked %10001 of two: {}", two.cell(SECOND))?;
    println!(rt; "asked %10001 of one in use: {}", one.cell(SECOND))?;
    println!(rt; "asked %65535: {}", one.cell(65535))
}
