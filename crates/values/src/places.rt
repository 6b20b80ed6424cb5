// The trits in use, up to place 9,999, and one past them.
use crate::ask::{Answer, Sign, Table};
use std::io;

const LAST: usize = rules::CELL_MAX as usize;

const TRITS: usize = LAST + 2;

fn last(trits: &[u8]) -> Answer<Sign> {
    Table {
        muxes: &[],
        used: 0,
        trits,
    }
    .cell(rules::CELL_MAX)
}

pub(crate) fn all(rt: &impl Print) -> io::Result<()> {
    let mut trits = [1u8; TRITS];
    trits[LAST] = 0;
    println!(rt; "%9999 is 0: {}", last(&trits))?;
    trits[LAST + 1] = 3;
    println!(rt; "no trit at 10,000: {}", last(&trits))?;
    trits[LAST] = 3;
    println!(rt; "no trit at 9,999: {}", last(&trits))?;
    trits[LAST] = 2;
    println!(rt; "a trit at 9,999: {}", last(&trits))?;
    trits[0] = 255;
    println!(rt; "no trit at 0: {}", last(&trits))
}
