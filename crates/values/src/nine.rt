// Setting 9 read, dispatched and lowered, and its value's three nets evaluated.
use crate::ask::{Answer, Sign, Table};
use std::io;

// Numbers of its tree and of its muxes.
const STORE: usize = 3 * tree::inner::NODE_RUN;

const TABLE: usize = 3 * evaluate::inner::MUX_RUN;

// One-hot of %10, %11 and %12.
fn at(rt: &impl Print, name: &str, trits: &[u8]) -> io::Result<()> {
    let m = text::read(b"[ %0 ]:\n  0 => %10 %12\n  X => %11 %12\n").matrix;
    let mut store = [0; STORE];
    let root = match dispatch::dispatch(m, rules::Net::Const(rules::Trit::One), &mut store) {
        Ok(built) => built.root,
        Err(why) => return println!(rt;
            "setting 9, {name}: {}",
            Answer::<Sign>(Err(u8::from(why)))
        ),
    };
    let mut table = [0; TABLE];
    let value = emit::one_hot(&store, root, &[13, 14, 15], 0, &mut table);
    let table = Table {
        muxes: &table,
        used: value.used,
        trits,
    };
    for &net in value.nets.iter().take(value.width) {
        println!(rt; "setting 9, {name}: {}", table.net(rules::Net::from(net)))?;
    }
    Ok(())
}

pub(crate) fn values(rt: &impl Print) -> io::Result<()> {
    at(rt, "no trits", &[])?;
    at(rt, "%0 is X", &[2])?;
    at(rt, "%0 is 0", &[0])?;
    at(rt, "%0 is 1", &[1])
}
