// Settings of 01, and the last accepted and first refused input of every number that a call on matrices or texts gives.
// The lines of `stdout` are 01's own words and numbers; docs/SETTINGS.md says which sentence or sum each is from.
#![tactic(auto)]

mod adds;
mod bench;
mod handed;
mod merges;
mod news;
mod outs;
mod prints;
mod reads;
mod say;
mod steps;
mod tally;
mod wrong;

use std::io;

fn main(rt: HostRuntime) -> io::Result<()> {
    bench::all(&rt)?;
    news::all(&rt)?;
    adds::all(&rt)?;
    handed::all(&rt)?;
    merges::all(&rt)?;
    steps::all(&rt)?;
    outs::all(&rt)?;
    prints::all(&rt)?;
    reads::all(&rt)?;
    wrong::all(&rt)
}
