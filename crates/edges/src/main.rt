// Settings 1 to 9 of 01 on the code, the edges of stores, tables, updates and prefixes, and trees handed in, run and written out.
// The lines of `stdout` are 01's own words and numbers, or arithmetic on them; docs/EDGES.md says which.
#![tactic(auto)]

mod ahead;
mod apart;
mod chain;
mod handed;
mod hot;
mod numbers;
mod planted;
mod say;
mod trees;

use std::io;

fn main(rt: HostRuntime) -> io::Result<()> {
    stores(&rt)?;
    one_hots(&rt)?;
    disjoints(&rt)?;
    prefixes(&rt)?;
    handed_in(&rt)?;
    texts(&rt)?;
    chains(&rt)
}

fn stores(rt: &impl Print) -> io::Result<()> {
    planted::settings(rt)?;
    planted::more_settings(rt)?;
    planted::lengths(rt)?;
    planted::long_lengths(rt)?;
    planted::no_catch(rt)?;
    planted::orders(rt)?;
    planted::more_orders(rt)
}

fn one_hots(rt: &impl Print) -> io::Result<()> {
    hot::settings(rt)?;
    hot::widths(rt)?;
    hot::nets(rt)?;
    hot::rooms(rt)?;
    hot::long_tables(rt)?;
    hot::tables(rt)?;
    hot::malformed(rt)
}

fn disjoints(rt: &impl Print) -> io::Result<()> {
    apart::updates(rt)?;
    apart::overlaps(rt)?;
    apart::widths(rt)?;
    apart::nets(rt)?;
    apart::rooms(rt)?;
    apart::tables(rt)?;
    apart::long_tables(rt)?;
    apart::malformed(rt)
}

fn prefixes(rt: &impl Print) -> io::Result<()> {
    ahead::lengths(rt)?;
    ahead::leaves(rt)?;
    ahead::codes(rt)
}

fn handed_in(rt: &impl Print) -> io::Result<()> {
    handed::leaves(rt)?;
    handed::runs(rt)?;
    handed::roots(rt)?;
    handed::branches(rt)?;
    handed::paths(rt)
}

fn texts(rt: &impl Print) -> io::Result<()> {
    handed::rooms(rt)?;
    handed::bad_text(rt)
}

fn chains(rt: &impl Print) -> io::Result<()> {
    chain::deepest(rt)?;
    chain::spoiled(rt)?;
    chain::longer(rt)
}
