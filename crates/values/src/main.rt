// The edges of the codes, setting 9's values on the code, and the edges of the evaluator, run and written out.
// The lines of `stdout` are 01's own words and numbers; docs/EDGES.md says which.
#![tactic(auto)]

mod arms;
mod ask;
mod cells;
mod codes;
mod nine;
mod places;
mod tables;

use std::io;

fn main(rt: HostRuntime) -> io::Result<()> {
    codes::all(&rt)?;
    nine::values(&rt)?;
    cells::all(&rt)?;
    places::all(&rt)?;
    arms::unknown(&rt)?;
    arms::known(&rt)?;
    tables::forms(&rt)?;
    tables::full(&rt)?;
    tables::long(&rt)
}
