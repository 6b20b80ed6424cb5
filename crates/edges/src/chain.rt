// A chain as deep as a store lets it be: its check, its muxes and its text.
ghost use Rattle.std.specs.Prelude.{◌≤◌};

use crate::numbers::Numbers;
use crate::say;
use evaluate::inner::MUX_RUN;
use rules::Place;
use std::io;
use tree::inner::NODE_RUN;

// The deepest chain whose root is among the first 1,024 entries.
const DEEP: u16 = 511;

// Entries of a chain one deeper.
const CHAIN: usize = 1025;

// Muxes of a chain one deeper.
const MUXES: usize = 512;

// Bytes of the deepest chain's text.
const TEXT: usize = 266638;

// Bytes of its first line.
const FIRST: usize = 10;

// Bytes of its last line without the indent.
const LAST: usize = 18;

// The root of the deepest chain.
const ROOT: Place = Place(1022);

// A chain in zeros: every zero arm is empty, and the last one arm names %1000. A branch stands after those below it.
fn chain(depth: u16) -> [[u16; NODE_RUN]; CHAIN]
    requires { depth ≤ 512 }
{
    let mut store = [[0; NODE_RUN]; CHAIN];
    store[usize::from(depth)] = [1, 1000, 0, 0, 0, 0, 0, 0, 0];
    // How many branches stand below one gives its place and its numbers.
    for below in 0..depth {
        let branch = [9, depth - 1 - below, 2 * below + 1, 0, 0, 0, 0, 0, 0];
        store[usize::from(depth + 1 + below)] = branch;
    }
    store
}

fn check(rt: &impl Print, name: &str, store: &[u16], root: Place) -> io::Result<()> {
    print!(rt; "{name}: ")?;
    say::checked(rt, tree::check(store, root))
}

// One-hot of %1000: the first two muxes, the last, and what follows.
fn muxes(rt: &impl Print, store: &[u16]) -> io::Result<()> {
    let mut table = [65535; MUXES * MUX_RUN];
    let answer = emit::one_hot(store, ROOT, &[1003], 0, &mut table);
    say::emitted(rt, answer)?;
    let first = table[..2 * MUX_RUN].chunks_exact(MUX_RUN);
    let last = table[(MUXES - 2) * MUX_RUN..].chunks_exact(MUX_RUN);
    for mux in first.chain(last) {
        rt.println(Numbers(mux))?;
    }
    Ok(())
}

// In one byte too few.
fn short_text(rt: &impl Print, store: &[u16]) -> io::Result<()> {
    let mut out = [0; TEXT - 1];
    say::counted(rt, text::print_tree(store, ROOT, &mut out))
}

// The text's first line, and its last without the indent.
fn whole_text(rt: &impl Print, store: &[u16]) -> io::Result<()> {
    let mut out = [0; TEXT];
    say::counted(rt, text::print_tree(store, ROOT, &mut out))?;
    rt.write_all(&out[..FIRST])?;
    rt.write_all(&out[TEXT - LAST..])
}

pub(crate) fn deepest(rt: &impl Print) -> io::Result<()> {
    let store = chain(DEEP);
    let store = store.as_flattened();
    check(rt, "chain of 511", store, ROOT)?;
    muxes(rt, store)?;
    short_text(rt, store)?;
    whole_text(rt, store)
}

// The deepest branch tests the net of the root.
pub(crate) fn spoiled(rt: &impl Print) -> io::Result<()> {
    let mut store = chain(DEEP);
    store[512][1] = 0;
    let store = store.as_flattened();
    check(rt, "chain of 511, last test as the first", store, ROOT)?;
    muxes(rt, store)
}

// Its root would be at place 1,024.
pub(crate) fn longer(rt: &impl Print) -> io::Result<()> {
    let store = chain(DEEP + 1);
    check(rt, "chain of 512", store.as_flattened(), Place(1024))
}
