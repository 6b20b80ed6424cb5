// The disjoint prefix.
use crate::trees::{self, NINE, ONE, Tree};
use crate::{numbers, say};
use std::io;

const NETS: usize = 8;

fn prefix(rt: &impl Print, tree: Tree, name: &str, outputs: &str, enables: &str) -> io::Result<()> {
    let mut store = [0; trees::ROOM];
    let mut outs = [0; NETS];
    let mut nets = [0; NETS];
    let answer = emit::prefix(
        tree.fill(&mut store),
        tree.root(),
        numbers::fill(outputs, &mut outs),
        numbers::fill(enables, &mut nets),
    );
    print!(rt; "{name}: ")?;
    say::together(rt, answer)
}

pub(crate) fn lengths(rt: &impl Print) -> io::Result<()> {
    prefix(rt, ONE, "prefix of setting 1", "13 14", "13 14")?;
    prefix(rt, ONE, "prefix of nothing", "13 14", "")?;
    prefix(rt, ONE, "prefix, no output first", "13 14", "23 13")?;
    prefix(rt, ONE, "prefix, no output second", "13 14", "13 23 14")?;
    prefix(rt, ONE, "prefix, a net twice", "13 14", "13*2")?;
    prefix(
        rt,
        ONE,
        "prefix, in no leaf, twice",
        "13 14 23",
        "23*2 13 14",
    )
}

pub(crate) fn leaves(rt: &impl Print) -> io::Result<()> {
    prefix(rt, NINE, "prefix of setting 9", "13 14 15", "13 14 15")?;
    prefix(rt, NINE, "prefix, two in a leaf", "13 14 15", "15 13")?;
    prefix(
        rt,
        NINE,
        "prefix, two in a leaf, third",
        "13 14 15",
        "14 13 15 13",
    )?;
    prefix(rt, NINE, "prefix, leaf not among outputs", "13", "13 14")
}

pub(crate) fn codes(rt: &impl Print) -> io::Result<()> {
    prefix(rt, ONE, "prefix of 1", "13 14", "13 1")?;
    prefix(rt, ONE, "prefix of %10000", "13 14", "23 10003")?;
    prefix(rt, ONE, "prefix, output %10000", "10003", "")?;
    prefix(rt, ONE, "prefix of %18191", "13 14", "18194")?;
    prefix(rt, ONE, "prefix, output %18191", "18194", "")?;
    prefix(rt, ONE, "prefix of no net", "13 14", "1 18195")?;
    prefix(rt, ONE, "prefix, output no net", "1 18195", "")?;
    let bad = Tree {
        store: "0*9 9 0 1 0*6",
        root: 1,
    };
    prefix(rt, bad, "prefix, bad tree", "1", "1")
}
