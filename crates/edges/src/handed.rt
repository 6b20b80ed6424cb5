// Trees handed in: their check and their text.
use crate::say;
use crate::trees::{self, Tree};
use rules::Place;
use std::io;

// More than the texts shown here have.
const TEXT: usize = 100;

pub(crate) fn print(rt: &impl Print, store: &[u16], root: Place) -> io::Result<()> {
    let mut out = [0; TEXT];
    let answer = text::print_tree(store, root, &mut out);
    say::printed(rt, answer, &out)
}

// A tree's check.
fn put(rt: &impl Print, name: &str, store: &'static str, root: usize) -> io::Result<()> {
    let tree = Tree { store, root };
    let mut room = [0; trees::ROOM];
    print!(rt; "{name}: ")?;
    say::checked(rt, tree::check(tree.fill(&mut room), tree.root()))
}

// A tree's check, and its text.
fn fine(rt: &impl Print, name: &str, store: &'static str, root: usize) -> io::Result<()> {
    put(rt, name, store, root)?;
    let tree = Tree { store, root };
    let mut room = [0; trees::ROOM];
    print(rt, tree.fill(&mut room), tree.root())
}

pub(crate) fn leaves(rt: &impl Print) -> io::Result<()> {
    fine(rt, "an empty leaf", "0*9", 0)?;
    fine(rt, "a leaf", "1 10 0*7", 0)?;
    fine(rt, "rule %9999", "1 9999 0*7", 0)?;
    put(rt, "rule %10000", "1 10000 0*7", 0)?;
    fine(rt, "8 rules", "8 1 2 3 4 5 6 7 8", 0)?;
    put(rt, "9 rules", "9 1 2 3 4 5 6 7 8", 0)?;
    put(rt, "count 10", "10 1 2 3 4 5 6 7 8", 0)
}

pub(crate) fn runs(rt: &impl Print) -> io::Result<()> {
    put(rt, "rules not ascending", "2 11 10 0*6", 0)?;
    put(rt, "a rule twice", "2 10*2 0*6", 0)?;
    put(rt, "a number past the rules", "1 10 11 0*6", 0)?;
    put(rt, "a number past the empty leaf", "0*8 1", 0)?;
    put(rt, "a number past the size", "0*18 9 0 1 0*5 1", 2)
}

pub(crate) fn roots(rt: &impl Print) -> io::Result<()> {
    put(rt, "root past the store", "0*9", 1)?;
    put(rt, "root in a part", "0*8", 0)?;
    put(rt, "root 2^64 - 1", "0*9", usize::MAX)?;
    put(rt, "two trees", "0*18", 1)?;
    put(rt, "entries after the root", "0*9 65535*9", 0)?;
    put(rt, "one arm missing", "0*9 9 0 1 0*6", 1)
}

pub(crate) fn branches(rt: &impl Print) -> io::Result<()> {
    fine(rt, "a branch", "1 10 0*7 1 11 0*7 9 0 1 0*6", 2)?;
    put(rt, "size 0", "1 10 0*7 1 11 0*7 9 0*8", 2)?;
    put(rt, "size 2", "1 10 0*7 1 11 0*7 9 0 2 0*6", 2)?;
    put(
        rt,
        "size of the zero arm",
        "0*18 9 1 1 0*6 0*9 9 0 3 0*6",
        4,
    )?;
    fine(rt, "size of the one arm", "0*18 9 1 1 0*6 0*9 9 0 1 0*6", 4)?;
    fine(rt, "test %9999", "0*9 1 10 0*7 9 9999 1 0*6", 2)?;
    put(rt, "test %10000", "0*9 1 10 0*7 9 10000 1 0*6", 2)
}

pub(crate) fn paths(rt: &impl Print) -> io::Result<()> {
    fine(rt, "equal arms", "1 10 0*7 1 10 0*7 9 0 1 0*6", 2)?;
    fine(rt, "empty arms", "0*18 9 0 1 0*6", 2)?;
    put(rt, "a test twice on a path", "0*27 9 0 1 0*6 9 0 3 0*6", 4)?;
    fine(
        rt,
        "a test in both arms",
        "0*9 1 10 0*7 9 1 1 0*6 0*9 1 11 0*7 9 1 1 0*6 9 0 3 0*6",
        6,
    )
}

// A text in the bytes lent, and all of them afterwards.
fn print_all(rt: &impl Print, tree: Tree, out: &mut [u8]) -> io::Result<()> {
    let mut room = [0; trees::ROOM];
    let answer = text::print_tree(tree.fill(&mut room), tree.root(), out);
    say::printed(rt, answer, out)?;
    rt.write_all(out)?;
    println!(rt)
}

// The text of setting 1 has 28 bytes.
pub(crate) fn rooms(rt: &impl Print) -> io::Result<()> {
    println!(rt; "text of setting 1 in 28 bytes")?;
    print_all(rt, trees::ONE, &mut [b'.'; 28])?;
    println!(rt; "in 27 bytes")?;
    print_all(rt, trees::ONE, &mut [b'.'; 27])?;
    println!(rt; "in 30 bytes")?;
    print_all(rt, trees::ONE, &mut [b'.'; 30])
}

pub(crate) fn bad_text(rt: &impl Print) -> io::Result<()> {
    let two = Tree {
        store: "0*18",
        root: 1,
    };
    print!(rt; "text of two trees: ")?;
    print_all(rt, two, &mut [b'.'; 3])
}
