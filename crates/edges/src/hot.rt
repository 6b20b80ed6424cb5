// One-hot emission: settings 1 and 9, and the edges of its outputs and its table.
use crate::numbers::{self, Numbers};
use crate::say;
use crate::trees::{self, Tree};
use std::io;

// Numbers of the longest table: 8,200 entries.
const TABLE: usize = 8200 * evaluate::inner::MUX_RUN;

// More nets than a value may have.
const NETS: usize = rules::WIDTH_MAX + 2;

// What is emitted: the outputs of a tree, into a table of which so many entries are in use.
#[derive(Clone, Copy)]
struct Asked {
    tree: Tree,
    outputs: &'static str,
    count: usize,
    table: &'static str,
}

// Of setting 1, whose value has two nets, into an empty table of just as many entries.
const ONE: Asked = Asked {
    tree: trees::ONE,
    outputs: "13 14",
    count: 0,
    table: "65535*6",
};

// Of one leaf, which needs no entry.
const LEAF: Asked = Asked {
    tree: trees::LEAF,
    table: "65535*3",
    ..ONE
};

impl Asked {
    // Of another tree.
    fn of(self, tree: Tree) -> Asked {
        Asked { tree, ..self }
    }

    fn outputs(self, outputs: &'static str) -> Asked {
        Asked { outputs, ..self }
    }

    fn used(self, count: usize) -> Asked {
        Asked { count, ..self }
    }

    fn table(self, table: &'static str) -> Asked {
        Asked { table, ..self }
    }

    // The answer, and the whole table afterwards.
    fn show(self, rt: &impl Print, name: &str) -> io::Result<()> {
        let mut store = [0; trees::ROOM];
        let mut nets = [0; NETS];
        let mut room = [0; TABLE];
        let table = numbers::fill(self.table, &mut room);
        let answer = emit::one_hot(
            self.tree.fill(&mut store),
            self.tree.root(),
            numbers::fill(self.outputs, &mut nets),
            self.count,
            table,
        );
        print!(rt; "{name}: ")?;
        say::emitted(rt, answer)?;
        rt.println(Numbers(table))
    }
}

pub(crate) fn settings(rt: &impl Print) -> io::Result<()> {
    ONE.table("65535*9").show(rt, "one-hot of setting 1")?;
    ONE.of(trees::NINE)
        .outputs("13 14 15")
        .table("65535*9")
        .show(rt, "one-hot of setting 9")?;
    ONE.of(Tree {
        store: "0*18 1 10 0*7 9 0 1 0*6 9 5 3 0*6",
        root: 4,
    })
    .outputs("13")
    .show(rt, "one-hot of setting 2")
}

pub(crate) fn widths(rt: &impl Print) -> io::Result<()> {
    LEAF.outputs("13*64").show(rt, "64 outputs of a leaf")?;
    LEAF.outputs("13*65").show(rt, "65 outputs of a leaf")?;
    ONE.outputs("23*64")
        .table("65535*192")
        .show(rt, "64 outputs, 64 entries")?;
    ONE.outputs("23*64")
        .table("65535*191")
        .show(rt, "64 outputs, 63 entries")?;
    ONE.outputs("23*65")
        .table("65535*195")
        .show(rt, "65 outputs, 65 entries")?;
    ONE.outputs("23*65")
        .table("")
        .show(rt, "65 outputs, no entry")?;
    ONE.outputs("").table("65535*3").show(rt, "no outputs")?;
    ONE.outputs("").table("").show(rt, "no outputs, no entry")
}

pub(crate) fn nets(rt: &impl Print) -> io::Result<()> {
    ONE.outputs("13 1").show(rt, "output 1")?;
    ONE.outputs("10002")
        .table("65535*3")
        .show(rt, "output %9999")?;
    ONE.outputs("13 10003").show(rt, "output %10000")?;
    ONE.outputs("18194")
        .table("65535*3")
        .show(rt, "output %18191")?;
    ONE.outputs("18195")
        .table("65535*3")
        .show(rt, "output no net")?;
    ONE.outputs("1 18195").show(rt, "output 1 and no net")?;
    ONE.outputs("1*65").table("").show(rt, "65 outputs 1")?;
    ONE.outputs("14 13 14")
        .table("65535*9")
        .show(rt, "outputs repeated, any order")
}

pub(crate) fn rooms(rt: &impl Print) -> io::Result<()> {
    ONE.show(rt, "table full")?;
    ONE.table("65535*3").show(rt, "table one short")?;
    ONE.table("65535*8").show(rt, "table and a part")?;
    ONE.table("65535*5").show(rt, "table short by a part")?;
    ONE.used(1)
        .table("3 1 2 65535*6")
        .show(rt, "one in use, full")?;
    ONE.used(1)
        .table("3 1 2 65535*3")
        .show(rt, "one in use, short")?;
    ONE.outputs("")
        .used(1)
        .table("3 1 2")
        .show(rt, "one in use, no outputs")
}

pub(crate) fn long_tables(rt: &impl Print) -> io::Result<()> {
    ONE.used(8190)
        .table("0*24570 65535*6")
        .show(rt, "8,192 entries")?;
    ONE.used(8191)
        .table("0*24573 65535*3")
        .show(rt, "8,192 entries, one short")?;
    ONE.used(8190)
        .table("0*24570 65535*30")
        .show(rt, "8,200 entries")?;
    ONE.used(8191)
        .table("0*24573 65535*27")
        .show(rt, "8,200 entries, one short")?;
    ONE.outputs("")
        .used(8192)
        .table("0*24576 65535*24")
        .show(rt, "8,192 in use")?;
    ONE.outputs("13")
        .used(8192)
        .table("0*24600")
        .show(rt, "8,192 in use, one output")?;
    ONE.outputs("")
        .used(8193)
        .table("0*24600")
        .show(rt, "8,193 in use")
}

pub(crate) fn tables(rt: &impl Print) -> io::Result<()> {
    ONE.outputs("")
        .used(2)
        .table("0*3")
        .show(rt, "more in use than there are")?;
    ONE.outputs("")
        .used(2)
        .table("0*5")
        .show(rt, "more in use than whole entries")?;
    ONE.outputs("")
        .used(usize::MAX)
        .table("0*3")
        .show(rt, "2^64 - 1 in use")?;
    ONE.outputs("")
        .used(1)
        .table("10003 1 0")
        .show(rt, "select driven by itself")?;
    ONE.outputs("")
        .used(2)
        .table("0 10004 0*4")
        .show(rt, "one arm driven later")?;
    ONE.outputs("")
        .used(1)
        .table("0*2 18194")
        .show(rt, "zero arm driven by none")?;
    ONE.outputs("")
        .used(1)
        .table("0*2 65535")
        .show(rt, "an operand that is no net")?;
    ONE.outputs("13")
        .used(2)
        .table("2 1 0 10003*2 10002 65535*3")
        .show(rt, "driven before")
}

// A tree that is malformed is 12 before a constant output, and before 65 of them.
pub(crate) fn malformed(rt: &impl Print) -> io::Result<()> {
    ONE.of(Tree {
        store: "0*9 9 0 1 0*6",
        root: 1,
    })
    .outputs("1")
    .table("")
    .show(rt, "one-hot, bad tree")?;
    ONE.of(Tree {
        store: "0*9",
        root: 1,
    })
    .outputs("1*65")
    .table("")
    .show(rt, "one-hot, bad root")
}
