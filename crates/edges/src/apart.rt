// Disjoint emission: its updates, its default, and which number comes first.
use crate::numbers::{self, Numbers};
use crate::say;
use crate::trees::{self, Tree};
use std::io;

// Numbers of the longest table here: one entry more than may be used.
const TABLE: usize = (rules::MUX_MAX + 1) * evaluate::inner::MUX_RUN;

// More bits than a default may have.
const BITS: usize = rules::WIDTH_MAX + 2;

const UPDATES: usize = 4;

// What is emitted: the updates of a tree, each with its bits among all bits, into a table of which so many entries are in use.
#[derive(Clone, Copy)]
struct Asked {
    tree: Tree,
    nets: &'static str,
    widths: &'static [usize],
    bits: &'static str,
    default: &'static str,
    count: usize,
    table: &'static str,
}

// Of setting 1, one update of two bits, into an empty table of just as many entries.
const ONE: Asked = Asked {
    tree: trees::ONE,
    nets: "13",
    widths: &[2; UPDATES],
    bits: "4 5",
    default: "0 1",
    count: 0,
    table: "65535*6",
};

// Of setting 9, two updates of which one is in both leaves.
const NINE: Asked = Asked {
    tree: trees::NINE,
    nets: "13 15",
    bits: "4 5 6 7",
    ..ONE
};

// Of one leaf, no updates.
const LEAF: Asked = Asked {
    tree: trees::LEAF,
    nets: "",
    widths: &[0],
    bits: "",
    table: "65535*3",
    ..ONE
};

// Of setting 1, one update after entries in use.
const AFTER: Asked = Asked {
    widths: &[2],
    ..ONE
};

impl Asked {
    // Of another tree.
    fn of(self, tree: Tree) -> Asked {
        Asked { tree, ..self }
    }

    fn nets(self, nets: &'static str) -> Asked {
        Asked { nets, ..self }
    }

    fn widths(self, widths: &'static [usize]) -> Asked {
        Asked { widths, ..self }
    }

    fn bits(self, bits: &'static str) -> Asked {
        Asked { bits, ..self }
    }

    fn default(self, default: &'static str) -> Asked {
        Asked { default, ..self }
    }

    fn used(self, count: usize) -> Asked {
        Asked { count, ..self }
    }

    fn table(self, table: &'static str) -> Asked {
        Asked { table, ..self }
    }

    // The answer, and the whole table afterwards.
    fn show(self, rt: &impl Print, name: &str) -> io::Result<()> {
        let mut store = [0; trees::ROOM];
        let mut nets = [0; UPDATES];
        let mut bits = [0; BITS];
        let mut default = [0; BITS];
        let mut room = [0; TABLE];
        let table = numbers::fill(self.table, &mut room);
        let answer = emit::disjoint(
            self.tree.fill(&mut store),
            self.tree.root(),
            numbers::fill(self.nets, &mut nets),
            self.widths,
            numbers::fill(self.bits, &mut bits),
            numbers::fill(self.default, &mut default),
            self.count,
            table,
        );
        print!(rt; "{name}: ")?;
        say::emitted(rt, answer)?;
        rt.println(Numbers(table))
    }
}

pub(crate) fn updates(rt: &impl Print) -> io::Result<()> {
    ONE.table("65535*9").show(rt, "disjoint, one update")?;
    ONE.nets("13 14")
        .bits("4 5 6 7")
        .table("65535*9")
        .show(rt, "disjoint, two updates")?;
    ONE.nets("13*2")
        .bits("4 5 6 7")
        .show(rt, "disjoint, two for one net")?;
    ONE.nets("23").show(rt, "disjoint, update in no leaf")?;
    ONE.nets("")
        .bits("")
        .default("2 8")
        .show(rt, "disjoint, no updates")?;
    NINE.nets("13 14").show(rt, "disjoint, each leaf one")?;
    NINE.nets("15*2").show(rt, "disjoint, one in both leaves")
}

pub(crate) fn overlaps(rt: &impl Print) -> io::Result<()> {
    NINE.show(rt, "overlap")?;
    NINE.table("").show(rt, "overlap, no room")?;
    NINE.bits("4 5 6").show(rt, "overlap, a width")?;
    NINE.bits("").default("").show(rt, "overlap, no bits")?;
    NINE.bits("4 5 6 10003").show(rt, "overlap, a net")?;
    NINE.bits("4 5 6 18195").show(rt, "overlap, no net")
}

pub(crate) fn widths(rt: &impl Print) -> io::Result<()> {
    ONE.widths(&[1]).show(rt, "update of 1 bit")?;
    ONE.widths(&[3]).bits("4 5 6").show(rt, "update of 3 bits")?;
    ONE.nets("13 14")
        .widths(&[1])
        .default("0")
        .show(rt, "second update without width")?;
    ONE.bits("4").show(rt, "bits cut")?;
    ONE.nets("23").bits("4").show(rt, "a width in no leaf")?;
    ONE.nets("13*2")
        .widths(&[1, 2])
        .bits("4 5 6")
        .show(rt, "a width replaced later")?;
    LEAF.default("5*64").show(rt, "default of 64 bits")?;
    LEAF.default("5*65").show(rt, "default of 65 bits")?;
    LEAF.default("").show(rt, "default of no bits")
}

pub(crate) fn nets(rt: &impl Print) -> io::Result<()> {
    ONE.bits("4 10002")
        .default("0 10002")
        .show(rt, "bit %9999")?;
    ONE.bits("4 10003").show(rt, "bit %10000")?;
    ONE.default("0 10003").show(rt, "default bit %10000")?;
    ONE.nets("1").show(rt, "update for 1")?;
    ONE.nets("10003").show(rt, "update for %10000")?;
    ONE.nets("18194").show(rt, "update for %18191")?;
    ONE.nets("18195").show(rt, "update for no net")?;
    ONE.bits("4 18194").show(rt, "bit %18191")?;
    ONE.nets("1").bits("4 18195").show(rt, "bit no net")?;
    ONE.nets("1")
        .default("18195 1")
        .show(rt, "default bit no net")?;
    ONE.bits("4 5 18195").show(rt, "bit over")
}

pub(crate) fn rooms(rt: &impl Print) -> io::Result<()> {
    ONE.show(rt, "disjoint, full")?;
    ONE.table("65535*5").show(rt, "disjoint, one short")?;
    ONE.table("65535*7").show(rt, "disjoint, and a part")?;
    ONE.nets("")
        .bits("")
        .default("")
        .table("")
        .show(rt, "disjoint, no bits, no room")
}

pub(crate) fn long_tables(rt: &impl Print) -> io::Result<()> {
    AFTER
        .used(8190)
        .table("0*24570 65535*6")
        .show(rt, "disjoint, 8,192 entries")?;
    AFTER
        .used(8191)
        .table("0*24573 65535*3")
        .show(rt, "disjoint, 8,192 entries, one short")?;
    AFTER
        .used(8191)
        .table("0*24573 65535*6")
        .show(rt, "disjoint, 8,193 entries, one short")
}

pub(crate) fn tables(rt: &impl Print) -> io::Result<()> {
    AFTER
        .used(1)
        .table("3 1 2 65535*6")
        .show(rt, "disjoint, one in use, full")?;
    AFTER
        .used(1)
        .table("3 1 2 65535*5")
        .show(rt, "disjoint, one in use, short")?;
    AFTER
        .used(2)
        .table("0*3")
        .show(rt, "disjoint, more in use than there are")?;
    AFTER
        .used(usize::MAX)
        .table("0*3")
        .show(rt, "disjoint, 2^64 - 1 in use")?;
    AFTER
        .used(1)
        .table("10003 1 0 0*6")
        .show(rt, "disjoint, select driven by itself")
}

// A tree that is malformed is 12 before a constant target.
pub(crate) fn malformed(rt: &impl Print) -> io::Result<()> {
    ONE.of(Tree {
        store: "0*18",
        root: 1,
    })
    .nets("1")
    .widths(&[2])
    .default("0")
    .table("")
    .show(rt, "disjoint, bad tree")
}
