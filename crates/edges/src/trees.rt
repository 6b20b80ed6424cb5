// Trees as text: the numbers of a store, and the place of the root.
use crate::numbers;
use rules::Place;

// Numbers of the largest tree here.
pub(crate) const ROOM: usize = 7 * tree::inner::NODE_RUN;

#[derive(Clone, Copy)]
pub(crate) struct Tree {
    pub store: &'static str,
    pub root: usize,
}

// The tree of setting 1: no leaf names two rules.
pub(crate) const ONE: Tree = Tree {
    store: "1 10 0*7 1 11 0*7 9 0 1 0*6",
    root: 2,
};

// The tree of setting 9: %12 is in both leaves.
pub(crate) const NINE: Tree = Tree {
    store: "2 10 12 0*6 2 11 12 0*6 9 0 1 0*6",
    root: 2,
};

// One leaf, which names %10.
pub(crate) const LEAF: Tree = Tree {
    store: "1 10 0*7",
    root: 0,
};

impl Tree {
    pub(crate) fn root(self) -> Place {
        Place(self.root)
    }

    pub(crate) fn fill(self, room: &mut [u16; ROOM]) -> &[u16] {
        numbers::fill(self.store, room)
    }
}
