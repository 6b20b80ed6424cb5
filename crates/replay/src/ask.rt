// One question each: our answer to a case, held against the file's.
use crate::emission::Ours;
use crate::held;
use matrix::{Made, Matrix};
use rules::{Net, Place, Refusal, Trit};
use tree::Built;

// Room for the longest text of a matrix or of a tree.
const TEXT_ROOM: usize = 65536;

// One entry more than may be used.
const STORE: usize = tree::inner::NODE_RUN * (rules::NODES_MAX + 1);

const TABLE: usize = evaluate::inner::MUX_RUN * rules::MUX_MAX;

// What a call made, or 01's number: C passes the two side by side.
fn accepted(made: Made) -> Result<Matrix, u8> {
    match made.no {
        0 => Ok(made.matrix),
        no => Err(no),
    }
}

// A text that is not read is refused as no other call refuses.
fn read(text: &[u8]) -> Result<Matrix, u8> {
    let read = text::read(text);
    match read.no {
        0 => Ok(read.matrix),
        no => Err(no),
    }
}

pub(crate) fn damaged(text: &[u8], line: usize) -> bool {
    let read = text::read(text);
    match line {
        0 => read.no == 0,
        _ => read.no == u8::from(Refusal::Line) && read.line == line,
    }
}

pub(crate) fn merge(parent: &[u8], child: &[u8], at: Net) -> Result<Matrix, u8> {
    accepted(read(parent)?.merge(at, read(child)?))
}

// What a case is about: the text of its matrix, and the enable.
#[derive(Clone, Copy)]
pub(crate) struct Given<'a> {
    pub text: &'a [u8],
    pub enable: Net,
}

impl Given<'_> {
    // Of a text that is not read, the matrix without columns and rows.
    fn matrix(self) -> Matrix {
        text::read(self.text).matrix
    }

    pub(crate) fn outputs(self, nets: &[u16]) -> bool {
        let made = self.matrix().outputs();
        made.no == 0 && made.nets.get(..made.count) == Some(nets)
    }

    pub(crate) fn enabled(self) -> Result<Matrix, u8> {
        let added = accepted(self.matrix().add_enable(self.enable))?;
        accepted(added.normalize())
    }

    pub(crate) fn assumed(self, net: Net, value: Trit) -> Result<Matrix, u8> {
        accepted(self.matrix().assume(net, value))
    }
}

// Whether an answer has this number of 01, which is 0 where nothing is refused.
pub(crate) fn is_number<T: Drop>(answer: Result<T, u8>, no: usize) -> bool {
    usize::from(answer.err().unwrap_or(0)) == no
}

// Whether an answer is this refusal of 01.
pub(crate) fn is_refusal<T: Drop>(answer: Result<T, u8>, no: usize) -> bool {
    answer.err().map(usize::from) == Some(no)
}

// The room that the calls are lent. It is not cleared between them.
#[derive(Drop)]
pub(crate) struct Lent {
    out: [u8; TEXT_ROOM],
    pub store: [u16; STORE],
    pub table: [u16; TABLE],
}

impl Lent {
    pub(crate) fn new() -> Lent {
        Lent {
            out: [0; TEXT_ROOM],
            store: [0; STORE],
            table: [0; TABLE],
        }
    }

    pub(crate) fn prints(&mut self, made: Result<Matrix, u8>, text: &[u8]) -> bool {
        let Ok(matrix) = made else {
            return false;
        };
        match text::print(matrix, &mut self.out) {
            Ok(n) => self.out.get(..n) == Some(text),
            Err(_) => false,
        }
    }

    pub(crate) fn reads(&mut self, text: &[u8]) -> bool {
        self.prints(read(text), text)
    }

    // A tree grown in so many entries of those that are there.
    fn grown(&mut self, given: Given<'_>, entries: usize) -> Result<Built, u8> {
        let n = tree::inner::NODE_RUN * entries.min(rules::NODES_MAX + 1);
        dispatch::dispatch(given.matrix(), given.enable, &mut self.store[..n]).map_err(u8::from)
    }

    pub(crate) fn refused(&mut self, given: Given<'_>, entries: usize, no: usize) -> bool {
        is_refusal(self.grown(given, entries), no)
    }

    // One entry fewer than the peak is too few.
    pub(crate) fn short(&mut self, given: Given<'_>, peak: usize) -> bool {
        let Some(entries) = peak.checked_sub(1) else {
            return false;
        };
        self.refused(given, entries, usize::from(u8::from(Refusal::Nodes)))
    }

    // The root is the tree's last entry.
    pub(crate) fn tree(&mut self, given: Given<'_>, entries: usize, size: usize) -> bool {
        match self.grown(given, entries) {
            Ok(built) => built.size == size && built.root.0.checked_add(1) == Some(size),
            Err(_) => false,
        }
    }

    pub(crate) fn check(&self, root: Place, size: usize) -> bool {
        tree::check(&self.store, root) == Ok(size)
    }

    pub(crate) fn prefix(&self, root: Place, outputs: &[u16], enables: &[u16], len: usize) -> bool {
        emit::prefix(&self.store, root, outputs, enables) == Ok(len)
    }

    fn tree_text(&mut self, root: Place) -> Option<&[u8]> {
        let n = text::print_tree(&self.store, root, &mut self.out).ok()?;
        self.out.get(..n)
    }

    pub(crate) fn printed(&mut self, root: Place, text: &[u8]) -> bool {
        self.tree_text(root) == Some(text)
    }

    // A long text stands in the file by its length and check number.
    pub(crate) fn printed_long(&mut self, root: Place, len: usize, sum: usize) -> bool {
        match self.tree_text(root) {
            Some(text) => text.len() == len && held::numbers(0, text) == sum,
            None => false,
        }
    }

    pub(crate) fn one_hot(&mut self, root: Place, outputs: &[u16]) -> Ours<'_> {
        let made = emit::one_hot(&self.store, root, outputs, 0, &mut self.table);
        Ours {
            made,
            table: &self.table,
        }
    }
}
