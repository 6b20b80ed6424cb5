// An emission of the file, held against the entries and the value of ours.
use crate::held;
use crate::parse::{LIST_MAX, Lines};
use emit::Emitted;
use evaluate::inner::MUX_RUN;

// An emission of more muxes is none that the file lists.
const LISTED_MAX: usize = LIST_MAX / MUX_RUN;

#[derive(Clone, Copy)]
pub(crate) struct Ours<'a> {
    pub made: Emitted,
    pub table: &'a [u16],
}

impl<'a> Ours<'a> {
    fn counts(&self, muxes: usize, width: usize) -> bool {
        self.made.no == 0 && self.made.used == muxes && self.made.width == width
    }

    fn value(&self) -> &[u16] {
        self.made.nets.get(..self.made.width).unwrap_or(&[])
    }

    fn muxes(&self) -> &'a [[u16; MUX_RUN]] {
        let (muxes, _) = self.table.as_chunks::<MUX_RUN>();
        muxes.get(..self.made.used).unwrap_or(&[])
    }

    // The check number of our entries, then of our value.
    fn check(&self) -> usize {
        held::numbers(held::numbers(0, self.muxes().as_flattened()), self.value())
    }

    fn summed(&self, lines: &mut Lines<'_>) -> bool {
        let muxes = lines.numbered(b'h');
        let width = lines.more();
        let sum = lines.more();
        lines.end();
        self.counts(muxes, width) && self.check() == sum
    }

    // A line for each mux.
    fn listed(&self, lines: &mut Lines<'_>) -> bool {
        let muxes = lines.numbered(b'H');
        let width = lines.more();
        lines.end();
        if muxes > LISTED_MAX {
            lines.lose();
            return false;
        }
        let mut right = self.counts(muxes, width);
        let (entries, _) = self.table.as_chunks::<MUX_RUN>();
        for ours in entries.iter().take(muxes) {
            let mut room = [0u16; MUX_RUN];
            lines.skip(b'U');
            let theirs = lines.list(&mut room, MUX_RUN);
            lines.end();
            right = right && ours.as_slice() == theirs;
        }
        let mut nets = [0u16; LIST_MAX];
        lines.skip(b'V');
        let value = lines.list(&mut nets, width);
        lines.end();
        right && self.value() == value
    }

    // A refusal of ours, at the line that has its letter.
    fn refused(&self, lines: &mut Lines<'_>, letter: u8) -> bool {
        let no = lines.numbered(letter);
        lines.end();
        self.made.no != 0 && usize::from(self.made.no) == no
    }

    // A long emission stands in the file by its check number alone, a refused one by a letter and a number.
    pub(crate) fn held(&self, lines: &mut Lines<'_>, refusal: u8) -> bool {
        if lines.begins(refusal) {
            self.refused(lines, refusal)
        } else if lines.begins(b'h') {
            self.summed(lines)
        } else {
            self.listed(lines)
        }
    }
}
