// The updates of a disjoint emission, gathered from their lines, and the emission that they ask for.
use crate::ask::Lent;
use crate::emission::Ours;
use crate::parse::Lines;
use rules::{Place, WIDTH_MAX};

// More updates than these are read, and not asked for.
const UPDATES_MAX: usize = 16;

// More bits in all than these are lost.
const BITS_MAX: usize = UPDATES_MAX * WIDTH_MAX;

impl Lent {
    // All updates of a line's emission have one width, and their bits follow one another.
    pub(crate) fn disjoint(&mut self, lines: &mut Lines<'_>, root: Place) -> Ours<'_> {
        let mut nets = [0u16; UPDATES_MAX];
        let mut bits = [0u16; BITS_MAX];
        let mut default = [0u16; WIDTH_MAX];
        let count = lines.numbered(b'I');
        let width = lines.more();
        lines.end();
        let widths = [width; UPDATES_MAX];
        let mut used = 0usize;
        let mut places = nets.iter_mut();
        for _ in 0..count {
            lines.letter(b'Y');
            let net = lines.code();
            if let Some(place) = places.next() {
                *place = net;
            }
            lines.list(bits.get_mut(used..).unwrap_or_default(), width);
            lines.end();
            used = used.saturating_add(width);
        }
        lines.skip(b'F');
        let default = lines.list(&mut default, width);
        lines.end();
        let made = emit::disjoint(
            &self.store,
            root,
            nets.get(..count).unwrap_or(&[]),
            widths.get(..count).unwrap_or(&[]),
            bits.get(..used).unwrap_or(&[]),
            default,
            0,
            &mut self.table,
        );
        Ours {
            made,
            table: &self.table,
        }
    }
}
