// A case of the file, line by line: what each line asks of our calls. The letters are the file's own bytes, as differential/README.md gives them: an enum would spell each of them twice.
use crate::ask::{self, Given, Lent};
use crate::parse::{LIST_MAX, Lines};
use crate::tally::{Kind, Tally};
use rules::Place;

// Where no tree was grown, the first entry is asked about.
const FIRST: Place = Place(0);

#[derive(Drop)]
pub(crate) struct Replay {
    pub lent: Lent,
    pub tally: Tally,
}

impl Replay {
    // Up to the first line that begins no case, where the lines stay.
    pub(crate) fn all(&mut self, lines: &mut Lines<'_>) {
        // A case has bytes, so there are no more cases than bytes.
        for _ in 0..lines.len() {
            self.case(lines);
        }
    }

    fn case(&mut self, lines: &mut Lines<'_>) {
        if lines.begins(b'C') {
            self.heading(lines);
            if lines.begins(b'J') {
                self.merge(lines);
            }
        }
        if lines.begins(b'M') {
            self.matrix(lines);
        }
    }

    fn matrix(&mut self, lines: &mut Lines<'_>) {
        let given = self.given(lines);
        let mut nets = [0u16; LIST_MAX];
        let outputs = self.outputs(lines, given, &mut nets);
        self.enable(lines, given);
        let grown = if lines.begins(b'R') {
            self.refused(lines, given);
            None
        } else {
            self.grown(lines, given)
        };
        if let Some(root) = grown {
            self.print(lines, root);
            self.one_hot(lines, root, outputs);
        }
        let root = grown.unwrap_or(FIRST);
        if lines.begins(b'A') {
            self.assume(lines, given);
        }
        if lines.begins(b'I') {
            self.disjoint(lines, root);
        }
        if lines.begins(b'L') {
            self.prefix(lines, root, outputs);
        }
        if lines.begins(b'D') {
            self.damage(lines);
        }
    }

    // The cases are numbered from 1 on; a word says how each was made.
    fn heading(&mut self, lines: &mut Lines<'_>) {
        self.tally.begin();
        if lines.numbered(b'C') != self.tally.cases() {
            lines.lose();
        }
        lines.skip(b' ');
        lines.next_line();
    }

    // A merge that is refused ends its case; the result of another is the matrix that follows.
    fn merge(&mut self, lines: &mut Lines<'_>) {
        lines.letter(b'J');
        let at = lines.net();
        lines.end();
        let parent = lines.text(b'Q');
        let child = lines.text(b'K');
        let made = ask::merge(parent, child, at);
        if lines.begins(b'Z') {
            let no = lines.numbered(b'Z');
            lines.end();
            self.tally.mark(Kind::Merge, b'Z', ask::is_number(made, no));
            return;
        }
        let mut ahead = *lines;
        let right = self.lent.prints(made, ahead.text(b'M'));
        self.tally.mark(Kind::Merge, b'J', right);
    }

    fn given<'a>(&mut self, lines: &mut Lines<'a>) -> Given<'a> {
        let text = lines.text(b'M');
        let right = self.lent.reads(text);
        self.tally.mark(Kind::Text, b'M', right);
        lines.letter(b'E');
        let enable = lines.net();
        lines.end();
        Given { text, enable }
    }

    fn outputs<'a>(
        &mut self,
        lines: &mut Lines<'_>,
        given: Given<'_>,
        nets: &'a mut [u16],
    ) -> &'a [u16] {
        let count = lines.numbered(b'O');
        let outputs = lines.list(nets, count);
        lines.end();
        let right = given.outputs(outputs);
        self.tally.mark(Kind::Outputs, b'O', right);
        outputs
    }

    // Where the enable is refused, there is no such line, and the dispatch is refused alike.
    fn enable(&mut self, lines: &mut Lines<'_>, given: Given<'_>) {
        let made = given.enabled();
        if lines.begins(b'N') {
            let right = self.lent.prints(made, lines.text(b'N'));
            self.tally.mark(Kind::Enable, b'N', right);
        } else if lines.begins(b'n') {
            lines.skip(b'n');
            lines.end();
            let right = self.lent.prints(made, given.text);
            self.tally.mark(Kind::Enable, b'n', right);
        } else {
            let mut ahead = *lines;
            let right = ask::is_refusal(made, ahead.numbered(b'R'));
            self.tally.mark(Kind::Enable, b'E', right);
        }
    }

    // What is refused is refused in 1,025 entries too.
    fn refused(&mut self, lines: &mut Lines<'_>, given: Given<'_>) {
        let no = lines.numbered(b'R');
        lines.end();
        let right = self.lent.refused(given, rules::NODES_MAX + 1, no);
        self.tally.mark(Kind::Refused, b'R', right);
    }

    // The root of the tree is its last entry. The tree of the last dispatch, into 1,024 entries, is what the lines after it ask about.
    fn grown(&mut self, lines: &mut Lines<'_>, given: Given<'_>) -> Option<Place> {
        let size = lines.numbered(b'P');
        let peak = lines.more();
        lines.end();
        let root = size.checked_sub(1).map(Place);
        let short = self.lent.short(given, peak);
        self.tally.mark(Kind::Short, b'P', short);
        let enough = self.lent.tree(given, peak, size);
        self.tally.mark(Kind::Peak, b'P', enough);
        let right = self.lent.tree(given, rules::NODES_MAX, size);
        self.tally.mark(Kind::Tree, b'P', right);
        let formed = self.lent.check(root.unwrap_or(FIRST), size);
        self.tally.mark(Kind::Check, b'P', formed);
        root
    }

    // A long text stands in the file by its length and check number.
    fn print(&mut self, lines: &mut Lines<'_>, root: Place) {
        if lines.begins(b'T') {
            let right = self.lent.printed(root, lines.text(b'T'));
            self.tally.mark(Kind::Print, b'T', right);
            return;
        }
        let len = lines.numbered(b't');
        let sum = lines.more();
        lines.end();
        let right = self.lent.printed_long(root, len, sum);
        self.tally.mark(Kind::Print, b't', right);
    }

    fn one_hot(&mut self, lines: &mut Lines<'_>, root: Place, outputs: &[u16]) {
        let right = self.lent.one_hot(root, outputs).held(lines, b'W');
        self.tally.mark(Kind::OneHot, b'H', right);
    }

    fn assume(&mut self, lines: &mut Lines<'_>, given: Given<'_>) {
        lines.letter(b'A');
        let net = lines.net();
        lines.skip(b' ');
        let trit = lines.trit();
        lines.end();
        let text = lines.text(b'B');
        let right = self.lent.prints(given.assumed(net, trit), text);
        self.tally.mark(Kind::Assume, b'A', right);
    }

    fn disjoint(&mut self, lines: &mut Lines<'_>, root: Place) {
        let right = self.lent.disjoint(lines, root).held(lines, b'X');
        self.tally.mark(Kind::Disjoint, b'I', right);
    }

    fn prefix(&mut self, lines: &mut Lines<'_>, root: Place, outputs: &[u16]) {
        let len = lines.numbered(b'L');
        let count = lines.more();
        let mut nets = [0u16; LIST_MAX];
        let enables = lines.list(&mut nets, count);
        lines.end();
        let right = self.lent.prefix(root, outputs, enables, len);
        self.tally.mark(Kind::Prefix, b'L', right);
    }

    fn damage(&mut self, lines: &mut Lines<'_>) {
        let len = lines.numbered(b'D');
        let line = lines.more();
        lines.end();
        let right = ask::damaged(lines.body(len), line);
        self.tally.mark(Kind::Damaged, b'D', right);
    }
}
