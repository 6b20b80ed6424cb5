// One line: what it holds, loosely, is printed again, and the line is taken only if that is the line.
ghost use Rattle.std.specs.Prelude.{drop, get_or, [], ◌≡◌, ◌<◌, ◌≤◌};
ghost use Rattle.lists.specs.Lists.{same};
ghost use Rattle.lists.specs.Vec.{vec};
ghost use Rattle.rows.specs.Rows.{nets_from, row_from};
ghost use Rattle.rules.specs.Bounds.{columns_max, rules_max};
ghost use Rattle.sets.specs.Sets.{rules_from};
ghost use Rattle.text.specs.Scan.{loose_nets, loose_row, pattern_at, rules_at, scanned};
ghost use Rattle.text.specs.Taken.{row_taken, value_taken};
ghost use Rattle.text.specs.Trees.{rule_end};

use crate::inner::scan;
use print::inner::put::Text;

// The bytes at most of a net and the space before it, of a line's rules, of a value line, and of a row's line.
pub const NET_MAX: usize = 6;

pub const NAMES_MAX: usize = NET_MAX * rules::RULES_MAX;

pub const VALUE_MAX: usize = 1 + NET_MAX * rules::COLUMNS_MAX + 4;

pub const ROW_MAX: usize = 2
    + rules::COLUMNS_MAX
    + (rules::COLUMNS_MAX - 1) / 4
    + 3
    + NAMES_MAX
    + 1;

// A line has the highest column first.
fn nets(line: &[u8]) -> rows::Nets
    ensures { result ≡ nets_from (loose_nets line.now) }
{
    let mut value = [0; rules::COLUMNS_MAX];
    let columns = scan::scan(line, 1, &mut value);
    value[..columns].reverse();
    rows::Nets { value, columns }
}

// The nets of a value line.
pub fn value(line: &[u8]) -> Option<rows::Nets>
    ensures { result ≡ value_taken line.now }
{
    let found = nets(line);
    let mut text: Text<VALUE_MAX> = Text::new();
    text.value(&found.value[..found.columns]);
    if text.as_bytes() == line {
        Some(found)
    } else {
        None
    }
}

// What may be the line of a row, and how many columns the value line gave.
#[derive(Clone, Copy)]
pub struct Line<'a> {
    pub bytes: &'a [u8],
    pub columns: usize,
    pub ghost few: { columns ≤ columns_max },
}

impl<'a> Line<'a> {
    // The trit of column i: from the left it stands after the higher columns and their marks. In a pattern trits are numbers.
    fn trit(self, i: usize) -> u8
        requires { i < self.columns }
        ensures { result ≡ get_or (pattern_at self.entry.columns self.entry.bytes.now) i 0 }
    {
        let j = self.columns - 1 - i;
        match self.bytes.get(2 + j + j / 4) {
            Some(b'0') => 0,
            Some(b'1') => 1,
            _ => rules::UNDEF,
        }
    }

    fn pattern(self) -> [u8; rules::COLUMNS_MAX]
        ensures { result ≡ vec columns_max 0 (pattern_at self.entry.columns self.entry.bytes.now) }
    {
        let mut out = [0; rules::COLUMNS_MAX];
        for (i, t) in out[..self.columns].iter_mut().enumerate() {
            *t = self.trit(i);
        }
        out
    }

    // Where the rules start.
    fn start(self) -> usize
        ensures { result ≡ rules_at self.entry.columns }
    {
        5 + self.columns + self.columns.saturating_sub(1) / 4
    }

    // Whether it ends in the fixed bytes that stand for no rules.
    fn empty(self) -> bool
        ensures { result ≡ same (drop (rules_at self.entry.columns) self.entry.bytes.now) (rule_end []) }
    {
        let Some(end) = self.bytes.get(self.start()..) else {
            return false;
        };
        end == b" (empty)\n".as_slice()
    }

    fn names(self) -> sets::Rules
        ensures { result ≡ rules_from (scanned rules_max self.entry.bytes.now (rules_at self.entry.columns)) }
    {
        if self.empty() {
            return sets::inner::none();
        }
        let mut items = [0; rules::RULES_MAX];
        let count = scan::scan(self.bytes, self.start(), &mut items);
        sets::Rules { items, count }
    }

    fn loose(self) -> rows::Row
        ensures { result ≡ row_from (loose_row self.entry.columns self.entry.bytes.now) }
    {
        rows::Row {
            pattern: self.pattern(),
            len: self.columns,
            rules: self.names(),
        }
    }

    // The row, if the line is one.
    pub fn row(self) -> Option<rows::Row>
        ensures { result ≡ row_taken self.entry.columns self.entry.bytes.now }
    {
        let found = self.loose();
        if !found.rules.named() {
            return None;
        }
        if !found.rules.ascending() {
            return None;
        }
        let mut text: Text<ROW_MAX> = Text::new();
        text.row(&found);
        if text.as_bytes() != self.bytes {
            return None;
        }
        Some(found)
    }
}
