// The lines of a matrix, each put behind what stands in a text.
ghost use Rattle.std.specs.Prelude.{true, ◌≡◌, ◌+◌, ◌≤◌, ◌++◌, length};
ghost use Rattle.matrix.specs.Mat.{view as view_of};
ghost use Rattle.print.specs.Texts.{Fits, RowFits, marked as marked_of, trits as trits_of};
ghost use Rattle.rows.specs.Rows.{view};
ghost use Rattle.rules.specs.Print.{printed, row_line, rule_text, value_line};
ghost use Rattle.rules.specs.Refusals.{all_low};

use crate::inner::put::{Text, trit};

impl<const N: usize> Text<N> {
    pub fn names(&mut self, ns: &[u16])
        requires low { all_low ns.now ≡ true }
        requires room { length self.old + length (rule_text ns.now) ≤ N }
        ensures { self.new ≡ self.old ++ rule_text ns.now }
    {
        if ns.is_empty() {
            return self.bytes(b" (empty)");
        }
        for n in ns {
            self.spaced(*n);
        }
    }

    // The trit that is i-th from the left: a mark before every fourth.
    fn marked(&mut self, i: usize, x: u8)
        requires { length self.old + length (marked_of i x) ≤ N }
        ensures { self.new ≡ self.old ++ marked_of i x }
    {
        if i != 0 && i % 4 == 0 {
            self.byte(b'_');
        }
        self.byte(trit(trits::inner::trit(x)));
    }

    fn pattern(&mut self, p: &[u8])
        requires { length self.old + length (trits_of p.now) ≤ N }
        ensures { self.new ≡ self.old ++ trits_of p.now }
    {
        for (i, x) in p.iter().rev().enumerate() {
            self.marked(i, *x);
        }
    }

    pub fn row(&mut self, r: &rows::Row)
        requires row_fits { RowFits r.now }
        requires room { length self.old + length (row_line (view r.now)) ≤ N }
        ensures { self.new ≡ self.old ++ row_line (view r.now) }
    {
        self.bytes(b"  ");
        self.pattern(r.masks_in_use());
        self.bytes(b" =>");
        self.names(r.rules.slice());
        self.byte(b'\n');
    }

    pub fn value(&mut self, ns: &[u16])
        requires low { all_low ns.now ≡ true }
        requires room { length self.old + length (value_line ns.now) ≤ N }
        ensures { self.new ≡ self.old ++ value_line ns.now }
    {
        self.byte(b'[');
        for n in ns.iter().rev() {
            self.spaced(*n);
        }
        self.bytes(b" ]:\n");
    }

    pub fn matrix(&mut self, m: &matrix::Matrix)
        requires fits { Fits m.now }
        requires room { length self.old + length (printed (view_of m.now)) ≤ N }
        ensures { self.new ≡ self.old ++ printed (view_of m.now) }
    {
        self.value(&m.value[..m.columns]);
        for r in &m.rows[..m.count] {
            self.row(r);
        }
    }
}
