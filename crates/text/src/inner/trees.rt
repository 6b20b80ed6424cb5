// The lines of a tree. A line is put only where it fits, so that the one walk counts on a buffer without room and writes into one with it.
ghost use Rattle.std.specs.Prelude.{length, true, ◌++◌, map, replicate, ◌≡◌, ◌+◌, ◌-◌, ◌*◌, ◌≤◌, ◌<◌};
ghost use Rattle.rules.specs.Bounds.{node_run, nodes_max, rules_max};
ghost use Rattle.rules.specs.Nets.{cell, first_mux};
ghost use Rattle.rules.specs.Print.{arm_head, printed_tree, arm as arm_of, indent as indent_of};
ghost use Rattle.rules.specs.Refusals.{all_low};
ghost use Rattle.rules.specs.Tree.{Tree, leaf as leaf_of};
ghost use Rattle.rules.specs.Trits.{bit as bit_of};
ghost use Rattle.text.specs.Longs.{head_max, line_max, tree_max};
ghost use Rattle.text.specs.Trees.{CanLay, Laid, Lays, LeafFits, branch_line, last_rules, rule_end};
ghost use Rattle.tree.specs.Form.{Ends, HasTree};

use crate::inner::parse;
use print::inner::put::Text;
use rules::Cell;
use tree::inner::Root;

// The bytes of the longest line after its indent: a net, ` = 0 =>`, rules and LF.
const LINE_MAX: usize = parse::NET_MAX - 1 + 7 + parse::NAMES_MAX + 1;

// Where an arm hangs: how deep, at which test, and whether it is the one arm.
#[derive(Clone, Copy)]
struct Arm {
    level: usize,
    test: Cell,
    one: bool,
    ghost low: { cell test.0 < first_mux },
}

// The rules of a leaf, as a store has them: the numbers of cells.
#[derive(Clone, Copy)]
struct Leaf<'a> {
    rules: &'a [u16],
    ghost few: { length rules.now ≤ rules_max },
    ghost low: { all_low (map cell rules.now) ≡ true },
}

impl<'a> Leaf<'a> {
    // Those of the leaf of n in which the store ends.
    fn last(store: &'a [u16], n: usize) -> Self
        requires { LeafFits store.now n }
        ensures { map cell result.rules.now ≡ last_rules store.now n }
    {
        let s = store.len() - tree::inner::NODE_RUN + 1;
        Leaf {
            rules: &store[s..s + n],
        }
    }

    // Puts their nets, which are what a text has, and ends the line.
    fn end(self, text: &mut Text<LINE_MAX>)
        requires { length text.old + length (rule_end (map cell self.rules.now)) ≤ line_max }
        ensures { text.new ≡ text.old ++ rule_end (map cell self.entry.rules.now) }
    {
        let mut nets = [0; rules::RULES_MAX];
        for (i, n) in self.rules.iter().enumerate() {
            nets[i] = rules::FIRST_CELL + *n;
        }
        text.names(&nets[..self.rules.len()]);
        text.byte(b'\n');
    }
}

// The tested net and the arm's bit. Inline: the line of every arm begins with it, and a call for each makes the print of a small tree an eighth dearer.
#[inline(always)]
fn head(text: &mut Text<LINE_MAX>, arm: Arm)
    requires { length text.old + length (arm_head 0 (cell arm.test.0) (bit_of arm.one)) ≤ line_max }
    ensures { text.new ≡ text.old ++ arm_head 0 (cell arm.test.0) (bit_of arm.one) }
{
    text.net(rules::FIRST_CELL + arm.test.0);
    text.bytes(b" = ");
    text.byte(b'0' + u8::from(arm.one));
    text.bytes(b" =>");
}

// The line at the end of a buffer, and spaces before it.
fn indented(out: &mut [u8], line: &[u8])
    requires { length line.now ≤ length out.old }
    ensures { out.new ≡ replicate (length out.old - length line.now) 32 ++ line.now }
{
    let n = out.len() - line.len();
    out[..n].fill(b' ');
    out[n..].copy_from_slice(line);
}

// A buffer, and how many bytes it was to have by now.
#[derive(Drop)]
struct Sheet<'a> {
    out: &'a mut [u8],
    at: usize,
}

impl<'a> Sheet<'a> {
    // Two spaces a level, and the line.
    fn lay(&mut self, level: usize, line: &[u8])
        requires { self.old.at + length (indent_of level ++ line.now) ≤ tree_max }
        ensures { Lays self.old self.new (indent_of level ++ line.now) }
    {
        let at = self.at;
        let end = at + 2 * level + line.len();
        if end <= self.out.len() {
            indented(&mut self.out[at..end], line);
        }
        self.at = end;
    }

    // An arm that is a leaf: none if it is empty.
    fn leaf(&mut self, arm: Arm, leaf: Leaf<'_>)
        requires { self.old.at + length (arm_of arm.level (cell arm.test.0) (bit_of arm.one) (leaf_of (map cell leaf.rules.now))) ≤ tree_max }
        ensures { Lays self.old self.new (arm_of arm.level (cell arm.test.0) (bit_of arm.one) (leaf_of (map cell leaf.entry.rules.now))) }
    {
        if leaf.rules.is_empty() {
            return;
        }
        let mut line = Text::new();
        head(&mut line, arm);
        leaf.end(&mut line);
        self.lay(arm.level, line.as_bytes());
    }

    fn branch(&mut self, arm: Arm)
        requires { self.old.at + length (branch_line arm.level (cell arm.test.0) (bit_of arm.one)) ≤ tree_max }
        ensures { Lays self.old self.new (branch_line arm.level (cell arm.test.0) (bit_of arm.one)) }
    {
        let mut line = Text::new();
        head(&mut line, arm);
        line.byte(b'\n');
        self.lay(arm.level, line.as_bytes());
    }

    // The arm in whose entries the store ends: the zero arm stands before the one arm.
    fn arm(&mut self, arm: Arm, store: &[u16])
        requires { CanLay arm.level (cell arm.test.0) (bit_of arm.one) store.now self.old.at }
        ensures { (t : Tree) → Ends t store.now → Lays self.old self.new (arm_of arm.level (cell arm.test.0) (bit_of arm.one) t) }
    {
        match tree::inner::root_of(store) {
            Root::Leaf(n) => self.leaf(arm, Leaf::last(store, n)),
            Root::Branch { test, one, zero } => {
                self.branch(arm);
                let level = arm.level + 1;
                self.arm(
                    Arm {
                        level,
                        test,
                        one: false,
                    },
                    &store[..zero],
                );
                self.arm(
                    Arm {
                        level,
                        test,
                        one: true,
                    },
                    &store[..one],
                );
            }
        }
    }

    // A tree that is one leaf.
    fn alone(&mut self, leaf: Leaf<'_>)
        requires { self.old.at ≡ 0 }
        ensures { Lays self.old self.new (printed_tree (leaf_of (map cell leaf.entry.rules.now))) }
    {
        let mut line = Text::new();
        line.bytes(b"=>");
        leaf.end(&mut line);
        self.lay(0, line.as_bytes());
    }
}

pub fn whole(store: &[u16], out: &mut [u8]) -> usize
    requires { HasTree store.now × (length store.now ≤ node_run * nodes_max) }
    ensures { (t : Tree) → Ends t store.now → Laid out.old 0 (printed_tree t) out.new result }
{
    let mut sheet = Sheet { out, at: 0 };
    match tree::inner::root_of(store) {
        Root::Leaf(n) => sheet.alone(Leaf::last(store, n)),
        Root::Branch { test, one, zero } => {
            sheet.arm(
                Arm {
                    level: 0,
                    test,
                    one: false,
                },
                &store[..zero],
            );
            sheet.arm(
                Arm {
                    level: 0,
                    test,
                    one: true,
                },
                &store[..one],
            );
        }
    }
    sheet.at
}
