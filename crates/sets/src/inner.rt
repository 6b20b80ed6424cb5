// What rows and matrices need of rule sets.
ghost use Rattle.std.specs.Prelude.{◌<◌, ◌≤◌, length, take, [], ◌≡◌};
ghost use Rattle.lists.specs.Lists.{all, mem};
ghost use Rattle.rules.specs.Bounds.{rules_max};
ghost use Rattle.rules.specs.Given.{ascends, cells};
ghost use Rattle.rules.specs.Matrix.{set_of, union};
ghost use Rattle.rules.specs.Nets.{is_name, is_net};
ghost use Rattle.sets.specs.Insert.{Inserted};
ghost use Rattle.sets.specs.Sets.{fitted, list_of, rules_from, wide_from};

use crate::{Rules, Wide};

// No rules.
pub fn none() -> Rules
    ensures { result ≡ rules_from [] }
{
    Rules {
        items: [0; rules::RULES_MAX],
        count: 0,
    }
}

impl Rules {
    // The slots in use: a count may say more than there are.
    pub fn slice(&self) -> &[u16]
        ensures few { length result.now ≤ rules_max }
        ensures items { result.now ≡ list_of self.now }
    {
        let n = self.count.min(rules::RULES_MAX);
        &self.items[..n]
    }

    pub fn holds(&self, x: u16) -> bool
        ensures { result ≡ mem x (list_of self.now) }
    {
        self.slice().contains(&x)
    }

    pub fn named(&self) -> bool
        ensures { result ≡ all is_name (list_of self.now) }
    {
        names(self.slice())
    }

    // The cells ascend strictly; constants among them are passed over.
    pub fn ascending(&self) -> bool
        ensures { result ≡ ascends (cells (list_of self.now)) }
    {
        self.slice()
            .iter()
            .filter(|x| **x >= rules::FIRST_CELL)
            .is_sorted_by(|x, y| **x < **y)
    }
}

pub fn is_net(x: u32) -> bool
    ensures { result ≡ is_net x }
{
    x <= u32::from(rules::LAST_NET)
}

pub fn is_name(x: u32) -> bool
    ensures { result ≡ is_name x }
{
    (u32::from(rules::FIRST_CELL)..=u32::from(rules::LAST_CELL)).contains(&x)
}

pub fn nets(items: &[u16]) -> bool
    ensures { result ≡ all is_net items.now }
{
    items.iter().all(|x| is_net(u32::from(*x)))
}

pub fn names(items: &[u16]) -> bool
    ensures { result ≡ all is_name items.now }
{
    items.iter().all(|x| is_name(u32::from(*x)))
}

// The one insertion: the first `count` items are a set, and 0 stands after them; gives the new count. The two stand apart, as they do in C's structs.
// A set handed in may be out of order, and is taken as it stands: so the place is not found by halves.
pub fn insert(items: &mut [u16], count: usize, x: u16) -> usize
    requires { count < length items.old }
    ensures { Inserted items.old count x items.new result }
{
    let at = items[..count].iter().position(|y| *y >= x).unwrap_or(count);
    if at < count && items[at] == x {
        return count;
    }
    items.copy_within(at..count, at + 1);
    items[at] = x;
    count + 1
}

// From the last to the first: what is too many at one of them is too many at the first.
pub fn collect(rules: &[u16]) -> Option<Rules>
    ensures { result ≡ fitted (set_of rules.now) }
{
    let mut items = [0; rules::RULES_MAX + 1];
    let mut count = 0;
    for x in rules.iter().rev() {
        count = insert(&mut items, count, *x);
        if count > rules::RULES_MAX {
            return None;
        }
    }
    let mut made = none();
    made.items.copy_from_slice(&items[..rules::RULES_MAX]);
    made.count = count;
    Some(made)
}

// Into b, from the last rule of a to its first.
pub fn united(a: Rules, b: Rules) -> Wide
    ensures { result ≡ wide_from (union (list_of a) (list_of b)) }
{
    let used = b.slice();
    let mut items = [0; 2 * rules::RULES_MAX];
    let mut count = used.len();
    items[..count].copy_from_slice(used);
    for x in a.slice().iter().rev() {
        count = insert(&mut items, count, *x);
    }
    Wide { items, count }
}

impl Wide {
    // The set, if one has room for it.
    pub fn fit(self) -> Option<Rules>
        ensures { result ≡ fitted (take self.count self.items) }
    {
        if self.count > rules::RULES_MAX {
            return None;
        }
        let used = &self.items[..self.count];
        let mut items = [0; rules::RULES_MAX];
        items[..used.len()].copy_from_slice(used);
        Some(Rules {
            items,
            count: self.count,
        })
    }
}
