// What the matrix needs of rows.
// Where an array of 16 slots is made of a slice, at most 16 items are asked for: a slice's length is no part of its type.
ghost use Rattle.std.specs.Prelude.{length, replicate, take, [], ◌++◌, ◌∷◌, ◌≡◌, ◌+◌, ◌<◌, ◌≤◌};
ghost use Rattle.lists.specs.Lists.{all, kept};
ghost use Rattle.lists.specs.Vec.{vec};
ghost use Rattle.rows.specs.Rows.{places, row_from, settled, view};
ghost use Rattle.rules.specs.Bounds.{columns_max};
ghost use Rattle.rules.specs.Codes.{net_code};
ghost use Rattle.rules.specs.Matrix.{all_x};
ghost use Rattle.rules.specs.Meaning.{fits};
ghost use Rattle.rules.specs.Steps.{drops, place, takes, walk};
ghost use Rattle.rules.specs.Trits.{is_trit};
ghost use Rattle.sets.specs.Sets.{list_of, rules_from};

impl crate::Row {
    // The masks in use: a length may say more than there are slots.
    pub fn masks_in_use(&self) -> &[u8]
        ensures { result.now ≡ (view self.now).pattern }
    {
        &self.pattern[..self.len.min(rules::COLUMNS_MAX)]
    }
}

// The row of a slot past the count.
pub fn blank() -> crate::Row
    ensures { result ≡ row_from (record { pattern = []; rules = [] }) }
{
    crate::Row {
        pattern: [0; rules::COLUMNS_MAX],
        len: 0,
        rules: sets::inner::none(),
    }
}

pub fn undef(pattern: &[u8]) -> bool
    ensures { result ≡ all_x pattern.now }
{
    pattern.iter().all(|mask| *mask == rules::UNDEF)
}

fn is_trit(mask: u8) -> bool
    ensures { result ≡ is_trit mask }
{
    rules::Trit::try_from(mask).is_ok()
}

pub fn trits(pattern: &[u8]) -> bool
    ensures { result ≡ all is_trit pattern.now }
{
    pattern.iter().all(|mask| is_trit(*mask))
}

// A net that stands in no column would get the number of columns.
fn first_of(nets: &[u16], x: u16) -> usize
    ensures { result ≡ place x nets.now }
{
    nets.iter().position(|net| *net == x).unwrap_or(nets.len())
}

// Once a matrix, so that no row looks a net up.
pub fn firsts(nets: &[u16]) -> [usize; rules::COLUMNS_MAX]
    requires { length nets.now ≤ columns_max }
    ensures { result ≡ vec columns_max 0 (places nets.now) }
{
    let mut made = [0; rules::COLUMNS_MAX];
    for (i, x) in nets.iter().enumerate() {
        made[i] = first_of(nets, *x);
    }
    made
}

fn fits(mask: u8, value: u8) -> bool
    ensures { result ≡ fits mask value }
{
    mask == rules::UNDEF || mask == value
}

// Masks stay numbers: they come out of an array and go back as they are.
fn drops(net: rules::Net, first: u8, mask: u8) -> bool
    ensures { result ≡ drops (net_code net) first mask }
{
    match net {
        rules::Net::Const(t) => !fits(mask, u8::from(t)),
        rules::Net::Cell(_) => first != rules::UNDEF && !fits(mask, first),
    }
}

fn takes(net: rules::Net, first: u8, mask: u8) -> u8
    ensures { result ≡ takes (net_code net) first mask }
{
    match net {
        rules::Net::Cell(_) if first == rules::UNDEF => mask,
        _ => first,
    }
}

// Columns in order: a net's first column holds what the row asks of it so far.
pub fn settle(
    nets: &[u16],
    firsts: [usize; rules::COLUMNS_MAX],
    mut pattern: [u8; rules::COLUMNS_MAX],
) -> Option<[u8; rules::COLUMNS_MAX]>
    requires narrow { length nets.now ≤ columns_max }
    requires looked_up { firsts ≡ vec columns_max 0 (places nets.now) }
    requires tidy { pattern ≡ vec columns_max 0 (take (length nets.now) pattern) }
    ensures { result ≡ settled (walk nets.now (length nets.now) 0 (take (length nets.now) pattern)) }
{
    for (j, x) in nets.iter().enumerate() {
        let net = rules::Net::from(*x);
        let f = firsts[j];
        let first = pattern[f];
        let mask = pattern[j];
        if drops(net, first, mask) {
            return None;
        }
        pattern[f] = takes(net, first, mask);
    }
    Some(pattern)
}

// The items that are not gone, and the filler in the slots after them.
pub fn strip<T: Copy, const N: usize>(filler: T, gone: &[bool], items: &[T]) -> [T; N]
    requires { length items.now ≤ N }
    ensures { result ≡ vec N filler (kept gone.now items.now) }
{
    let mut made = [filler; N];
    let mut k = 0;
    for (goes, item) in gone.iter().zip(items) {
        if !*goes {
            made[k] = *item;
            k += 1;
        }
    }
    made
}

// The items, and the filler in the slots after them.
pub fn tidy<T: Copy, const N: usize>(filler: T, items: &[T]) -> [T; N]
    requires { length items.now ≤ N }
    ensures { result ≡ vec N filler items.now }
{
    joined(filler, items, &[])
}

pub fn joined<T: Copy, const N: usize>(filler: T, a: &[T], b: &[T]) -> [T; N]
    requires { length a.now + length b.now ≤ N }
    ensures { result ≡ vec N filler (a.now ++ b.now) }
{
    let mut made = [filler; N];
    let slots = &mut made[..];
    slots[..a.len()].copy_from_slice(a);
    slots[a.len()..a.len() + b.len()].copy_from_slice(b);
    made
}

pub fn tidy_rules(r: sets::Rules) -> sets::Rules
    ensures { result ≡ rules_from (list_of r) }
{
    let rules = r.slice();
    sets::Rules {
        items: tidy(0, rules),
        count: rules.len(),
    }
}

pub fn alone(a: &[u8], w: usize) -> [u8; rules::COLUMNS_MAX]
    requires { length a.now + w ≤ columns_max }
    ensures { result ≡ vec columns_max 0 (a.now ++ replicate w 2) }
{
    joined(0, a, &[rules::UNDEF; rules::COLUMNS_MAX][..w])
}

// The 0 of the enable's own column is the first of the slots past the n.
pub fn off(n: usize) -> [u8; rules::COLUMNS_MAX]
    requires { n < columns_max }
    ensures { result ≡ vec columns_max 0 (replicate n 2 ++ (0 ∷ [])) }
{
    alone(&[], n)
}
