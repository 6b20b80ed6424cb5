// Nets out of a line, loosely: at any place, whatever the line holds.
ghost use Rattle.std.specs.Prelude.{drop, get_or, length, ◌++◌, ◌≡◌, ◌≤◌, ◌<◌};
ghost use Rattle.std.specs.Option.{IfSome};
ghost use Rattle.rules.specs.Bounds.{columns_max};
ghost use Rattle.text.specs.Scan.{cell_at, figure_of, rules_at, scanned, word_at};

// A net's code, and how long it is with the space before it.
#[derive(Clone, Copy)]
pub struct Word {
    pub code: u16,
    pub len: usize,
}

// The figure at a place.
fn figure(s: &[u8], at: usize) -> Option<u16>
    ensures value { result ≡ figure_of (get_or s.now at 0) }
    ensures low { IfSome result (λ n. n < 10) }
{
    let b = *s.get(at)?;
    if b.is_ascii_digit() {
        Some(u16::from(b - b'0'))
    } else {
        None
    }
}

// Four figures at most.
fn cell(s: &[u8], at: usize) -> Option<Word>
    requires { at ≤ length s.now }
    ensures { result ≡ cell_at s.now at }
{
    let a = figure(s, at)?;
    let Some(b) = figure(s, at + 1) else {
        return Some(Word {
            code: rules::FIRST_CELL + a,
            len: 3,
        });
    };
    let Some(c) = figure(s, at + 2) else {
        return Some(Word {
            code: rules::FIRST_CELL + (a * 10 + b),
            len: 4,
        });
    };
    let Some(d) = figure(s, at + 3) else {
        return Some(Word {
            code: rules::FIRST_CELL + (a * 100 + b * 10 + c),
            len: 5,
        });
    };
    Some(Word {
        code: rules::FIRST_CELL + (a * 1000 + b * 100 + c * 10 + d),
        len: 6,
    })
}

// A space and a net.
fn token(s: &[u8], at: usize) -> Option<Word>
    ensures { result ≡ word_at s.now at }
{
    if *s.get(at)? != b' ' {
        return None;
    }
    match *s.get(at + 1)? {
        b'%' => cell(s, at + 2),
        b'0' => Some(Word { code: 0, len: 2 }),
        b'1' => Some(Word { code: 1, len: 2 }),
        b'X' => Some(Word { code: 2, len: 2 }),
        _ => None,
    }
}

// As many as stand there and as there is room for; the numbers after them stay.
pub fn scan(s: &[u8], at: usize, out: &mut [u16]) -> usize
    requires at_bound { at ≤ rules_at columns_max }
    requires out_len_bound { length out.old ≤ columns_max }
    ensures out_after { out.new ≡ scanned (length out.old) s.now at ++ drop result out.old }
    ensures value { result ≡ length (scanned (length out.old) s.now at) }
{
    let mut a = at;
    for (k, net) in out.iter_mut().enumerate() {
        let Some(word) = token(s, a) else {
            return k;
        };
        *net = word.code;
        a += word.len;
    }
    out.len()
}
