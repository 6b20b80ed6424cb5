// A text in the making: bytes, numbers and nets, each put behind what stands there.
// They are put by hand and not through `Display`, whose every call may fail: of a text it is proved that there is room.
ghost use Rattle.std.specs.Prelude.{◌≡◌, ℕ, ◌+◌, ◌<◌, ◌≤◌, List, [], ◌∷◌, ◌++◌, length, take};
ghost use Rattle.print.specs.Texts.{lead as lead_of, spaced as spaced_of};
ghost use Rattle.rules.specs.Bounds.{mux_first};
ghost use Rattle.rules.specs.Codes.{trit_code};
ghost use Rattle.rules.specs.Nets.{first_mux};
ghost use Rattle.rules.specs.Print.{digit, digits, net as net_of, trit as trit_of};

use rules::{Net, Trit};
use std::marker::Model;

// At most N bytes; what a text has after its length is no part of it.
#[derive(Drop)]
pub struct Text<const N: usize> {
    bytes: [u8; N],
    len: usize,
}

// Clauses see the bytes that were put, first to last.
impl<const N: usize> Model for Text<N> {
    ghost Value = { List ℕ };

    ghost view = { λ t. take t.len t.bytes };

    ghost invariant = { λ t. t.len ≤ N };
}

// The last figure of n.
fn figure(n: u16) -> u8
    ensures { result ≡ digit n }
{
    b'0' + (n % 10) as u8
}

pub fn trit(t: Trit) -> u8
    ensures { result ≡ trit_of (trit_code t) }
{
    match t {
        Trit::Zero => b'0',
        Trit::One => b'1',
        Trit::Undef => b'X',
    }
}

impl<const N: usize> Text<N> {
    pub fn new() -> Self
        ensures { result ≡ [] }
    {
        Text {
            bytes: [0; N],
            len: 0,
        }
    }

    pub fn as_bytes(&self) -> &[u8]
        ensures { result.now ≡ self.now }
    {
        &self.bytes[..self.len]
    }

    pub fn byte(&mut self, b: u8)
        requires { length self.old + 1 ≤ N }
        ensures { self.new ≡ self.old ++ b ∷ [] }
    {
        // The place is read once: a write of a byte leaves the compiler in doubt whether the length is still the same.
        let at = self.len;
        self.bytes[at] = b;
        self.len = at + 1;
    }

    pub fn bytes(&mut self, src: &[u8])
        requires { length self.old + length src.now ≤ N }
        ensures { self.new ≡ self.old ++ src.now }
    {
        let at = self.len;
        let end = at + src.len();
        let all = &mut self.bytes[..];
        all[at..end].copy_from_slice(src);
        self.len = end;
    }

    // The figure of n's thousands, hundreds or tens, where n has as many.
    fn lead(&mut self, n: u16, unit: u16)
        requires unit_pos { 0 < unit }
        requires room { length self.old + length (lead_of n unit) ≤ N }
        ensures { self.new ≡ self.old ++ lead_of n unit }
    {
        if unit <= n {
            self.byte(figure(n / unit));
        }
    }

    fn number(&mut self, n: u16)
        requires n_lt_mux_first { n < mux_first }
        requires room { length self.old + length (digits n) ≤ N }
        ensures { self.new ≡ self.old ++ digits n }
    {
        self.lead(n, 1000);
        self.lead(n, 100);
        self.lead(n, 10);
        self.byte(figure(n));
    }

    pub fn net(&mut self, n: u16)
        requires n_lt_first_mux { n < first_mux }
        requires room { length self.old + length (net_of n) ≤ N }
        ensures { self.new ≡ self.old ++ net_of n }
    {
        match Net::from(n) {
            Net::Const(t) => self.byte(trit(t)),
            Net::Cell(k) => {
                self.byte(b'%');
                self.number(k.0);
            }
        }
    }

    // A space and a net.
    pub fn spaced(&mut self, n: u16)
        requires n_lt_first_mux { n < first_mux }
        requires room { length self.old + length (spaced_of n) ≤ N }
        ensures { self.new ≡ self.old ++ spaced_of n }
    {
        self.byte(b' ');
        self.net(n);
    }
}
