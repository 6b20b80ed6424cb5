// The calls of codes: what a number codes, and the code of each; and the mux as a table of 27 trits.
// The types and their numbers are those of `rules`; nothing here knows rows or matrices.
#![tactic(auto)]

ghost use Rattle.std.specs.Prelude.{◌<◌, get_or, length, ◌≡◌};
ghost use Rattle.rules.specs.Codes.{code_answer, net_answer, trit_answer, trit_code};
ghost use Rattle.rules.specs.Trits.{mux as mux_of};
ghost use Rattle.trits.specs.Codes.{code_read, net_read, trit_read};
ghost use Rattle.trits.specs.Mux.{table};

pub mod inner;

use rules::{Net, Refusal, Trit};

pub fn trit_of(x: u8) -> Result<Trit, Refusal>
    ensures { trit_read result ≡ trit_answer x }
{
    Trit::try_from(x)
}

pub fn trit_code(t: Trit) -> u8
    ensures { result ≡ trit_code t }
{
    u8::from(t)
}

pub fn net_of(x: u16) -> Result<Net, Refusal>
    ensures { net_read result ≡ net_answer x }
{
    if x <= rules::LAST_NET {
        Ok(Net::from(x))
    } else {
        Err(Refusal::Form)
    }
}

pub fn net_code(n: Net) -> Result<u16, Refusal>
    ensures { code_read result ≡ code_answer n }
{
    let x = u32::from(n);
    if x <= u32::from(rules::LAST_NET) {
        Ok(x as u16)
    } else {
        Err(Refusal::Net)
    }
}

// The mux of every select, one arm and zero arm, at 9 * select + 3 * one + zero.
const MUX: [u8; 27] = [
    // select 0: the zero arm
    0, 1, 2, 0, 1, 2, 0, 1, 2,
    // select 1: the one arm
    0, 0, 0, 1, 1, 1, 2, 2, 2,
    // select X: the arms' trit where they agree
    0, 2, // they differ, and either may be chosen
    2, 2, 1, 2, 2, 2, 2,
];

pub fn mux(select: Trit, one: Trit, zero: Trit) -> Trit
    ensures { trit_code result ≡ mux_of (trit_code select) (trit_code one) (trit_code zero) }
{
    let s = usize::from(trit_code(select));
    let a = usize::from(trit_code(one));
    let b = usize::from(trit_code(zero));
    inner::trit(entry(9 * s + 3 * a + b))
}

// Its contract says that the table in code is the one whose laws are proved.
fn entry(at: usize) -> u8
    requires { at < length table }
    ensures { result ≡ get_or table at 0 }
{
    MUX[at]
}
