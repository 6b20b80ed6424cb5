// The words of an argument: numbers, nets, and settings of nets.
use rules::{Cell, Net, Trit};

// The last number of a cell that the net of a mux has.
const LAST_CELL: u16 = rules::CELL_MAX + rules::MUX_MAX as u16;

// A number has no zero in front. One over the last of its type is the last.
pub(crate) fn number_of(word: &[u8]) -> Option<usize> {
    if matches!(word, [] | [b'0', _, ..]) {
        return None;
    }
    let mut number: usize = 0;
    for b in word {
        let digit = char::from(*b).to_digit(10)?;
        number = number.saturating_mul(10).saturating_add(digit as usize);
    }
    Some(number)
}

// A cell over 9,999 is a net all the same: the calls refuse it.
pub(crate) fn net_of(word: &[u8]) -> Option<Net> {
    match word {
        [b] => trit_of(*b).map(Net::Const),
        [b'%', digits @ ..] => {
            let number = u16::try_from(number_of(digits)?).ok()?;
            (number <= LAST_CELL).then_some(Net::Cell(Cell(number)))
        }
        _ => None,
    }
}

fn trit_of(b: u8) -> Option<Trit> {
    match b {
        b'0' => Some(Trit::Zero),
        b'1' => Some(Trit::One),
        b'X' => Some(Trit::Undef),
        _ => None,
    }
}

// One part of a setting, as %3=X.
fn set(part: &[u8], trits: &mut [u8]) -> Option<()> {
    let [net @ .., b'=', value] = part else {
        return None;
    };
    let Net::Cell(cell) = net_of(net)? else {
        return None;
    };
    *trits.get_mut(usize::from(cell.0))? = u8::from(trit_of(*value)?);
    Some(())
}

pub(crate) fn set_all(word: &[u8], trits: &mut [u8]) -> Option<()> {
    for part in word.split(|b| *b == b',') {
        set(part, trits)?;
    }
    Some(())
}
