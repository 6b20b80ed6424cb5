// How many calls were accepted, and how many were refused by which number.
use rules::Refusal;
use std::fmt;

const NET: u8 = Refusal::Net as u8;

const FORM: u8 = Refusal::Form as u8;

#[derive(Clone, Copy, Default)]
pub(crate) struct Tally {
    accepted: u64,
    net: u64,
    form: u64,
    others: u64,
}

impl Tally {
    // A call that gave this number, 0 where accepted.
    pub(crate) fn count(&mut self, no: u8) {
        let calls = match no {
            0 => &mut self.accepted,
            NET => &mut self.net,
            FORM => &mut self.form,
            _ => &mut self.others,
        };
        *calls = calls.saturating_add(1);
    }
}

impl fmt::Display for Tally {
    fn fmt<W: fmt::Write>(&self, f: &mut fmt::Formatter<W>) -> fmt::Result {
        write!(
            f,
            "{} accepted, {} refused {NET}, {} refused {FORM}, {} others",
            self.accepted, self.net, self.form, self.others
        )
    }
}
