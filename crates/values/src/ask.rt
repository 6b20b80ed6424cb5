// A table that nets are asked of, and how an answer is written.
use std::fmt;

// A mux table, how many of its entries are in use, and the trits that it is evaluated over.
#[derive(Clone, Copy)]
pub(crate) struct Table<'a> {
    pub(crate) muxes: &'a [u16],
    pub(crate) used: usize,
    pub(crate) trits: &'a [u8],
}

impl Table<'_> {
    pub(crate) fn net(&self, asked: rules::Net) -> Answer<Sign> {
        let answer = evaluate::evaluate(self.muxes, self.used, self.trits, asked);
        Answer(answer.map(Sign).map_err(u8::from))
    }

    pub(crate) fn cell(&self, asked: u16) -> Answer<Sign> {
        self.net(rules::Net::Cell(rules::Cell(asked)))
    }

    // The constant 1 asked: only the table can be at fault.
    pub(crate) fn form(&self) -> Answer<Sign> {
        self.net(rules::Net::Const(rules::Trit::One))
    }
}

// A trit as it is written.
#[derive(Clone, Copy)]
pub(crate) struct Sign(pub(crate) rules::Trit);

impl fmt::Display for Sign {
    fn fmt<W: fmt::Write>(&self, f: &mut fmt::Formatter<W>) -> fmt::Result {
        f.write_str(match self.0 {
            rules::Trit::Zero => "0",
            rules::Trit::One => "1",
            rules::Trit::Undef => "X",
        })
    }
}

// A net as it is written.
#[derive(Clone, Copy)]
pub(crate) struct Name(pub(crate) rules::Net);

impl fmt::Display for Name {
    fn fmt<W: fmt::Write>(&self, f: &mut fmt::Formatter<W>) -> fmt::Result {
        match self.0 {
            rules::Net::Const(t) => Sign(t).fmt(f),
            rules::Net::Cell(c) => write!(f, "%{}", c.0),
        }
    }
}

// What a call answers, or the number that it refuses with.
#[derive(Clone, Copy)]
pub(crate) struct Answer<T>(pub(crate) Result<T, u8>);

impl<T: fmt::Display> fmt::Display for Answer<T> {
    fn fmt<W: fmt::Write>(&self, f: &mut fmt::Formatter<W>) -> fmt::Result {
        match &self.0 {
            Ok(value) => value.fmt(f),
            Err(no) => write!(f, "refused {no}"),
        }
    }
}
