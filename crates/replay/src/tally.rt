// How many questions of each kind were asked and how many answers differed; the first differences are noted, and written out before the counts.
use std::{fmt, io};

#[derive(Clone, Copy)]
pub(crate) enum Kind {
    Text,
    Merge,
    Enable,
    Outputs,
    Refused,
    Tree,
    Peak,
    Short,
    Check,
    Print,
    OneHot,
    Assume,
    Disjoint,
    Prefix,
    Damaged,
}

// The kinds in their order, in which they are written out.
const KINDS: [Kind; 15] = [
    Kind::Text,
    Kind::Merge,
    Kind::Enable,
    Kind::Outputs,
    Kind::Refused,
    Kind::Tree,
    Kind::Peak,
    Kind::Short,
    Kind::Check,
    Kind::Print,
    Kind::OneHot,
    Kind::Assume,
    Kind::Disjoint,
    Kind::Prefix,
    Kind::Damaged,
];

impl fmt::Display for Kind {
    fn fmt<W: fmt::Write>(&self, f: &mut fmt::Formatter<W>) -> fmt::Result {
        f.write_str(match *self {
            Kind::Text => "M text read and printed back",
            Kind::Merge => "J merge",
            Kind::Enable => "E enable added, then normalized",
            Kind::Outputs => "O outputs",
            Kind::Refused => "R dispatch refused",
            Kind::Tree => "P dispatch into 1,024 entries",
            Kind::Peak => "P dispatch into as many as the peak",
            Kind::Short => "P dispatch into one fewer, refused",
            Kind::Check => "P check of the tree",
            Kind::Print => "T tree printed",
            Kind::OneHot => "H one-hot emission",
            Kind::Assume => "A assume",
            Kind::Disjoint => "I disjoint emission",
            Kind::Prefix => "L disjoint prefix",
            Kind::Damaged => "D damaged text read",
        })
    }
}

#[derive(Clone, Copy, Default)]
struct Count {
    asked: usize,
    differed: usize,
}

// A case, and the letter of the line there.
#[derive(Clone, Copy)]
struct Difference {
    case: usize,
    letter: u8,
}

impl fmt::Display for Difference {
    fn fmt<W: fmt::Write>(&self, f: &mut fmt::Formatter<W>) -> fmt::Result {
        let Difference { case, letter } = *self;
        write!(f, "case {case} differs at {}", char::from(letter))
    }
}

const SHOWN: usize = 20;

#[derive(Clone, Copy)]
pub(crate) struct Tally {
    counts: [Count; KINDS.len()],
    cases: usize,
    differences: usize,
    first: [Option<Difference>; SHOWN],
}

impl Tally {
    pub(crate) fn new() -> Tally {
        Tally {
            counts: [Count {
                asked: 0,
                differed: 0,
            }; KINDS.len()],
            cases: 0,
            differences: 0,
            first: [None; SHOWN],
        }
    }

    pub(crate) fn cases(&self) -> usize {
        self.cases
    }

    pub(crate) fn begin(&mut self) {
        self.cases = self.cases.saturating_add(1);
    }

    // A difference, at the letter of a line.
    pub(crate) fn differ(&mut self, letter: u8) {
        let case = self.cases;
        if let Some(noted) = self.first.get_mut(self.differences) {
            *noted = Some(Difference { case, letter });
        }
        self.differences = self.differences.saturating_add(1);
    }

    pub(crate) fn mark(&mut self, kind: Kind, letter: u8, right: bool) {
        let count = &mut self.counts[kind as usize];
        count.asked = count.asked.saturating_add(1);
        if !right {
            count.differed = count.differed.saturating_add(1);
            self.differ(letter);
        }
    }

    pub(crate) fn write(&self, rt: &impl Print) -> io::Result<()> {
        for difference in self.first.iter().flatten() {
            println!(rt; "{difference}")?;
        }
        for (kind, count) in KINDS.iter().zip(&self.counts) {
            let Count { asked, differed } = *count;
            println!(rt; "{kind}: {asked} asked, {differed} differed")?;
        }
        println!(rt; "{} cases, {} differences", self.cases, self.differences)
    }
}
