// Why the program ends before its answer.
use crate::args::{Source, Wrong};
use rules::Refusal;
use std::io;

#[derive(Clone, Copy)]
pub enum Stop {
    Wrong(Wrong),
    Unread(Source, io::Error),
    // The line at which a text is none of a matrix.
    Line(usize),
    // 01's number: Made and Emitted, which C reads as well, have that alone.
    Refused(u8),
    Unwritten(io::Error),
}

impl From<Wrong> for Stop {
    fn from(wrong: Wrong) -> Stop {
        Stop::Wrong(wrong)
    }
}

impl From<Refusal> for Stop {
    fn from(refusal: Refusal) -> Stop {
        Stop::Refused(u8::from(refusal))
    }
}

impl From<io::Error> for Stop {
    fn from(error: io::Error) -> Stop {
        Stop::Unwritten(error)
    }
}
