// What the program writes of a call, and the small things that every test is made from.
use matrix::{Made, Matrix};
use rules::{Cell, Net};
use std::fmt;

// The bytes of the longest printed matrix.
pub(crate) const TEXT_MAX: usize = 4773;

// Cells over 9,999: the first, the first that has no code, and two whose codes a slot cannot hold.
pub(crate) const OVER: [u16; 4] = [10000, 18192, 65533, 65535];

// A matrix as its text, or the number against it.
#[derive(Clone, Copy)]
pub(crate) struct Text(pub(crate) Matrix);

impl fmt::Display for Text {
    fn fmt<W: fmt::Write>(&self, f: &mut fmt::Formatter<W>) -> fmt::Result {
        let mut out = [0; TEXT_MAX];
        match text::print(self.0, &mut out) {
            Ok(n) => {
                for &byte in out.iter().take(n) {
                    f.write_char(char::from(byte))?;
                }
                Ok(())
            }
            Err(why) => writeln!(f, "refused {}", u8::from(why)),
        }
    }
}

// The number of a call, and a word where the matrix that it hands back is not the one expected, slot for slot.
#[derive(Clone, Copy)]
pub(crate) struct Kept(pub(crate) Made, pub(crate) Matrix);

impl fmt::Display for Kept {
    fn fmt<W: fmt::Write>(&self, f: &mut fmt::Formatter<W>) -> fmt::Result {
        write!(f, " {}", self.0.no)?;
        if self.0.matrix != self.1 {
            f.write_str(" changed")?;
        }
        Ok(())
    }
}

// The number of a call and its line's end; where accepted the matrix that was made, else a word if it is not the one handed in.
#[derive(Clone, Copy)]
pub(crate) struct Told(pub(crate) Made, pub(crate) Matrix);

impl fmt::Display for Told {
    fn fmt<W: fmt::Write>(&self, f: &mut fmt::Formatter<W>) -> fmt::Result {
        let Told(made, given) = *self;
        if made.no == 0 {
            return write!(f, " 0\n{}", Text(made.matrix));
        }
        writeln!(f, "{}", Kept(made, given))
    }
}

pub(crate) fn cell(n: u16) -> Net {
    Net::Cell(Cell(n))
}

// The matrix without columns and rows.
pub(crate) fn blank() -> Matrix {
    text::read(b"[ ]:\n").matrix
}
