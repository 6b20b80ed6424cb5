// `read`: what reads, and prints back to itself. Here too: the loop over named texts, which `wrong` runs as well.
use crate::bench;
use crate::say::{TEXT_MAX, blank};
use matrix::Matrix;
use std::io;

// What reads, but for 17 columns and the last two.
const READ: [(&str, &[u8]); 18] = [
    ("[ ]", b"[ ]:\n"),
    ("[ 0 1 X ]", b"[ 0 1 X ]:\n"),
    ("[ %0 ]", b"[ %0 ]:\n"),
    ("[ %9999 %10 %100 ]", b"[ %9999 %10 %100 ]:\n"),
    ("[ %0 %0 ]", b"[ %0 %0 ]:\n"),
    (
        "16 columns",
        b"[ %15 %14 %13 %12 %11 %10 %9 %8 %7 %6 %5 %4 %3 %2 %1 %0 ]:\n  0101_XXXX_1111_0000 => %20\n",
    ),
    (
        "17 columns",
        b"[ %16 %15 %14 %13 %12 %11 %10 %9 %8 %7 %6 %5 %4 %3 %2 %1 %0 ]:\n",
    ),
    ("one rule", b"[ %0 ]:\n  0 => %1\n"),
    ("no rules", b"[ %0 ]:\n  1 => (empty)\n"),
    ("8 rules", b"[ %0 ]:\n  X => %1 %2 %3 %4 %5 %6 %7 %9999\n"),
    (
        "rules by number and not by figures",
        b"[ %0 ]:\n  X => %9 %10 %100\n",
    ),
    ("3 trits", b"[ %2 %1 %0 ]:\n  01X => %1\n"),
    ("4 trits", b"[ %3 %2 %1 %0 ]:\n  01X0 => %1\n"),
    ("5 trits", b"[ %4 %3 %2 %1 %0 ]:\n  01X0_1 => %1\n"),
    ("a row without trits", b"[ ]:\n   => %10\n"),
    ("a row without trits and rules", b"[ ]:\n   => (empty)\n"),
    ("a trit too many without columns", b"[ ]:\n  X => %10\n"),
    ("two spaces without trits", b"[ ]:\n  => %10\n"),
];

pub(crate) fn all(rt: &impl Print) -> io::Result<()> {
    each(rt, &READ)?;
    taken(rt, "64 rows", &bench::tall_text::<{ bench::TALL }>())?;
    taken(rt, "65 rows", &bench::tall_text::<{ bench::TALLER }>())
}

pub(crate) fn each(rt: &impl Print, texts: &[(&str, &[u8])]) -> io::Result<()> {
    for (name, text) in texts {
        taken(rt, name, text)?;
    }
    Ok(())
}

// The number and the line; where it reads, whether it prints back to itself; where not, a word if there are columns or rows.
pub(crate) fn taken(rt: &impl Print, name: &str, text: &[u8]) -> io::Result<()> {
    let read = text::read(text);
    print!(rt; "read of {name}: {} line {}", read.no, read.line)?;
    if read.no == 0 {
        again(rt, read.matrix, text)?;
    } else if read.matrix != blank() {
        print!(rt; " changed")?;
    }
    println!(rt)
}

// Whether a matrix prints as the text.
fn again(rt: &impl Print, m: Matrix, text: &[u8]) -> io::Result<()> {
    let mut out = [0; TEXT_MAX];
    match text::print(m, &mut out) {
        Ok(n) if out.get(..n) == Some(text) => print!(rt; " same"),
        Ok(_) => Ok(()),
        Err(why) => print!(rt; " {}", u8::from(why)),
    }
}
