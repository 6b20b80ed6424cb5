// `print`: the room it needs, and the bytes that it leaves as they are.
use crate::say::{Kept, TEXT_MAX, blank};
use matrix::{Made, Matrix};
use rules::Refusal;
use std::{fmt, io};

pub(crate) fn all(rt: &impl Print) -> io::Result<()> {
    let m = text::read(b"[ %0 ]:\n  X => %10 %11\n  X => (empty)\n").matrix;
    whole(rt, "", m, &mut [b'#'; 38])?;
    whole(rt, "", m, &mut [b'#'; 37])?;
    whole(rt, "", m, &mut [b'#'; 40])?;
    println!(rt; "print into no bytes: {}", put(m, &mut []))?;
    whole(rt, " of no columns and rows", blank(), &mut [b'#'; 4])?;
    whole(rt, " of no columns and rows", blank(), &mut [b'#'; 5])?;
    order(rt, m)?;
    longest_exact(rt)?;
    longest_short(rt)?;
    longest_longer(rt)
}

// The number, and how many bytes were written.
#[derive(Clone, Copy)]
struct Answer(Result<usize, Refusal>);

impl fmt::Display for Answer {
    fn fmt<W: fmt::Write>(&self, f: &mut fmt::Formatter<W>) -> fmt::Result {
        match self.0 {
            Ok(n) => write!(f, "0 bytes {n}"),
            Err(why) => write!(f, "{}", u8::from(why)),
        }
    }
}

fn put(m: Matrix, out: &mut [u8]) -> Answer {
    Answer(text::print(m, out))
}

fn into(rt: &impl Print, of: &str, m: Matrix, out: &mut [u8]) -> io::Result<()> {
    let room = out.len();
    println!(rt; "print{of} into {room} bytes: {}", put(m, out))
}

// A print, and then all bytes of the room.
fn whole(rt: &impl Print, of: &str, m: Matrix, out: &mut [u8]) -> io::Result<()> {
    into(rt, of, m, out)?;
    rt.write_all(out)?;
    if !out.ends_with(b"\n") {
        println!(rt)?;
    }
    Ok(())
}

// "Print of a matrix with %10000 into no room: 4"
fn order(rt: &impl Print, mut m: Matrix) -> io::Result<()> {
    m.value[0] = 10003;
    println!(rt; "print of %10000 into no bytes: {}", put(m, &mut []))?;
    m.value[0] = 18195;
    m.count = 65;
    println!(rt;
        "print of a code that is no net, rows 65, into no bytes: {}",
        put(m, &mut [])
    )
}

// 16 columns and 64 rows of 8 rules, all of them nets of four figures.
fn longest() -> Matrix {
    let mut m = Matrix::new(&[10002; rules::COLUMNS_MAX]).matrix;
    for _ in 0..rules::ROWS_MAX {
        m = m
            .add(
                &[2; rules::COLUMNS_MAX],
                &[10002, 10001, 10000, 9999, 9998, 9997, 9996, 9995],
            )
            .matrix;
    }
    m
}

// What was printed is read again.
fn longest_exact(rt: &impl Print) -> io::Result<()> {
    let m = longest();
    let mut out = [b'#'; TEXT_MAX];
    into(rt, " of the longest", m, &mut out)?;
    let text::ReadMade { no, matrix, .. } = text::read(&out);
    println!(rt; "read again:{}", Kept(Made { no, matrix }, m))
}

fn longest_short(rt: &impl Print) -> io::Result<()> {
    let mut out = [b'#'; TEXT_MAX - 1];
    into(rt, " of the longest", longest(), &mut out)?;
    let [first, .., last] = out;
    println!(rt; "first byte {first}\nlast byte {last}")
}

fn longest_longer(rt: &impl Print) -> io::Result<()> {
    let mut out = [b'#'; TEXT_MAX + 1];
    into(rt, " of the longest", longest(), &mut out)?;
    let [.., last, after] = out;
    println!(rt; "last byte of the text {last}\nbyte after the text {after}")
}
