// What the program writes: texts, lines of nets, and 01's numbers by name.
use crate::args::{Argument, Source, WORD_MAX, Wrong};
use crate::stop::Stop;
use emit::Emitted;
use rules::{Net, Trit};
use std::env::Env;
use std::io::Write;
use std::{fmt, io};

// More than the text of the largest tree that a dispatch gives has.
const TREE_TEXT_MAX: usize = 131072;

// More than what the system says of an error has.
const REASON_MAX: usize = 320;

// The net that the first mux drives.
const FIRST_DRIVEN: u16 = rules::CELL_MAX + 1;

const HELP: &str = "\
doorpigeon COMMAND [OPTIONS] [FILE]

FILE is a printed matrix; standard input if it is missing or -.

  read              the matrix, printed back
  normal            the normalized matrix
  enable            the matrix with the enable added
  outputs           its outputs, one a line
  tree              the decision tree
  muxes             the muxes of all outputs, then the net of each output
  eval              the value of each output at the setting given by -v
  merge NET CHILD   FILE merged with the matrix in the file CHILD at NET
  help, -h, --help  this text

  -e NET            the enable, 1 if not given: -e %5 (enable, tree, muxes, eval)
  -s N              entries of the node store, 1024 if not given: -s 100 (tree, muxes, eval)
  -v SETTING        nets and their values, unknown if not named: -v %0=1,%3=X (eval)

A refusal is one line: refused, its number and its name.
";

// A net as it is printed.
#[derive(Clone, Copy)]
struct NetText(Net);

impl From<u16> for NetText {
    fn from(code: u16) -> NetText {
        NetText(Net::from(code))
    }
}

impl fmt::Display for NetText {
    fn fmt<W: fmt::Write>(&self, f: &mut fmt::Formatter<W>) -> fmt::Result {
        match self.0 {
            Net::Const(Trit::Zero) => f.write_str("0"),
            Net::Const(Trit::One) => f.write_str("1"),
            Net::Const(Trit::Undef) => f.write_str("X"),
            Net::Cell(cell) => write!(f, "%{}", cell.0),
        }
    }
}

pub(crate) fn help(to: &impl Print) -> io::Result<()> {
    to.print(HELP)
}

// In a frame of its own, as are a matrix and a tree that are shown: what they hold while they write is no part of any other.
#[inline(never)]
pub(crate) fn stopped(rt: &(impl Env + Print), err: &impl Print, stop: Stop) -> io::Result<()> {
    match stop {
        Stop::Wrong(wrong) => usage(rt, err, wrong),
        Stop::Unread(source, reason) => unread(rt, err, source, reason),
        Stop::Line(line) => {
            println!(rt; "refused 11 LINE line {line} (see README.md, The text of a matrix)")
        }
        Stop::Refused(no) => println!(rt; "refused {no} {}", name(no)),
        Stop::Unwritten(error) => Err(error),
    }
}

fn word(rt: &impl Env, err: &impl Print, argument: Argument) -> io::Result<()> {
    let mut buf = [0u8; WORD_MAX];
    err.write_all(argument.bytes(rt, &mut buf))
}

fn usage(rt: &impl Env, err: &impl Print, wrong: Wrong) -> io::Result<()> {
    let Some(argument) = wrong.word() else {
        return println!(err; "doorpigeon: {wrong}");
    };
    err.print("doorpigeon: ")?;
    word(rt, err, argument)?;
    err.println(wrong)
}

fn unread(rt: &impl Env, err: &impl Print, source: Source, reason: io::Error) -> io::Result<()> {
    err.print("doorpigeon: can't read ")?;
    match source {
        Source::Input => err.print("standard input")?,
        Source::File(path) => word(rt, err, path)?,
    }
    let mut buf = [0u8; REASON_MAX];
    println!(err; ": {}", said(reason, &mut buf)?)?;
    err.println("doorpigeon: write the path of a printed matrix, or - for standard input")
}

// What the system says, without the number that std sets after it.
fn said<'a>(reason: io::Error, buf: &'a mut [u8]) -> io::Result<&'a str> {
    let room = buf.len();
    let mut rest = &mut *buf;
    write!(rest, "{reason}")?;
    let used = room.saturating_sub(rest.len());
    let all = str::from_utf8(&buf[..used]).unwrap_or("");
    Ok(
        all.split_once(" (os error ")
            .map_or(all, |(words, _)| words),
    )
}

// By its number, since a call that C makes as well hands over no more.
fn name(no: u8) -> &'static str {
    match no {
        1 => "COLUMNS",
        2 => "ROWS",
        3 => "SHAPE",
        4 => "NET",
        5 => "RULES",
        6 => "CATCH",
        7 => "NODES",
        8 => "WIDTH",
        9 => "OVERLAP",
        10 => "ROOM",
        11 => "LINE",
        _ => "FORM",
    }
}

// No text is longer than the bytes that were lent to it.
fn bytes(rt: &impl Print, out: &[u8], n: usize) -> io::Result<()> {
    rt.write_all(&out[..n.min(out.len())])
}

#[inline(never)]
pub(crate) fn matrix(rt: &impl Print, m: matrix::Matrix) -> Result<(), Stop> {
    let mut out = [0u8; text::TEXT_MAX];
    let n = text::print(m, &mut out)?;
    Ok(bytes(rt, &out, n)?)
}

pub(crate) fn made(rt: &impl Print, made: matrix::Made) -> Result<(), Stop> {
    if made.no != 0 {
        return Err(Stop::Refused(made.no));
    }
    matrix(rt, made.matrix)
}

#[inline(never)]
pub(crate) fn tree(rt: &impl Print, store: &[u16], root: rules::Place) -> Result<(), Stop> {
    let mut out = [0u8; TREE_TEXT_MAX];
    let n = text::print_tree(store, root, &mut out)?;
    Ok(bytes(rt, &out, n)?)
}

pub(crate) fn nets(rt: &impl Print, nets: &[u16]) -> io::Result<()> {
    for net in nets {
        println!(rt; "{}", NetText::from(*net))?;
    }
    Ok(())
}

pub(crate) fn muxes(rt: &impl Print, table: &[u16], used: usize) -> io::Result<()> {
    let (muxes, _) = table.as_chunks::<{ evaluate::inner::MUX_RUN }>();
    for (driven, [select, one, zero]) in (FIRST_DRIVEN..).zip(muxes).take(used) {
        println!(rt;
            "%{driven} = mux {} {} {}",
            NetText::from(*select),
            NetText::from(*one),
            NetText::from(*zero)
        )?;
    }
    Ok(())
}

pub(crate) fn pairs(rt: &impl Print, outputs: &[u16], nets: &[u16]) -> io::Result<()> {
    for (output, net) in outputs.iter().zip(nets) {
        println!(rt; "{} = {}", NetText::from(*output), NetText::from(*net))?;
    }
    Ok(())
}

pub(crate) fn values(
    rt: &impl Print,
    outputs: &[u16],
    emitted: Emitted,
    table: &[u16],
    trits: &[u8],
) -> Result<(), Stop> {
    for (output, net) in outputs.iter().zip(&emitted.nets) {
        let value = evaluate::evaluate(table, emitted.used, trits, Net::from(*net))?;
        println!(rt;
            "{} = {}",
            NetText::from(*output),
            NetText(Net::Const(value))
        )?;
    }
    Ok(())
}
