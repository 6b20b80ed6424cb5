// `assume` and `add_enable`: what they make, and where they refuse.
use crate::bench;
use crate::say::{OVER, Told, blank, cell};
use matrix::Matrix;
use rules::{Net, Trit};
use std::io;

pub(crate) fn all(rt: &impl Print) -> io::Result<()> {
    assumed(rt)?;
    assume_cells(rt)?;
    enabled(rt)?;
    enable_cells(rt)?;
    enable_counts(rt)
}

// 4's list of places for constants does not have the target.
fn assumed(rt: &impl Print) -> io::Result<()> {
    let cells = text::read(b"[ %0 %1 %0 ]:\n  01X => %10\n").matrix;
    let constants = text::read(b"[ 0 X %0 ]:\n  01X => %10\n").matrix;
    for (name, m, target, value) in [
        ("%0 as 0", cells, cell(0), Trit::Zero),
        ("%0 as X", cells, cell(0), Trit::Undef),
        ("%2 as 1", cells, cell(2), Trit::One),
        ("0 as 1", constants, Net::Const(Trit::Zero), Trit::One),
        ("X as 0", constants, Net::Const(Trit::Undef), Trit::Zero),
        ("1 as 0", constants, Net::Const(Trit::One), Trit::Zero),
    ] {
        print!(rt; "assume of {name}:{}", Told(m.assume(target, value), m))?;
    }
    Ok(())
}

fn assume_cells(rt: &impl Print) -> io::Result<()> {
    let m = text::read(b"[ %9999 ]:\n  1 => %10\n").matrix;
    print!(rt;
        "assume of %9999 as 1:{}",
        Told(m.assume(cell(9999), Trit::One), m)
    )?;
    for n in OVER {
        print!(rt; "assume of %{n}:{}", Told(m.assume(cell(n), Trit::One), m))?;
    }
    Ok(())
}

fn enabled(rt: &impl Print) -> io::Result<()> {
    let m = text::read(b"[ %0 ]:\n  1 => %10\n  X => (empty)\n").matrix;
    for (name, m, enable) in [
        ("%5", m, cell(5)),
        ("%0, a column", m, cell(0)),
        ("%5 to no columns and rows", blank(), cell(5)),
        ("0", m, Net::Const(Trit::Zero)),
        ("X", m, Net::Const(Trit::Undef)),
        ("1", m, Net::Const(Trit::One)),
    ] {
        print!(rt; "add_enable of {name}:{}", Told(m.add_enable(enable), m))?;
    }
    Ok(())
}

fn enable_cells(rt: &impl Print) -> io::Result<()> {
    let m = text::read(b"[ %0 ]:\n  X => %10\n").matrix;
    print!(rt; "add_enable of %9999:{}", Told(m.add_enable(cell(9999)), m))?;
    for n in OVER {
        print!(rt; "add_enable of %{n}:{}", Told(m.add_enable(cell(n)), m))?;
    }
    Ok(())
}

// "16 columns and enable %10000: 1", and the last that have room.
fn enable_counts(rt: &impl Print) -> io::Result<()> {
    let wide = bench::wide();
    print!(rt;
        "add_enable of %10000 to 16 columns:{}",
        Told(wide.add_enable(cell(10000)), wide)
    )?;
    let tall = bench::tall();
    print!(rt;
        "add_enable of %10000 to 64 rows:{}",
        Told(tall.add_enable(cell(10000)), tall)
    )?;
    let made = Matrix { count: 63, ..tall }.add_enable(cell(5));
    println!(rt; "add_enable of %5 to 63 rows: {}", made.no)?;
    println!(rt; "add_enable of %5 to 63 rows, rows: {}", made.matrix.count)?;
    let m = text::read(
        b"[ %14 %13 %12 %11 %10 %9 %8 %7 %6 %5 %4 %3 %2 %1 %0 ]:\n  0000_1111_XXXX_000 => %20\n",
    ).matrix;
    print!(rt;
        "add_enable of 0 to 15 columns:{}",
        Told(m.add_enable(Net::Const(Trit::Zero)), m)
    )
}
