// `merge`: what overflows, and where it may not be made.
use crate::bench;
use crate::say::{OVER, Told, blank, cell};
use matrix::Matrix;
use rules::{Net, Trit};
use std::io;

pub(crate) fn all(rt: &impl Print) -> io::Result<()> {
    columns(rt)?;
    rows(rt)?;
    rule_sets(rt)?;
    at_constants(rt)?;
    at_cells(rt)?;
    order(rt)?;
    order_named(rt)?;
    two_faults(rt)
}

fn merged(parent: Matrix, at: Net, child: Matrix) -> Told {
    Told(parent.merge(at, child), parent)
}

fn columns(rt: &impl Print) -> io::Result<()> {
    let parent = text::read(b"[ %7 %6 %5 %4 %3 %2 %1 %0 ]:\n  01X0_1XX1 => %10\n").matrix;
    let eight = text::read(b"[ %17 %16 %15 %14 %13 %12 %11 %10 ]:\n  1111_0000 => %20\n").matrix;
    let nine = text::read(b"[ %18 %17 %16 %15 %14 %13 %12 %11 %10 ]:\n").matrix;
    print!(rt; "merge to 16 columns:{}", merged(parent, cell(10), eight))?;
    print!(rt; "merge to 17 columns:{}", merged(parent, cell(10), nine))?;
    print!(rt;
        "merge at 0 to 17 columns:{}",
        merged(parent, Net::Const(Trit::Zero), nine)
    )
}

// Eight rows that name %10, and one that does not.
fn nine() -> Matrix {
    text::read(
        b"[ ]:\n   => %10\n   => %10\n   => %10\n   => %10\n   => %10\n   => %10\n   => %10\n   => %10\n   => %11\n",
    ).matrix
}

fn rows_8() -> Matrix {
    text::read(
        b"[ %0 ]:\n  0 => %1\n  0 => %2\n  0 => %3\n  0 => %4\n  0 => %5\n  0 => %6\n  0 => %7\n  1 => %8\n",
    ).matrix
}

// 8 times 8 rows, and one more.
fn rows(rt: &impl Print) -> io::Result<()> {
    let m = nine();
    print!(rt; "merge to 65 rows:{}", merged(m, cell(10), rows_8()))?;
    let made = Matrix { count: 8, ..m }.merge(cell(10), rows_8());
    println!(rt; "merge to 64 rows: {}", made.no)?;
    println!(rt; "merge to 64 rows, rows: {}", made.matrix.count)?;
    print!(rt;
        "merge of 9 rows, 8 of them with a child of none:{}",
        merged(m, cell(10), blank())
    )
}

fn rule_sets(rt: &impl Print) -> io::Result<()> {
    let four = text::read(b"[ ]:\n   => %10 %11 %12 %13\n").matrix;
    let four_more = text::read(b"[ ]:\n   => %2 %14 %15 %9999\n").matrix;
    let five = text::read(b"[ ]:\n   => %14 %15 %16 %17 %18\n").matrix;
    let eight = text::read(b"[ ]:\n   => %1 %2 %3 %4 %5 %6 %7 %8\n").matrix;
    print!(rt; "merge to 8 rules:{}", merged(four, cell(13), four_more))?;
    print!(rt; "merge to 9 rules:{}", merged(four, cell(13), five))?;
    print!(rt;
        "merge at a net that no row names:{}",
        merged(four, cell(14), five)
    )?;
    print!(rt;
        "merge of 8 rules with the same:{}",
        merged(eight, cell(1), eight)
    )
}

fn plain() -> Matrix {
    text::read(b"[ %0 ]:\n  1 => %10\n  X => (empty)\n").matrix
}

fn at_constants(rt: &impl Print) -> io::Result<()> {
    let m = plain();
    for (name, at) in [("0", Trit::Zero), ("1", Trit::One), ("X", Trit::Undef)] {
        print!(rt; "merge at {name}:{}", merged(m, Net::Const(at), m))?;
    }
    Ok(())
}

fn at_cells(rt: &impl Print) -> io::Result<()> {
    let m = plain();
    print!(rt; "merge at %9999:{}", merged(m, cell(9999), blank()))?;
    for n in OVER {
        print!(rt; "merge at %{n}:{}", merged(m, cell(n), m))?;
    }
    Ok(())
}

// The second row of the child has a pattern of 2.
fn order(rt: &impl Print) -> io::Result<()> {
    let mut long = rows_8();
    long.rows[1].len = 2;
    print!(rt;
        "merge to 65 rows, the child with a pattern of 2:{}",
        merged(nine(), cell(10), long)
    )?;
    print!(rt;
        "merge at 0, the child with a pattern of 2:{}",
        merged(nine(), Net::Const(Trit::Zero), long)
    )
}

// Rows that name a constant are found by its code, so that 2 is given before 4; at another constant only 4 is.
fn order_named(rt: &impl Print) -> io::Result<()> {
    let mut m = text::read(b"[ ]:\n   => %10\n   => %11\n").matrix;
    m.rows[0].rules = sets::Rules {
        items: [0; rules::RULES_MAX],
        count: 1,
    };
    let child = bench::tall();
    print!(rt;
        "merge at 0 to 65 rows, by a row that names 0:{}",
        merged(m, Net::Const(Trit::Zero), child)
    )?;
    print!(rt;
        "merge at 1 of a row that names 0:{}",
        merged(m, Net::Const(Trit::One), child)
    )
}

// Both are tested for 12 before any other number; then the lowest of the two.
fn two_faults(rt: &impl Print) -> io::Result<()> {
    let m = plain();
    let wide = Matrix { columns: 17, ..m };
    let tall = Matrix { count: 65, ..m };
    let long = Matrix { columns: 2, ..m };
    let mut bad = m;
    bad.value[0] = 65535;
    for (name, parent, child) in [
        ("columns 17 with a column that is no net", wide, bad),
        ("rows 65 with columns 17", tall, wide),
        ("patterns of 1 under 2 columns with rows 65", long, tall),
        ("rows 65 with patterns of 1 under 2 columns", tall, long),
    ] {
        print!(rt; "merge of {name}:{}", merged(parent, cell(10), child))?;
    }
    Ok(())
}
