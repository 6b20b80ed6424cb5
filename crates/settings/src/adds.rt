// `add`: every code as the one rule and as the one mask, and the edges of shape, rows and rules.
use crate::bench;
use crate::say::{Kept, Told, blank};
use crate::tally::Tally;
use matrix::Matrix;
use std::io;

pub(crate) fn all(rt: &impl Print) -> io::Result<()> {
    each_rule(rt)?;
    each_mask(rt)?;
    shapes(rt)?;
    last_row(rt)?;
    rule_lists(rt)?;
    order(rt)
}

fn plain() -> Matrix {
    text::read(b"[ %0 ]:\n").matrix
}

fn each_rule(rt: &impl Print) -> io::Result<()> {
    let m = plain();
    let mut tally = Tally::default();
    for code in 0..=u16::MAX {
        tally.count(m.add(&[2], &[code]).no);
    }
    println!(rt; "add of every code as a rule: {tally}")
}

fn each_mask(rt: &impl Print) -> io::Result<()> {
    let m = plain();
    let mut tally = Tally::default();
    for mask in 0..=u8::MAX {
        tally.count(m.add(&[mask], &[]).no);
    }
    println!(rt; "add of every code as a mask: {tally}")
}

fn shapes(rt: &impl Print) -> io::Result<()> {
    let two = text::read(b"[ %1 %0 ]:\n").matrix;
    let cases: [(&str, Matrix, &[u8]); 6] = [
        ("0 masks to 2 columns", two, &[]),
        ("1 mask to 2 columns", two, &[2]),
        ("3 masks to 2 columns", two, &[2, 2, 2]),
        ("2 masks to 2 columns", two, &[1, 0]),
        ("0 masks to 0 columns", blank(), &[]),
        ("1 mask to 0 columns", blank(), &[2]),
    ];
    for (name, m, pattern) in cases {
        print!(rt; "add of {name}:{}", Told(m.add(pattern, &[13; 10]), m))?;
    }
    Ok(())
}

fn last_row(rt: &impl Print) -> io::Result<()> {
    let full = bench::tall();
    let short = Matrix { count: 63, ..full };
    println!(rt; "add of a 64th row:{}", Kept(short.add(&[2], &[]), full))?;
    println!(rt; "add of a 65th row:{}", Kept(full.add(&[2], &[]), full))
}

fn rule_lists(rt: &impl Print) -> io::Result<()> {
    let m = plain();
    let cases: [(&str, &[u16]); 7] = [
        ("no rules", &[]),
        (
            "8 rules, 2 of them repeated",
            &[20, 13, 19, 14, 18, 15, 17, 16, 20, 13],
        ),
        (
            "9 rules, 1 of them repeated",
            &[20, 20, 19, 18, 17, 16, 15, 14, 13, 12],
        ),
        ("10 times %9999", &[10002; 10]),
        (
            "the constant X among rules",
            &[13, 2, 14, 14, 14, 14, 14, 14, 14, 14],
        ),
        (
            "%10000 among rules",
            &[13, 10003, 14, 14, 14, 14, 14, 14, 14, 14],
        ),
        (
            "a code that is no net among rules",
            &[13, 1, 65535, 14, 14, 14, 14, 14, 14, 14],
        ),
    ];
    for (name, named) in cases {
        print!(rt; "add of {name}:{}", Told(m.add(&[2], named), m))?;
    }
    Ok(())
}

// 12 first, then the lowest: each line has one cause less.
fn order(rt: &impl Print) -> io::Result<()> {
    let tall = bench::tall();
    let wide = Matrix {
        columns: 17,
        ..tall
    };
    let short = Matrix { count: 63, ..tall };
    let over = [0, 13, 14, 15, 16, 17, 18, 19, 20, 21];
    let cells = [13, 14, 15, 16, 17, 18, 19, 20, 21, 22];
    let cases: [(&str, Matrix, &[u8], &[u16]); 6] = [
        ("12, 1, 2, 3, 4, 5 apply", wide, &[2, 3], &over),
        ("1, 2, 3, 4, 5 apply", wide, &[2, 2], &over),
        ("2, 3, 4, 5 apply", tall, &[2, 2], &over),
        ("3, 4, 5 apply", short, &[2, 2], &over),
        ("4, 5 apply", short, &[2], &over),
        ("5 applies", short, &[2], &cells),
    ];
    for (causes, m, pattern, named) in cases {
        print!(rt; "add where {causes}:{}", Told(m.add(pattern, named), m))?;
    }
    Ok(())
}
