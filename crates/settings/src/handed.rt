// A matrix handed in: counts too large, codes that are no code, sets that do not ascend; and what stands past the counts.
// Each line has the numbers of normalize, add, assume, add_enable, merge as parent, merge as child, outputs and print.
use crate::bench;
use crate::say::{Kept, TEXT_MAX, Text, Told, blank, cell};
use matrix::{Made, Matrix};
use rows::Row;
use rules::{COLUMNS_MAX, Net, ROWS_MAX, RULES_MAX, Trit};
use sets::Rules;
use std::io;

pub(crate) fn all(rt: &impl Print) -> io::Result<()> {
    apart(rt)?;
    accepted_all(rt)?;
    counts(rt)?;
    patterns(rt)?;
    rule_sets(rt)?;
    rule_codes(rt)?;
    column_codes(rt)?;
    past_capacity(rt)?;
    order(rt)?;
    rubbish(rt)
}

fn base() -> Matrix {
    text::read(b"[ %0 ]:\n  X => %10 %11\n  X => (empty)\n").matrix
}

// 01's number, which the line prints beside those of other calls, and 0 where accepted.
fn printed(m: Matrix) -> u8 {
    let mut out = [0; TEXT_MAX];
    text::print(m, &mut out).err().map_or(0, u8::from)
}

// Calls that change nothing here where they are accepted: assume, add_enable and merge as parent.
fn idle(m: Matrix) -> [Made; 3] {
    [
        m.assume(cell(99), Trit::Zero),
        m.add_enable(Net::Const(Trit::One)),
        m.merge(cell(99), blank()),
    ]
}

// A refused merge hands back the parent, which is the matrix once and the one without columns once.
fn refused(rt: &impl Print, name: &str, m: Matrix) -> io::Result<()> {
    print!(rt;
        "handed in, {name}:{}{}",
        Kept(m.normalize(), m),
        Kept(m.add(&[2], &[]), m)
    )?;
    for made in idle(m) {
        print!(rt; "{}", Kept(made, m))?;
    }
    let child = blank().merge(cell(99), m);
    println!(rt;
        "{} {} {}",
        Kept(child, blank()),
        m.outputs().no,
        printed(m)
    )
}

// The same calls but add on a matrix with nothing against it.
fn accepted(rt: &impl Print, name: &str, m: Matrix) -> io::Result<()> {
    print!(rt; "handed in, {name}: {}", m.normalize().no)?;
    for made in idle(m) {
        print!(rt; "{}", Kept(made, m))?;
    }
    let child = blank().merge(cell(99), m);
    println!(rt; " {} {} {}", child.no, m.outputs().no, printed(m))
}

fn accepted_all(rt: &impl Print) -> io::Result<()> {
    accepted(rt, "0 columns", blank())?;
    accepted(rt, "16 columns", bench::wide())?;
    accepted(rt, "64 rows", bench::tall())?;
    accepted(
        rt,
        "8 rules",
        with_rules([13, 14, 15, 16, 17, 18, 19, 10002], 8),
    )?;
    accepted(rt, "column %9999", with_net(10002))
}

// That one slot, past its count, tells two matrices apart.
fn apart(rt: &impl Print) -> io::Result<()> {
    let mut column = base();
    column.value[15] = 1;
    let mut mask = base();
    mask.rows[63].pattern[15] = 1;
    for (name, matrix) in [
        ("itself", base()),
        ("one with another last column slot", column),
        ("one with another last mask slot", mask),
        (
            "one with another last rule slot",
            with_rules([0, 0, 0, 0, 0, 0, 0, 1], 0),
        ),
    ] {
        println!(rt;
            "held against {name}:{}",
            Kept(Made { no: 0, matrix }, base())
        )?;
    }
    Ok(())
}

fn with_net(code: u16) -> Matrix {
    let mut m = base();
    m.value[0] = code;
    m
}

fn with_pattern(mask: u8, len: usize) -> Matrix {
    let mut m = base();
    let row = &mut m.rows[1];
    row.pattern[0] = mask;
    row.len = len;
    m
}

fn with_rules(items: [u16; RULES_MAX], count: usize) -> Matrix {
    let mut m = base();
    m.rows[1].rules = Rules { items, count };
    m
}

// The third row has a pattern of 0.
fn counts(rt: &impl Print) -> io::Result<()> {
    for (name, columns) in [
        ("columns 0, patterns of 1", 0),
        ("columns 2, patterns of 1", 2),
        ("columns 17", 17),
        ("columns 2^64 - 1", usize::MAX),
    ] {
        refused(rt, name, Matrix { columns, ..base() })?;
    }
    for (name, count) in [
        ("rows 3, two of them made", 3),
        ("rows 65", 65),
        ("rows 2^64 - 1", usize::MAX),
    ] {
        refused(rt, name, Matrix { count, ..base() })?;
    }
    Ok(())
}

fn patterns(rt: &impl Print) -> io::Result<()> {
    for (name, mask, len) in [
        ("a pattern of 0", 2, 0),
        ("a pattern of 2", 2, 2),
        ("a pattern of 17", 2, 17),
        ("a pattern of 2^64 - 1", 2, usize::MAX),
        ("mask 3", 3, 1),
        ("mask 255", 255, 1),
    ] {
        refused(rt, name, with_pattern(mask, len))?;
    }
    Ok(())
}

fn rule_sets(rt: &impl Print) -> io::Result<()> {
    for (name, items, count) in [
        ("a count of 9 rules", [13, 14, 15, 16, 17, 18, 19, 20], 9),
        (
            "a count of 2^64 - 1 rules",
            [13, 14, 15, 16, 17, 18, 19, 20],
            usize::MAX,
        ),
        ("rules %1 %1", [4, 4, 0, 0, 0, 0, 0, 0], 2),
        ("rules %2 %1", [5, 4, 0, 0, 0, 0, 0, 0], 2),
        ("rules %5 1 %4", [8, 1, 7, 0, 0, 0, 0, 0], 3),
        ("rules %4 1 %5", [7, 1, 8, 0, 0, 0, 0, 0], 3),
        (
            "a count of 9 rules, the 8th no net",
            [13, 14, 15, 16, 17, 18, 19, 18195],
            9,
        ),
    ] {
        refused(rt, name, with_rules(items, count))?;
    }
    Ok(())
}

fn rule_codes(rt: &impl Print) -> io::Result<()> {
    for (name, code) in [
        ("rule 0", 0),
        ("rule X", 2),
        ("rule %10000", 10003),
        ("rule %18191", 18194),
        ("rule code 18195", 18195),
        ("rule code 65535", 65535),
    ] {
        refused(rt, name, with_rules([code; RULES_MAX], 1))?;
    }
    Ok(())
}

fn column_codes(rt: &impl Print) -> io::Result<()> {
    for (name, code) in [
        ("column %10000", 10003),
        ("column %18191", 18194),
        ("column code 18195", 18195),
        ("column code 65535", 65535),
    ] {
        refused(rt, name, with_net(code))?;
    }
    Ok(())
}

// A count past what there is leaves every slot in use: the last one codes nothing.
fn past_capacity(rt: &impl Print) -> io::Result<()> {
    let mut wide = Matrix {
        columns: 17,
        ..base()
    };
    wide.value[15] = 18195;
    refused(rt, "columns 17, the 16th no net", wide)?;
    let mut tall = Matrix {
        count: 65,
        ..base()
    };
    let last = &mut tall.rows[63];
    last.pattern[0] = 3;
    last.len = 1;
    refused(rt, "rows 65, the 64th with mask 3", tall)
}

// 12 first, then the lowest: each line has one cause less.
fn order(rt: &impl Print) -> io::Result<()> {
    let four = Matrix {
        columns: 1,
        count: 2,
        ..with_rules([0, 13, 14, 15, 16, 17, 18, 19], 9)
    };
    let three = Matrix { columns: 2, ..four };
    let two = Matrix { count: 65, ..three };
    let one = Matrix { columns: 17, ..two };
    let mut form = one;
    form.value[0] = 65535;
    for (name, m) in [
        ("where 12, 1, 2, 3, 4, 5 apply", form),
        ("where 1, 2, 3, 4, 5 apply", one),
        ("where 2, 3, 4, 5 apply", two),
        ("where 3, 4, 5 apply", three),
        ("where 4, 5 apply", four),
    ] {
        refused(rt, name, m)?;
    }
    Ok(())
}

// A row with rubbish in every slot, and past its counts alone.
fn junk_row() -> Row {
    Row {
        pattern: [255; COLUMNS_MAX],
        len: usize::MAX,
        rules: Rules {
            items: [65535; RULES_MAX],
            count: usize::MAX,
        },
    }
}

fn junk_after(rules: Rules) -> Row {
    let mut pattern = [255; COLUMNS_MAX];
    pattern[0] = 2;
    Row {
        pattern,
        len: 1,
        rules,
    }
}

// The base, with rubbish in every slot past every count.
fn junk() -> Matrix {
    let mut value = [65535; COLUMNS_MAX];
    value[0] = 3;
    let mut rows = [junk_row(); ROWS_MAX];
    rows[0] = junk_after(Rules {
        items: [13, 14, 0, 1, 2, 10003, 18195, 65535],
        count: 2,
    });
    rows[1] = junk_after(Rules {
        items: [65535; RULES_MAX],
        count: 0,
    });
    Matrix {
        value,
        columns: 1,
        rows,
        count: 2,
    }
}

fn rubbish(rt: &impl Print) -> io::Result<()> {
    let m = junk();
    print!(rt; "rubbish past the counts:\n{}", Text(m))?;
    rubbish_made(rt, m)?;
    rubbish_kept(rt, m)
}

// What is made is what the base makes, and where nothing changes it is the base.
fn rubbish_made(rt: &impl Print, m: Matrix) -> io::Result<()> {
    let b = base();
    println!(rt;
        "rubbish, normalize:{}",
        Kept(m.normalize(), b.normalize().matrix)
    )?;
    println!(rt;
        "rubbish, assume of %99:{}",
        Kept(m.assume(cell(99), Trit::Zero), b)
    )?;
    println!(rt;
        "rubbish, add_enable of 1:{}",
        Kept(m.add_enable(Net::Const(Trit::One)), b)
    )?;
    print!(rt; "rubbish, add:{}", Told(m.add(&[1], &[13; 10]), m))?;
    print!(rt;
        "rubbish, add of 2 masks:{}",
        Told(m.add(&[2, 2], &[13; 10]), m)
    )?;
    print!(rt;
        "rubbish, merge as parent:{}",
        Told(m.merge(cell(99), blank()), m)
    )?;
    print!(rt;
        "rubbish, merge as child:{}",
        Told(blank().merge(cell(99), m), blank())
    )?;
    println!(rt; "rubbish, outputs: {}", m.outputs().count)
}

// A refused call hands back the very matrix.
fn rubbish_kept(rt: &impl Print, m: Matrix) -> io::Result<()> {
    let over = cell(10000);
    print!(rt;
        "rubbish, assume of %10000:{}",
        Told(m.assume(over, Trit::One), m)
    )?;
    print!(rt;
        "rubbish, add_enable of %10000:{}",
        Told(m.add_enable(over), m)
    )?;
    print!(rt; "rubbish, merge at %10000:{}", Told(m.merge(over, m), m))
}
