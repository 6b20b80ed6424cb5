// Settings 1 to 9: dispatch, the store it leaves, and the tree's text; then the store's lengths, and which number comes first.
use crate::numbers::Numbers;
use crate::{handed, say};
use matrix::Matrix;
use rules::{Cell, Net, Trit};
use std::io;

const RUN: usize = tree::inner::NODE_RUN;

// Numbers of the longest store: 1,100 entries and a part of one.
const STORE: usize = 1100 * RUN + 5;

// What stands in a store before: a number that no tree has.
const OLD: u16 = 65535;

// Enables.
const ON: Net = Net::Const(Trit::One);

const UNDEF: Net = Net::Const(Trit::Undef);

const FIVE: Net = Net::Cell(Cell(5));

// Dispatch into a store of n numbers: the entries up to the root, a line each, and the tree's text; or the whole store.
fn plant(rt: &impl Print, matrix: Matrix, enable: Net, n: usize) -> io::Result<()> {
    let mut store = [OLD; STORE];
    let store = &mut store[..n.min(STORE)];
    let answer = dispatch::dispatch(matrix, enable, store);
    say::built(rt, answer)?;
    let Ok(built) = answer else {
        return rt.println(Numbers(store));
    };
    for entry in store.chunks_exact(RUN).take(built.size) {
        rt.println(Numbers(entry))?;
    }
    handed::print(rt, store, built.root)
}

// Dispatch into a store of n numbers, and all of them afterwards.
fn fill(rt: &impl Print, matrix: Matrix, enable: Net, n: usize) -> io::Result<()> {
    let mut store = [OLD; STORE];
    let store = &mut store[..n.min(STORE)];
    say::built(rt, dispatch::dispatch(matrix, enable, store))?;
    rt.println(Numbers(store))
}

// A store of as many numbers as the peak's entries have, and of fewer.
fn setting(
    rt: &impl Print,
    name: &str,
    matrix: &[u8],
    enable: Net,
    lengths: [usize; 2],
) -> io::Result<()> {
    println!(rt; "{name}")?;
    let read = text::read(matrix);
    for n in lengths {
        plant(rt, read.matrix, enable, n)?;
    }
    Ok(())
}

pub(crate) fn settings(rt: &impl Print) -> io::Result<()> {
    setting(
        rt,
        "setting 1",
        b"[ %1 %0 ]:\n  00 => %10\n  10 => %10\n  XX => %11\n",
        ON,
        [3 * RUN, 2 * RUN],
    )?;
    setting(
        rt,
        "setting 2",
        b"[ %0 ]:\n  1 => %10\n  X => (empty)\n",
        FIVE,
        [5 * RUN, 4 * RUN],
    )?;
    setting(
        rt,
        "setting 3",
        b"[ %0 ]:\n  1 => %10\n  X => (empty)\n",
        UNDEF,
        [RUN, 0],
    )?;
    setting(
        rt,
        "setting 4",
        b"[ X ]:\n  1 => %10\n  X => %11\n",
        ON,
        [RUN, 0],
    )?;
    setting(
        rt,
        "setting 5",
        b"[ %0 %0 ]:\n  1X => %10\n  01 => %12\n  XX => %11\n",
        ON,
        [3 * RUN, 2 * RUN],
    )
}

pub(crate) fn more_settings(rt: &impl Print) -> io::Result<()> {
    setting(
        rt,
        "setting 6",
        b"[ 0 %0 ]:\n  0X => %10\n  X0 => %11\n  XX => %12\n",
        ON,
        [2 * RUN, RUN],
    )?;
    setting(rt, "setting 7", b"[ %0 ]:\n  1 => %10\n", ON, [2 * RUN, 0])?;
    setting(rt, "setting 8", b"[ ]:\n   => %10\n", ON, [RUN, 0])?;
    setting(
        rt,
        "setting 9",
        b"[ %0 ]:\n  0 => %10 %12\n  X => %11 %12\n",
        ON,
        [3 * RUN, 2 * RUN],
    )
}

fn length(rt: &impl Print, n: usize) -> io::Result<()> {
    let read = text::read(b"[ %0 ]:\n  1 => %10\n  X => (empty)\n");
    print!(rt; "setting 2 in {n} numbers: ")?;
    fill(rt, read.matrix, FIVE, n)
}

// Setting 2 in stores of 0, 1, 4 and 5 entries, and with a part of one.
pub(crate) fn lengths(rt: &impl Print) -> io::Result<()> {
    for n in [0, 5, RUN, 4 * RUN, 4 * RUN + 5, 5 * RUN, 5 * RUN + 5] {
        length(rt, n)?;
    }
    Ok(())
}

// The same in 1,024 entries and more.
pub(crate) fn long_lengths(rt: &impl Print) -> io::Result<()> {
    for n in [
        1024 * RUN,
        1024 * RUN + 5,
        1025 * RUN,
        1100 * RUN,
        1100 * RUN + 5,
    ] {
        length(rt, n)?;
    }
    Ok(())
}

fn bare() -> Matrix {
    text::read(b"[ %0 ]:\n  1 => %10\n").matrix
}

// No catch-all, in a store of nothing and in one of 1,025 entries.
pub(crate) fn no_catch(rt: &impl Print) -> io::Result<()> {
    print!(rt; "no catch-all, store of 0: ")?;
    fill(rt, bare(), ON, 0)?;
    print!(rt; "no catch-all, 1,025 entries: ")?;
    fill(rt, bare(), ON, 1025 * RUN)?;
    print!(rt; "no catch-all, enable %9999: ")?;
    fill(rt, bare(), Net::Cell(Cell(9999)), RUN)?;
    print!(rt; "no catch-all, enable %10000: ")?;
    fill(rt, bare(), Net::Cell(Cell(10000)), RUN)
}

// A matrix without catch-all, with one thing more against it: that number comes first.
fn spoiled<F: FnOnce(&mut Matrix)>(rt: &impl Print, name: &str, spoil: F) -> io::Result<()>
    requires { F.IsAlwaysCallable spoil }
{
    let mut matrix = bare();
    spoil(&mut matrix);
    print!(rt; "{name}: ")?;
    fill(rt, matrix, ON, 2 * RUN)
}

// Its row with this first trit, so long a pattern.
fn row(m: &mut Matrix, trit: u8, len: usize) {
    let row = &mut m.rows[0];
    row.pattern[0] = trit;
    row.len = len;
}

// Its row with so many rules, the first of them given.
fn named(m: &mut Matrix, first: u16, count: usize) {
    let row = &mut m.rows[0];
    row.rules.items = [first, 14, 15, 16, 17, 18, 19, 20];
    row.rules.count = count;
}

pub(crate) fn orders(rt: &impl Print) -> io::Result<()> {
    spoiled(rt, "no catch-all, 17 columns", |m| m.columns = 17)?;
    spoiled(rt, "no catch-all, 65 rows", |m| m.count = 65)?;
    spoiled(rt, "no rows", |m| m.count = 0)?;
    spoiled(rt, "no catch-all, pattern of 2", |m| row(m, 1, 2))?;
    spoiled(rt, "no catch-all, net %10000", |m| m.value[0] = 10003)?;
    spoiled(rt, "no catch-all, no net", |m| m.value[0] = 18195)
}

pub(crate) fn more_orders(rt: &impl Print) -> io::Result<()> {
    spoiled(rt, "no catch-all, no trit", |m| row(m, 3, 1))?;
    spoiled(rt, "no trit, pattern of 17", |m| row(m, 3, 17))?;
    spoiled(rt, "no catch-all, constant rule", |m| named(m, 1, 1))?;
    spoiled(rt, "no catch-all, rule %10000", |m| named(m, 10003, 1))?;
    spoiled(rt, "no catch-all, 8 rules", |m| named(m, 13, 8))?;
    spoiled(rt, "no catch-all, count of 9 rules", |m| named(m, 13, 9))?;
    spoiled(rt, "no catch-all, rules not ascending", |m| named(m, 15, 2))
}
