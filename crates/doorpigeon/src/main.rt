// The program: a printed matrix in, and what is asked of it out. All that matters is in the libraries.
#![tactic(auto)]

ghost use Rattle.std.specs.Prelude.{◌≤◌, IfOk, length};

use args::{Asked, Plan, Query, Source};
use emit::Emitted;
use matrix::{Matrix, Outputs};
use rules::{Net, Refusal};
use std::env::Env;
use std::io::Read;
use std::rt::Files;
use std::{fs, io};
use stop::Stop;

mod args;
mod show;
mod stop;
mod words;

// How many bytes of a text are read. Any longer one is refused, at a line that they have.
const READ_MAX: usize = 8192;

const STORE: usize = tree::inner::NODE_RUN * rules::NODES_MAX;

const TABLE: usize = evaluate::inner::MUX_RUN * rules::MUX_MAX;

const TRITS: usize = rules::CELL_MAX as usize + 1;

fn main(rt: HostRuntime) -> io::Result<()> {
    let err = rt.stderr();
    match run(&rt, &err) {
        Ok(()) => Ok(()),
        Err(stop) => show::stopped(&rt, &err, stop),
    }
}

fn run(rt: &(impl Env + Files + Input + Print), err: &impl Print) -> Result<(), Stop> {
    let mut trits = [rules::UNDEF; TRITS];
    match args::parse(rt, &mut trits)? {
        Asked::Nothing => Ok(show::help(err)?),
        Asked::Help => Ok(show::help(rt)?),
        Asked::Merge { at, child, parent } => merge(rt, at, child, parent),
        Asked::Of { query, file, plan } => {
            let matrix = matrix(rt, file)?;
            Case { matrix, plan }.answer(rt, query, &trits)
        }
    }
}

// In a frame of its own: no other command has two matrices and a third.
#[inline(never)]
fn merge(
    rt: &(impl Env + Files + Input + Print),
    at: Net,
    child: Source,
    parent: Source,
) -> Result<(), Stop> {
    let child = matrix(rt, child)?;
    let parent = matrix(rt, parent)?;
    show::made(rt, parent.merge(at, child))
}

// Up to where the bytes lent are full or the file ends. A read says how far the place moves on, so no iterator gives it.
fn load<'a>(file: &mut impl Read, buf: &'a mut [u8]) -> io::Result<&'a [u8]>
    ensures { IfOk result (λ text. length text.now ≤ length buf.old) }
{
    let mut n = 0;
    while n < buf.len() {
        match file.read(&mut buf[n..])? {
            0 => break,
            more => n += more,
        }
    }
    Ok(&buf[..n])
}

// A path is text to std.
fn named<'a>(rt: &impl Files, path: &[u8], buf: &'a mut [u8]) -> io::Result<&'a [u8]> {
    let Ok(path) = str::from_utf8(path) else {
        return Err(io::Error::from(io::ErrorKind::InvalidFilename));
    };
    load(&mut fs::open(rt, path)?, buf)
}

fn bytes<'a>(
    rt: &(impl Env + Files + Input),
    source: Source,
    buf: &'a mut [u8],
) -> io::Result<&'a [u8]> {
    match source {
        Source::Input => load(&mut rt.reader(), buf),
        Source::File(argument) => {
            let mut path = [0u8; args::WORD_MAX];
            named(rt, argument.bytes(rt, &mut path), buf)
        }
    }
}

// In a frame of its own, which is gone once the text was read.
#[inline(never)]
fn matrix(rt: &(impl Env + Files + Input), source: Source) -> Result<Matrix, Stop> {
    let mut buf = [0u8; READ_MAX];
    let text = bytes(rt, source, &mut buf).map_err(|error| Stop::Unread(source, error))?;
    let read = text::read(text);
    if read.no != 0 {
        return Err(Stop::Line(read.line));
    }
    Ok(read.matrix)
}

// The nets in use. A matrix that was read has no number against it, so its outputs have none.
fn listed(outputs: &Outputs) -> &[u16] {
    &outputs.nets[..outputs.count.min(outputs.nets.len())]
}

// A matrix that was read, and how it is to be lowered.
#[derive(Clone, Copy)]
struct Case {
    matrix: Matrix,
    plan: Plan,
}

// What answers one command has a frame of its own: the arrays of another are no part of it.
impl Case {
    #[inline(never)]
    fn answer(self, rt: &impl Print, query: Query, trits: &[u8]) -> Result<(), Stop> {
        match query {
            Query::Read => show::matrix(rt, self.matrix),
            Query::Normal => show::made(rt, self.matrix.normalize()),
            Query::Enable => show::made(rt, self.matrix.add_enable(self.plan.enable)),
            Query::Tree => self.tree(rt),
            Query::Outputs => self.outputs(rt),
            Query::Muxes => self.muxes(rt),
            Query::Eval => self.values(rt, trits),
        }
    }

    #[inline(never)]
    fn outputs(self, rt: &impl Print) -> Result<(), Stop> {
        let outputs = self.matrix.outputs();
        Ok(show::nets(rt, listed(&outputs))?)
    }

    // The tree in the entries that it may take, and its root.
    fn planted(self, store: &mut [u16; STORE]) -> Result<rules::Place, Refusal> {
        let taken = tree::inner::NODE_RUN * self.plan.entries.min(rules::NODES_MAX);
        let built = dispatch::dispatch(self.matrix, self.plan.enable, &mut store[..taken])?;
        Ok(built.root)
    }

    #[inline(never)]
    fn tree(self, rt: &impl Print) -> Result<(), Stop> {
        let mut store = [0u16; STORE];
        let root = self.planted(&mut store)?;
        show::tree(rt, &store, root)
    }

    fn lowered(self, outputs: &[u16], table: &mut [u16]) -> Result<Emitted, Stop> {
        let mut store = [0u16; STORE];
        let root = self.planted(&mut store)?;
        let emitted = emit::one_hot(&store, root, outputs, 0, table);
        if emitted.no != 0 {
            return Err(Stop::Refused(emitted.no));
        }
        Ok(emitted)
    }

    #[inline(never)]
    fn muxes(self, rt: &impl Print) -> Result<(), Stop> {
        let outputs = self.matrix.outputs();
        let outputs = listed(&outputs);
        let mut table = [0u16; TABLE];
        let emitted = self.lowered(outputs, &mut table)?;
        show::muxes(rt, &table, emitted.used)?;
        Ok(show::pairs(rt, outputs, &emitted.nets)?)
    }

    #[inline(never)]
    fn values(self, rt: &impl Print, trits: &[u8]) -> Result<(), Stop> {
        let outputs = self.matrix.outputs();
        let outputs = listed(&outputs);
        let mut table = [0u16; TABLE];
        let emitted = self.lowered(outputs, &mut table)?;
        show::values(rt, outputs, emitted, &table, trits)
    }
}
