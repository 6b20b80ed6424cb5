// The cases of differential/answers.txt, asked of our public calls, and held against the answers of the original.
// A file that is missing, cut or not as described is a difference.
#![tactic(auto)]

ghost use Rattle.std.specs.Prelude.{◌≤◌, IfOk, length};

mod ask;
mod cases;
mod emission;
mod held;
mod parse;
mod tally;
mod updates;

use ask::Lent;
use cases::Replay;
use parse::Lines;
use std::io;
use std::io::Read;
use tally::Tally;

// Room for the file; one that fills it may go on.
const FILE_MAX: usize = 425984;

fn main(rt: HostRuntime) -> io::Result<()> {
    let mut file = [0u8; FILE_MAX];
    let mut replay = Replay {
        lent: Lent::new(),
        tally: Tally::new(),
    };
    let n = load(&mut rt.reader(), &mut file)?;
    let mut lines = Lines::new(&file[..n]);
    replay.all(&mut lines);
    if n == FILE_MAX || !whole(&mut lines, replay.tally.cases()) {
        replay.tally.differ(b'S');
    }
    replay.tally.write(&rt)
}

// Up to where the bytes lent are full or the input ends. A read says how far the place moves on, so no iterator gives it.
fn load(input: &mut impl Read, bytes: &mut [u8]) -> io::Result<usize>
    ensures { IfOk result (λ n. n ≤ length bytes.new) }
{
    let mut n = 0;
    while n < bytes.len() {
        let more = input.read(&mut bytes[n..])?;
        if more == 0 {
            return Ok(n);
        }
        n += more;
    }
    Ok(n)
}

// After the last case stands how many there are, and nothing more.
fn whole(lines: &mut Lines<'_>, cases: usize) -> bool {
    let named = lines.numbered(b'S');
    lines.end();
    lines.is_done() && named == cases
}
