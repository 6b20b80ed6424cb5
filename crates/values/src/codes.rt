// The last number that codes a trit or a net, the last net that has a code, and the first past each.
use crate::ask::{Answer, Name, Sign};
use std::io;

fn trit(x: u8) -> Answer<Sign> {
    Answer(trits::trit_of(x).map(Sign).map_err(u8::from))
}

fn net(x: u16) -> Answer<Name> {
    Answer(trits::net_of(x).map(Name).map_err(u8::from))
}

fn code(n: u16) -> Answer<u16> {
    Answer(trits::net_code(rules::Net::Cell(rules::Cell(n))).map_err(u8::from))
}

// The static library takes a trit as a number.
fn assume(value: u8) -> Answer<&'static str> {
    let m = text::read(b"[ %0 ]:\n  1 => %10\n").matrix;
    match abi::doorpigeon_assume(m, 3, value).no {
        0 => Answer(Ok("accepted")),
        no => Answer(Err(no)),
    }
}

pub(crate) fn all(rt: &impl Print) -> io::Result<()> {
    for x in [2, 3] {
        println!(rt; "trit {x}: {}", trit(x))?;
    }
    for x in [18194, 18195] {
        println!(rt; "net {x}: {}", net(x))?;
    }
    for n in [18191, 18192] {
        println!(rt; "code of %{n}: {}", code(n))?;
    }
    for x in [2, 3] {
        println!(rt; "assume trit {x}: {}", assume(x))?;
    }
    Ok(())
}
