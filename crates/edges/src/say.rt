// What the calls answer, a line each.
use crate::numbers::Numbers;
use rules::Refusal;
use std::io;
use tree::Built;

// A refusal by its number, and what is shown of any other answer.
fn answer<T, F: FnOnce(T) -> io::Result<()>>(
    rt: &impl Print,
    answer: Result<T, Refusal>,
    show: F,
) -> io::Result<()>
    requires { F.IsAlwaysCallable show }
{
    match answer {
        Ok(made) => show(made),
        Err(refusal) => println!(rt; "refused {}", u8::from(refusal)),
    }
}

pub(crate) fn checked(rt: &impl Print, made: Result<usize, Refusal>) -> io::Result<()> {
    answer(rt, made, |size| println!(rt; "tree of {size}"))
}

pub(crate) fn built(rt: &impl Print, made: Result<Built, Refusal>) -> io::Result<()> {
    answer(
        rt,
        made,
        |built: Built| println!(rt; "root {}, size {}", built.root.0, built.size),
    )
}

// The value's nets as codes, with those past its width. C passes the answer, so the number stands beside them, 0 where accepted.
pub(crate) fn emitted(rt: &impl Print, made: emit::Emitted) -> io::Result<()> {
    let emit::Emitted {
        no,
        nets,
        width,
        used,
    } = made;
    if no != 0 {
        return println!(rt; "refused {no}");
    }
    println!(rt; "width {width}, used {used}, nets {}", Numbers(&nets))
}

pub(crate) fn together(rt: &impl Print, made: Result<usize, Refusal>) -> io::Result<()> {
    answer(rt, made, |n| println!(rt; "length {n}"))
}

// A printed tree stands at the start of the bytes.
pub(crate) fn printed(rt: &impl Print, made: Result<usize, Refusal>, out: &[u8]) -> io::Result<()> {
    answer(rt, made, |n| rt.write_all(out.get(..n).unwrap_or(&[])))
}

// How long a text is.
pub(crate) fn counted(rt: &impl Print, made: Result<usize, Refusal>) -> io::Result<()> {
    answer(rt, made, |n| println!(rt; "{n} bytes"))
}
