// The lines of a text one after the other, up to the first that is wrong.
ghost use Rattle.std.specs.Prelude.{length, take, [], ◌≡◌, ◌<◌};
ghost use Rattle.rules.specs.Answers.{read_made};
ghost use Rattle.rules.specs.Read.{lines, read_rows, wrong as wrong_at};
ghost use Rattle.text.specs.Calls.{read_from};
ghost use Rattle.text.specs.Steps.{Cut, HeadFits};

use crate::ReadMade;
use crate::inner::parse;
use rules::Refusal;

// How long the first line is, its LF included where it has one.
pub fn end(s: &[u8]) -> usize
    requires { 0 < length s.now }
    ensures { Cut s.now result }
{
    match s.iter().position(|b| *b == b'\n') {
        Some(i) => i + 1,
        None => s.len(),
    }
}

pub fn wrong(line: usize) -> ReadMade
    ensures { result ≡ read_from (read_made (wrong_at line)) }
{
    ReadMade {
        no: u8::from(Refusal::Line),
        line,
        matrix: matrix::inner::blank::none(),
    }
}

// The rows, in what follows the value line. Not inline: in its caller three matrices would be cleared for the answer, on its way out, before a line is read, and a text of few lines would take a fifth more time.
#[inline(never)]
pub fn body(text: &[u8], head: rows::Nets) -> ReadMade
    requires { HeadFits head }
    ensures { result ≡ read_from (read_made (read_rows (take head.columns head.value) [] (lines text.now))) }
{
    let rows::Nets { value, columns } = head;
    let empty = matrix::inner::blank::none();
    // A matrix holds its rows in slots with a count.
    let mut rows = empty.rows;
    let mut count = 0;
    let mut rest = text;
    while !rest.is_empty() {
        let (bytes, after) = rest.split_at(end(rest));
        let line = parse::Line { bytes, columns };
        let Some(row) = line.row() else {
            return wrong(count + 2);
        };
        if count == rules::ROWS_MAX {
            return wrong(count + 2);
        }
        rows[count] = row;
        count += 1;
        rest = after;
    }
    ReadMade {
        no: 0,
        line: 0,
        matrix: matrix::Matrix {
            value,
            columns,
            rows,
            count,
        },
    }
}
