// A matrix and a tree as text, and the reader of a printed matrix.
// Nothing here changes a matrix or a tree, and no byte is written before it is known that all fit.
#![tactic(auto)]

ghost use Rattle.std.specs.Prelude.{◌≡◌};
ghost use Rattle.matrix.specs.Mat.{given};
ghost use Rattle.rules.specs.Answers.{print_after, print_answer, print_tree_after, print_tree_answer, read_answer};
ghost use Rattle.text.specs.Calls.{printed_read, read_from};

pub mod inner;

use print::inner::put::Text;
use rules::{Place, Refusal};

// 0 and 0 where a matrix was read; else 01's number and the line, and the matrix without columns and rows. C reads the fields as they stand.
#[repr(C)]
#[derive(Clone, Copy)]
pub struct ReadMade {
    pub no: u8,
    pub line: usize,
    pub matrix: matrix::Matrix,
}

// The bytes of the longest printed matrix.
pub const TEXT_MAX: usize = inner::parse::VALUE_MAX + rules::ROWS_MAX * inner::parse::ROW_MAX;

// How many bytes were written.
pub fn print(matrix: matrix::Matrix, out: &mut [u8]) -> Result<usize, Refusal>
    ensures result_value { printed_read result ≡ print_answer (given matrix) out.old }
    ensures out_after { out.new ≡ print_after (given matrix) out.old }
{
    matrix::inner::check::check(&matrix)?;
    let mut text: Text<TEXT_MAX> = Text::new();
    text.matrix(&matrix);
    let bytes = text.as_bytes();
    let n = bytes.len();
    if out.len() < n {
        return Err(Refusal::Room);
    }
    out[..n].copy_from_slice(bytes);
    Ok(n)
}

// The whole need is known before the first byte: the walk that writes has counted before.
pub fn print_tree(store: &[u16], root: Place, out: &mut [u8]) -> Result<usize, Refusal>
    ensures result_value { printed_read result ≡ print_tree_answer store.now root.0 out.old }
    ensures out_after { out.new ≡ print_tree_after store.now root.0 out.old }
{
    tree::check(store, root)?;
    let entries = &store[..tree::inner::NODE_RUN * (root.0 + 1)];
    let need = inner::trees::whole(entries, &mut []);
    if out.len() < need {
        return Err(Refusal::Room);
    }
    inner::trees::whole(entries, out);
    Ok(need)
}

pub fn read(text: &[u8]) -> ReadMade
    ensures { result ≡ read_from (read_answer text.now) }
{
    if text.is_empty() {
        return inner::reader::wrong(1);
    }
    let (line, rest) = text.split_at(inner::reader::end(text));
    let Some(head) = inner::parse::value(line) else {
        return inner::reader::wrong(1);
    };
    inner::reader::body(rest, head)
}
