// The public calls in what C can pass: codes in place of enums. The static library abi_c exports them.
// Nothing is computed here: each function is one public call, its enums told as numbers.
#![tactic(auto)]

ghost use Rattle.std.specs.Prelude.{◌≡◌, min};
ghost use Rattle.abi.specs.Plain.{answered, assumed, dispatched, last};
ghost use Rattle.dispatch.specs.Good.{built_read};
ghost use Rattle.emit.specs.Calls.{emitted_from, prefix_read};
ghost use Rattle.evaluate.specs.Values.{value_read};
ghost use Rattle.matrix.specs.Mat.{given, made_from};
ghost use Rattle.matrix.specs.Outs.{outputs_from};
ghost use Rattle.rules.specs.Answers.{add_answer, check_answer, disjoint_after, disjoint_answer, dispatch_answer, dispatch_store, enable_answer, evaluate_answer, merge_answer, new_answer, normalize_answer, one_hot_after, one_hot_answer, outputs_answer, prefix_answer, print_after, print_answer, print_tree_after, print_tree_answer, read_answer};
ghost use Rattle.rules.specs.Codes.{net_code};
ghost use Rattle.text.specs.Calls.{printed_read, read_from};
ghost use Rattle.tree.specs.Checked.{check_read};

use rules::{Cell, Net, Place, Refusal, Trit};
use tree::Built;

// 01's number, 0 where there is a tree; its root's place and its size, 0 where there is none.
#[repr(C)]
#[derive(Clone, Copy)]
pub struct Dispatched {
    pub no: u8,
    pub root: usize,
    pub size: usize,
}

// 01's number, 0 where accepted, and what is answered, 0 where nothing is: a size, a length, a trit's code.
#[repr(C)]
#[derive(Clone, Copy)]
pub struct Answered {
    pub no: u8,
    pub value: usize,
}

// A code that is too high stands for the last cell, which every call refuses as well.
fn net(code: u32) -> Net
    ensures { net_code result ≡ min code last }
{
    match code {
        0 => Net::Const(Trit::Zero),
        1 => Net::Const(Trit::One),
        2 => Net::Const(Trit::Undef),
        _ => {
            let number = code - u32::from(rules::FIRST_CELL);
            Net::Cell(Cell(u16::try_from(number).unwrap_or(u16::MAX)))
        }
    }
}

impl From<Result<Built, Refusal>> for Dispatched {
    ghost from_gives = { λ r d. d ≡ dispatched (built_read r) };

    fn from(answer: Result<Built, Refusal>) -> Dispatched {
        match answer {
            Ok(built) => Dispatched {
                no: 0,
                root: built.root.0,
                size: built.size,
            },
            Err(why) => Dispatched {
                no: u8::from(why),
                root: 0,
                size: 0,
            },
        }
    }
}

impl From<Result<usize, Refusal>> for Answered {
    ghost from_gives = { λ r a. a ≡ answered (check_read r) };

    fn from(answer: Result<usize, Refusal>) -> Answered {
        match answer {
            Ok(value) => Answered { no: 0, value },
            Err(why) => Answered {
                no: u8::from(why),
                value: 0,
            },
        }
    }
}

pub fn doorpigeon_new(nets: &[u16]) -> matrix::Made
    ensures { result ≡ made_from (new_answer nets.now) }
{
    matrix::Matrix::new(nets)
}

pub fn doorpigeon_add(matrix: matrix::Matrix, pattern: &[u8], rules: &[u16]) -> matrix::Made
    ensures { result ≡ made_from (add_answer pattern.now rules.now (given matrix)) }
{
    matrix.add(pattern, rules)
}

// A value that codes no trit is refused 12, as a number in use that codes nothing is.
pub fn doorpigeon_assume(matrix: matrix::Matrix, target: u32, value: u8) -> matrix::Made
    ensures { result ≡ made_from (assumed (min target last) value (given matrix)) }
{
    match Trit::try_from(value) {
        Ok(value) => matrix.assume(net(target), value),
        Err(why) => matrix::Made {
            no: u8::from(why),
            matrix,
        },
    }
}

pub fn doorpigeon_outputs(matrix: matrix::Matrix) -> matrix::Outputs
    ensures { result ≡ outputs_from (outputs_answer (given matrix)) }
{
    matrix.outputs()
}

pub fn doorpigeon_normalize(matrix: matrix::Matrix) -> matrix::Made
    ensures { result ≡ made_from (normalize_answer (given matrix)) }
{
    matrix.normalize()
}

pub fn doorpigeon_add_enable(matrix: matrix::Matrix, enable: u32) -> matrix::Made
    ensures { result ≡ made_from (enable_answer (min enable last) (given matrix)) }
{
    matrix.add_enable(net(enable))
}

pub fn doorpigeon_merge(matrix: matrix::Matrix, at: u32, child: matrix::Matrix) -> matrix::Made
    ensures { result ≡ made_from (merge_answer (min at last) (given matrix) (given child)) }
{
    matrix.merge(net(at), child)
}

pub fn doorpigeon_dispatch(matrix: matrix::Matrix, enable: u32, store: &mut [u16]) -> Dispatched
    ensures { (result ≡ dispatched (dispatch_answer (min enable last) (given matrix) store.old)) × (store.new ≡ dispatch_store (min enable last) (given matrix) store.old) }
{
    Dispatched::from(dispatch::dispatch(matrix, net(enable), store))
}

pub fn doorpigeon_check(store: &[u16], root: usize) -> Answered
    ensures { result ≡ answered (check_answer store.now root) }
{
    Answered::from(tree::check(store, Place(root)))
}

pub fn doorpigeon_one_hot(
    store: &[u16],
    root: usize,
    outputs: &[u16],
    count: usize,
    table: &mut [u16],
) -> emit::Emitted
    ensures { (result ≡ emitted_from (one_hot_answer store.now root outputs.now count table.old)) × (table.new ≡ one_hot_after store.now root outputs.now count table.old) }
{
    emit::one_hot(store, Place(root), outputs, count, table)
}

pub fn doorpigeon_disjoint(
    store: &[u16],
    root: usize,
    nets: &[u16],
    widths: &[usize],
    bits: &[u16],
    default: &[u16],
    count: usize,
    table: &mut [u16],
) -> emit::Emitted
    ensures { (result ≡ emitted_from (disjoint_answer store.now root nets.now widths.now bits.now default.now count table.old)) × (table.new ≡ disjoint_after store.now root nets.now widths.now bits.now default.now count table.old) }
{
    emit::disjoint(
        store,
        Place(root),
        nets,
        widths,
        bits,
        default,
        count,
        table,
    )
}

pub fn doorpigeon_prefix(store: &[u16], root: usize, outputs: &[u16], enables: &[u16]) -> Answered
    ensures { result ≡ answered (prefix_answer store.now root outputs.now enables.now) }
{
    Answered::from(emit::prefix(store, Place(root), outputs, enables))
}

pub fn doorpigeon_evaluate(table: &[u16], count: usize, trits: &[u8], asked: u32) -> Answered
    ensures { result ≡ answered (evaluate_answer count table.now trits.now (min asked last)) }
{
    match evaluate::evaluate(table, count, trits, net(asked)) {
        Ok(t) => Answered::from(Ok(usize::from(trits::trit_code(t)))),
        Err(why) => Answered::from(Err(why)),
    }
}

pub fn doorpigeon_print(matrix: matrix::Matrix, out: &mut [u8]) -> Answered
    ensures { (result ≡ answered (print_answer (given matrix) out.old)) × (out.new ≡ print_after (given matrix) out.old) }
{
    Answered::from(text::print(matrix, out))
}

pub fn doorpigeon_print_tree(store: &[u16], root: usize, out: &mut [u8]) -> Answered
    ensures { (result ≡ answered (print_tree_answer store.now root out.old)) × (out.new ≡ print_tree_after store.now root out.old) }
{
    Answered::from(text::print_tree(store, Place(root), out))
}

pub fn doorpigeon_read(text: &[u8]) -> text::ReadMade
    ensures { result ≡ read_from (read_answer text.now) }
{
    text::read(text)
}
