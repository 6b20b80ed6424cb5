// The static library for C and Rust: each export is the function of that name in abi, with its clauses again.
// Nothing is computed or told here.
#![tactic(auto)]

ghost use Rattle.std.specs.Prelude.{◌≡◌, min};
ghost use Rattle.abi.specs.Plain.{answered, assumed, dispatched, last};
ghost use Rattle.dispatch.specs.Good.{built_read};
ghost use Rattle.emit.specs.Calls.{emitted_from, prefix_read};
ghost use Rattle.evaluate.specs.Values.{value_read};
ghost use Rattle.matrix.specs.Mat.{given, made_from};
ghost use Rattle.matrix.specs.Outs.{outputs_from};
ghost use Rattle.rules.specs.Answers.{add_answer, check_answer, disjoint_after, disjoint_answer, dispatch_answer, dispatch_store, enable_answer, evaluate_answer, merge_answer, new_answer, normalize_answer, one_hot_after, one_hot_answer, outputs_answer, prefix_answer, print_after, print_answer, print_tree_after, print_tree_answer, read_answer};
ghost use Rattle.rules.specs.Codes.{net_code};
ghost use Rattle.text.specs.Calls.{printed_read, read_from};
ghost use Rattle.tree.specs.Checked.{check_read};

#[unsafe(no_mangle)]
pub extern "C" fn doorpigeon_new(nets: &[u16]) -> matrix::Made
    ensures { result ≡ made_from (new_answer nets.now) }
{
    abi::doorpigeon_new(nets)
}

#[unsafe(no_mangle)]
pub extern "C" fn doorpigeon_add(
    matrix: matrix::Matrix,
    pattern: &[u8],
    rules: &[u16],
) -> matrix::Made
    ensures { result ≡ made_from (add_answer pattern.now rules.now (given matrix)) }
{
    abi::doorpigeon_add(matrix, pattern, rules)
}

#[unsafe(no_mangle)]
pub extern "C" fn doorpigeon_assume(matrix: matrix::Matrix, target: u32, value: u8) -> matrix::Made
    ensures { result ≡ made_from (assumed (min target last) value (given matrix)) }
{
    abi::doorpigeon_assume(matrix, target, value)
}

#[unsafe(no_mangle)]
pub extern "C" fn doorpigeon_outputs(matrix: matrix::Matrix) -> matrix::Outputs
    ensures { result ≡ outputs_from (outputs_answer (given matrix)) }
{
    abi::doorpigeon_outputs(matrix)
}

#[unsafe(no_mangle)]
pub extern "C" fn doorpigeon_normalize(matrix: matrix::Matrix) -> matrix::Made
    ensures { result ≡ made_from (normalize_answer (given matrix)) }
{
    abi::doorpigeon_normalize(matrix)
}

#[unsafe(no_mangle)]
pub extern "C" fn doorpigeon_add_enable(matrix: matrix::Matrix, enable: u32) -> matrix::Made
    ensures { result ≡ made_from (enable_answer (min enable last) (given matrix)) }
{
    abi::doorpigeon_add_enable(matrix, enable)
}

#[unsafe(no_mangle)]
pub extern "C" fn doorpigeon_merge(
    matrix: matrix::Matrix,
    at: u32,
    child: matrix::Matrix,
) -> matrix::Made
    ensures { result ≡ made_from (merge_answer (min at last) (given matrix) (given child)) }
{
    abi::doorpigeon_merge(matrix, at, child)
}

#[unsafe(no_mangle)]
pub extern "C" fn doorpigeon_dispatch(
    matrix: matrix::Matrix,
    enable: u32,
    store: &mut [u16],
) -> abi::Dispatched
    ensures { (result ≡ dispatched (dispatch_answer (min enable last) (given matrix) store.old)) × (store.new ≡ dispatch_store (min enable last) (given matrix) store.old) }
{
    abi::doorpigeon_dispatch(matrix, enable, store)
}

#[unsafe(no_mangle)]
pub extern "C" fn doorpigeon_check(store: &[u16], root: usize) -> abi::Answered
    ensures { result ≡ answered (check_answer store.now root) }
{
    abi::doorpigeon_check(store, root)
}

#[unsafe(no_mangle)]
pub extern "C" fn doorpigeon_one_hot(
    store: &[u16],
    root: usize,
    outputs: &[u16],
    count: usize,
    table: &mut [u16],
) -> emit::Emitted
    ensures { (result ≡ emitted_from (one_hot_answer store.now root outputs.now count table.old)) × (table.new ≡ one_hot_after store.now root outputs.now count table.old) }
{
    abi::doorpigeon_one_hot(store, root, outputs, count, table)
}

#[unsafe(no_mangle)]
pub extern "C" fn doorpigeon_disjoint(
    store: &[u16],
    root: usize,
    nets: &[u16],
    widths: &[usize],
    bits: &[u16],
    default: &[u16],
    count: usize,
    table: &mut [u16],
) -> emit::Emitted
    ensures { (result ≡ emitted_from (disjoint_answer store.now root nets.now widths.now bits.now default.now count table.old)) × (table.new ≡ disjoint_after store.now root nets.now widths.now bits.now default.now count table.old) }
{
    abi::doorpigeon_disjoint(store, root, nets, widths, bits, default, count, table)
}

#[unsafe(no_mangle)]
pub extern "C" fn doorpigeon_prefix(
    store: &[u16],
    root: usize,
    outputs: &[u16],
    enables: &[u16],
) -> abi::Answered
    ensures { result ≡ answered (prefix_answer store.now root outputs.now enables.now) }
{
    abi::doorpigeon_prefix(store, root, outputs, enables)
}

#[unsafe(no_mangle)]
pub extern "C" fn doorpigeon_evaluate(
    table: &[u16],
    count: usize,
    trits: &[u8],
    asked: u32,
) -> abi::Answered
    ensures { result ≡ answered (evaluate_answer count table.now trits.now (min asked last)) }
{
    abi::doorpigeon_evaluate(table, count, trits, asked)
}

#[unsafe(no_mangle)]
pub extern "C" fn doorpigeon_print(matrix: matrix::Matrix, out: &mut [u8]) -> abi::Answered
    ensures { (result ≡ answered (print_answer (given matrix) out.old)) × (out.new ≡ print_after (given matrix) out.old) }
{
    abi::doorpigeon_print(matrix, out)
}

#[unsafe(no_mangle)]
pub extern "C" fn doorpigeon_print_tree(store: &[u16], root: usize, out: &mut [u8]) -> abi::Answered
    ensures { (result ≡ answered (print_tree_answer store.now root out.old)) × (out.new ≡ print_tree_after store.now root out.old) }
{
    abi::doorpigeon_print_tree(store, root, out)
}

#[unsafe(no_mangle)]
pub extern "C" fn doorpigeon_read(text: &[u8]) -> text::ReadMade
    ensures { result ≡ read_from (read_answer text.now) }
{
    abi::doorpigeon_read(text)
}
