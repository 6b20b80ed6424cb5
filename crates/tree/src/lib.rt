// The node store: trees as runs of numbers, written, compared, cleared, and checked when handed in.
// Nothing here knows matrices.
#![tactic(auto)]

ghost use Rattle.std.specs.Prelude.{◌≡◌};
ghost use Rattle.rules.specs.Answers.{check_answer};
ghost use Rattle.tree.specs.Checked.{check_read};

use rules::{Place, Refusal};

pub mod inner;

// A tree that was built: where its root stands and how many entries it has.
#[derive(Clone, Copy)]
pub struct Built {
    pub root: Place,
    pub size: usize,
}

// Its size, where the entries up to the root are those of one well formed tree.
pub fn check(store: &[u16], root: Place) -> Result<usize, Refusal>
    ensures { check_read result ≡ check_answer store.now root.0 }
{
    let at = root.0;
    if inner::places(store.len()) <= at {
        return Err(Refusal::Form);
    }
    let size = at + 1;
    let k = inner::NODE_RUN * size;
    if inner::is_tree(&store[..k]) {
        return Ok(size);
    }
    Err(Refusal::Form)
}
