// The state and the value of a boolean expression at a row, by recursion over the tree in its array: each operand ends
// before its operator.
ghost use Rattle.std.specs.Prelude.{◌≡◌};
ghost use Rattle.trees.specs.Parts.{EndsBoolean};
ghost use Rattle.evaluator.specs.Rows.{Within, IsState, state_of, value_of, Filling};
ghost use Rattle.basics.specs.Words.{listed};
ghost use Rattle.basics.specs.Memory.{front};

use crate::operators::{choose, operated, settle};
use alf::Rules;
use states::states::not_of;
use trees::parts::start_of;

// The state of the expression that ends at `end`: for a name the recorded state, else its value.
#[cycle(state_value)]
pub fn state(rules: Rules, tree: &[u8], end: usize, states: &[u8], names: usize, row: usize) -> u8
    requires ends_boolean { EndsBoolean tree.now names end }
    requires within { Within states.now names row }
    ensures { IsState (state_of rules tree.now names states.now end row) result }
{
    let at = end - 1;
    let b = tree[at];
    if b < 32 {
        let i = row * names + b as usize;
        return states[i];
    }
    if b < 40 {
        return b - 32;
    }
    if 64 <= b {
        return not_of(state(rules, tree, at, states, names, row));
    }
    let left = start_of(tree, at, names);
    if b < 60 {
        let x = state(rules, tree, left, states, names, row);
        let y = state(rules, tree, at, states, names, row);
        return operated(b, x, y);
    }
    let first = start_of(tree, left, names);
    let c = state(rules, tree, first, states, names, row);
    let x = value(rules, tree, left, states, names, row);
    let y = value(rules, tree, at, states, names, row);
    choose(rules, c, x, y)
}

// Its value.
#[cycle(state_value)]
pub fn value(rules: Rules, tree: &[u8], end: usize, states: &[u8], names: usize, row: usize) -> u8
    requires ends_boolean { EndsBoolean tree.now names end }
    requires within { Within states.now names row }
    ensures { IsState (value_of rules tree.now names states.now end row) result }
{
    let x = state(rules, tree, end, states, names, row);
    let at = end - 1;
    settle(tree[at], x)
}

// Fills the first `n` entries of a list with the values at rows 0 to n-1.
pub fn values(
    rules: Rules,
    tree: &[u8],
    end: usize,
    states: &[u8],
    names: usize,
    n: usize,
    out: &mut [u8],
)
    requires ends_boolean { EndsBoolean tree.now names end }
    requires filling { Filling states.now names n out.old }
    ensures { out.new
        ≡ front (listed 0 n (value_of rules tree.now names states.now end)) out.old }
{
    for i in 0..n {
        out[i] = value(rules, tree, end, states, names, i);
    }
}
