// The recursion over the tree: each operand ends before its operator. A part's answers are worked out once, for every
// window of the rows first to first + size, and stand in the table from then on.
ghost use Rattle.held_parts.specs.Holding.{Leaf};
ghost use Rattle.window_answers.specs.Filling.{LeafFilled, Fillable, Filled};

use alf::Rules;
use answer_table::columns::column;
use answer_table::parts::{leaf_part, operator_part};
use held_parts::holding::hold_part;
use trees::parts::start_of;

// The part at `base`, of an edge (byte `k`) of the boolean expression that ends at `end`, or of a condition.
fn fill_leaf(
    rules: Rules,
    k: u8,
    tree: &[u8],
    end: usize,
    states: &[u8],
    names: usize,
    first: usize,
    size: usize,
    base: usize,
    table: &mut [u8; 65536],
)
    requires { Leaf tree.now end states.now names first size base table.old }
    ensures { LeafFilled rules k tree.now end states.now names first size base
        table.old table.new }
{
    let list = column(rules, tree, end, states, names, first, size);
    leaf_part(k, &list, size, base, table);
}

// The parts of the expression that ends at `end` and of all its operands. A boolean expression is a condition. The
// operand that ends last is first: its part stands behind those of the other one. An edge and an operator of two
// vectors, bytes 50 to 55, are held to their pins. As there are two calls of `operator_part`, the compiler leaves it a
// function of its own, and it takes no room in this frame, of which 257 can be open.
pub fn fill(
    rules: Rules,
    vector: bool,
    tree: &[u8],
    pins: &[u8; 8192],
    end: usize,
    states: &[u8],
    names: usize,
    first: usize,
    size: usize,
    table: &mut [u8; 65536],
)
    requires { Fillable vector tree.now pins.now end states.now names first size table.old }
    ensures { Filled rules tree.now pins.now end states.now names first size
        table.old table.new }
{
    let at = end - 1;
    if !vector {
        fill_leaf(
            rules,
            0,
            tree,
            end,
            states,
            names,
            first,
            size,
            at * 256,
            table,
        );
        return;
    }
    let k = tree[at];
    if 64 <= k {
        fill_leaf(
            rules,
            k,
            tree,
            at,
            states,
            names,
            first,
            size,
            at * 256,
            table,
        );
        hold_part(rules, tree, pins, end, states, names, first, size, table);
        return;
    }
    let left = start_of(tree, at, names);
    fill(
        rules,
        k != 56,
        tree,
        pins,
        at,
        states,
        names,
        first,
        size,
        table,
    );
    fill(
        rules,
        k != 57,
        tree,
        pins,
        left,
        states,
        names,
        first,
        size,
        table,
    );
    let p = (left - 1) * 256;
    let q = (at - 1) * 256;
    if 56 <= k {
        operator_part(k, p, q, size, at * 256, table);
        return;
    }
    operator_part(k, p, q, size, at * 256, table);
    hold_part(rules, tree, pins, end, states, names, first, size, table);
}
