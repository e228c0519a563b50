// The tests of one step of one alternative, into the lists of edges and operands.
ghost use Rattle.std.specs.Prelude.{◌≡◌, length};
ghost use Rattle.alf.specs.Expressions.{name};
ghost use Rattle.acceptance.specs.Sizes.{alternative_at};
ghost use Rattle.step_tests.specs.Steps.{step_at, LeftAsked, Stepping, Put};

use crate::pins::{entries_at, put_noted};
use crate::splitting;
use crate::tests::put_test;
use acceptance::{notes, sizes};
use alternatives::picking;
use alternatives::picking::How;

// The steps of alternative i of the left operand, which ends at `left`, from those of the whole and of the right one.
fn left_steps(
    tree: &[u8],
    pins: &[u8; 8192],
    notes: &[u8; 768],
    left: usize,
    names: usize,
    i: usize,
    how: How,
    steps: usize,
    right: usize,
) -> usize
    requires { LeftAsked pins.now notes.now tree.now names left i how steps right }
    ensures { length (alternative_at name pins.now tree.now names left i) ≡ result }
{
    if splitting::in_turn(how) {
        return steps - right;
    }
    let x = sizes::shape_of(tree, pins, notes, left, names, i);
    x.steps
}

// The tests of step j of alternative t, of `steps` steps, of the expression that ends at `end`, with its pins, from
// place `from` on; the place behind them. A condition's edge `11` has the number 20.
pub fn put_step(
    tree: &[u8],
    pins: &[u8; 8192],
    notes: &[u8; 768],
    end: usize,
    names: usize,
    t: usize,
    steps: usize,
    j: usize,
    edges: &mut [u8],
    operands: &mut [u16],
    from: usize,
) -> usize
    requires { Stepping pins.now notes.now tree.now names end t steps j edges.old operands.old from }
    ensures { Put (step_at pins.now tree.now names end t j) from edges.old
        operands.old result edges.new operands.new }
{
    if steps <= j {
        return from;
    }
    let at = end - 1;
    let b = tree[at];
    if 64 <= b {
        let next = put_test(b - 64, at, edges, operands, from);
        return put_noted(pins, notes, end, 32, edges, operands, next);
    }
    let left = notes::start_at(tree, notes, at, names);
    if b == 57 {
        let next = put_step(
            tree, pins, notes, at, names, t, steps, j, edges, operands, from,
        );
        return put_test(20, left, edges, operands, next);
    }
    if b == 56 {
        let next = put_step(
            tree, pins, notes, left, names, t, steps, j, edges, operands, from,
        );
        return put_test(20, at, edges, operands, next);
    }
    let n = notes::count_at(tree, notes, left, names);
    if b == 55 {
        let q = sizes::part_at(left, at, n, t);
        let next = put_step(
            tree, pins, notes, q.end, names, q.t, steps, j, edges, operands, from,
        );
        return put_noted(
            pins,
            notes,
            end,
            entries_at(steps, j),
            edges,
            operands,
            next,
        );
    }
    let m = notes::count_at(tree, notes, at, names);
    let p = picking::find(b, n, m, t);
    let i = p.left;
    let k = p.right;
    let how = p.how;
    let y = sizes::shape_of(tree, pins, notes, at, names, k);
    let x = left_steps(tree, pins, notes, left, names, i, how, steps, y.steps);
    let s = splitting::split(how, x, y.steps, j);
    let next = put_step(
        tree, pins, notes, left, names, i, x, s.left, edges, operands, from,
    );
    let last = put_step(
        tree, pins, notes, at, names, k, y.steps, s.right, edges, operands, next,
    );
    put_noted(
        pins,
        notes,
        end,
        entries_at(steps, j),
        edges,
        operands,
        last,
    )
}
