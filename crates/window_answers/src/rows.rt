// The answer of a vector expression on a window, and at a row: the greatest over the windows that end there. The table
// of its parts' answers is made for each call. The functions `_with` are given the expression's pins; the others find
// them.
ghost use Rattle.std.specs.Prelude.{◌≡◌, length};
ghost use Rattle.basics.specs.Words.{greatest};
ghost use Rattle.alf.specs.Values.{state_at};
ghost use Rattle.alf.specs.Windows.{row_answer};
ghost use Rattle.alf.specs.Answers.{number_of};
ghost use Rattle.alf.specs.Steady.{meant};
ghost use Rattle.trees.specs.Parts.{vector_at};
ghost use Rattle.steady_pins.specs.Pinned.{Pins};
ghost use Rattle.evaluator.specs.Rows.{Within};
ghost use Rattle.window_answers.specs.Spans.{Pattern, pinned_on, pinned_best, answer_on, best_at_lem};
ghost use Rattle.answer_table.specs.Tables.{Ending, stored};

use crate::filling::fill;
use crate::lengths::longest;
use alf::{Answer, Rules};
use answer_table::cuts::read;
use evaluator::ranks::name_of;
use steady_pins::finding::find;

// A table with nothing worked out.
fn blank() -> [u8; 65536]
    ensures { length result ≡ 65536 }
{
    [0u8; 65536]
}

// The answer of the expression that ends at `end`, with these pins, on the rows from `a` to `b`: 0 no, 1 unknown,
// 2 yes. A window of more events than its longest answers no.
pub fn answer_with(
    rules: Rules,
    tree: &[u8],
    pins: &[u8; 8192],
    end: usize,
    states: &[u8],
    names: usize,
    a: usize,
    b: usize,
) -> u8
    requires pattern { Pattern tree.now names end }
    requires pins { Pins tree.now names pins.now }
    requires within { Within states.now names b }
    ensures { result ≡ pinned_on rules tree.now pins.now names states.now end a b }
{
    if b <= a {
        return 0;
    }
    let n = b - a;
    if longest(tree, end, names) < n {
        return 0;
    }
    let mut table = blank();
    fill(
        rules, true, tree, pins, end, states, names, a, n, &mut table,
    );
    read(&table, (end - 1) * 256, 0, n)
}

// The greatest over the windows that end at row `n` of the table, in the part that starts at `base`.
fn best_of(table: &[u8; 65536], base: usize, n: usize) -> u8
    requires { Ending table.now base n }
    ensures { result ≡ greatest n (λ a. stored table.now base a n) }
{
    let mut best: u8 = 0;
    for a in 0..n {
        best = best.max(read(table, base, a, n));
    }
    best
}

// The greatest answer of the expression that ends at `end`, with these pins, over the windows that end at `row`.
// Windows without an event answer no, and so do those of more events than its longest.
pub fn best_with(
    rules: Rules,
    tree: &[u8],
    pins: &[u8; 8192],
    end: usize,
    states: &[u8],
    names: usize,
    row: usize,
) -> u8
    requires pattern { Pattern tree.now names end }
    requires pins { Pins tree.now names pins.now }
    requires within { Within states.now names row }
    ensures { result ≡ pinned_best rules tree.now pins.now names states.now end
        row }
{
    let n = row.min(longest(tree, end, names));
    let mut table = blank();
    fill(
        rules,
        true,
        tree,
        pins,
        end,
        states,
        names,
        row - n,
        n,
        &mut table,
    );
    best_of(&table, (end - 1) * 256, n)
}

// The answer of the expression that ends at `end` on the rows from `a` to `b`, with the pins that the rules give it.
pub fn answer(
    rules: Rules,
    tree: &[u8],
    end: usize,
    states: &[u8],
    names: usize,
    a: usize,
    b: usize,
) -> u8
    requires pattern { Pattern tree.now names end }
    requires within { Within states.now names b }
    ensures { result ≡ answer_on rules tree.now names states.now end a b }
{
    let pins = find(rules, tree, end, names);
    answer_with(rules, tree, &pins, end, states, names, a, b)
}

// Its greatest answer over the windows that end at `row`.
pub fn best_at(rules: Rules, tree: &[u8], end: usize, states: &[u8], names: usize, row: usize) -> u8
    requires pattern { Pattern tree.now names end }
    requires within { Within states.now names row }
    ensures { result ≡ best_at_lem rules tree.now names states.now end row }
{
    let pins = find(rules, tree, end, names);
    best_with(rules, tree, &pins, end, states, names, row)
}

// Row `row`'s answer; row 0 has no event.
pub fn row_answer(
    rules: Rules,
    tree: &[u8],
    end: usize,
    states: &[u8],
    names: usize,
    row: usize,
) -> Answer
    requires pattern { Pattern tree.now names end }
    requires within { Within states.now names row }
    ensures { number_of result ≡ row_answer (state_at rules names states.now)
        (meant rules (vector_at tree.now names end)) row }
{
    if row == 0 {
        return Answer::NoEvent;
    }
    name_of(best_at(rules, tree, end, states, names, row))
}
