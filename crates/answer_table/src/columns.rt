// A boolean expression at the rows of a window: its states, worked out once for each row, and what an edge or a
// condition of it answers on the windows inside.
ghost use Rattle.std.specs.Prelude.{◌≡◌, ◌-◌, min};
ghost use Rattle.alf.specs.Windows.{certainty};
ghost use Rattle.alf.specs.Decoder.{edge_at};
ghost use Rattle.trees.specs.Parts.{EndsBoolean};
ghost use Rattle.answer_table.specs.Tables.{Rows, Column, Cell, Cells, SoFar, entry, edge_over, leaf_over_lem};

use alf::Rules;
use evaluator::values::state;
use states::edges::{certainty_of, edge_on};

// The states of the expression that ends at `end`, at the rows first to first + size.
pub fn column(
    rules: Rules,
    tree: &[u8],
    end: usize,
    states: &[u8],
    names: usize,
    first: usize,
    size: usize,
) -> [u8; 17]
    requires ends_boolean { EndsBoolean tree.now names end }
    requires rows { Rows states.now names first size }
    ensures { Column rules tree.now names states.now end first size result }
{
    let mut list = [0u8; 17];
    for i in 0..=size {
        list[i] = state(rules, tree, end, states, names, first + i);
    }
    list
}

// Edge `k` on a window: no unless it has one event.
fn edge_over(k: u8, list: &[u8; 17], a: usize, b: usize) -> u8
    requires { Cells list.now a b }
    ensures { result ≡ edge_over (edge_at k) (entry list.now) a b }
{
    let next = a + 1;
    if b != next {
        return 0;
    }
    edge_on(k, list[a], list[b])
}

// A condition asked at one row more, where `low` is its answer so far.
pub fn held_next(low: u8, list: &[u8; 17], m: usize) -> u8
    requires { Cell list.now m }
    ensures { result ≡ min low (certainty (entry list.now m)) }
{
    low.min(certainty_of(list[m]))
}

// Edge k - 64 of byte `k`, or a condition where the byte is less; `low` is its answer on the window without row `b`.
pub fn leaf_over(k: u8, low: u8, list: &[u8; 17], a: usize, b: usize) -> u8
    requires cells { Cells list.now a b }
    requires so_far { SoFar k (entry list.now) a (b - 1) low }
    ensures { result ≡ leaf_over_lem k (entry list.now) a b }
{
    if k < 64 {
        return held_next(low, list, b);
    }
    edge_over(k - 64, list, a, b)
}
