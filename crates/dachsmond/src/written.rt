// An expression at the rows of a trace, as it is written, for C.
ghost use Rattle.row_calls.specs.Written.{RowState, RowValue, AllValues, RowAnswer};
ghost use Rattle.row_calls.specs.Windows.{WindowAnswer};
ghost use Rattle.telling.specs.Handing.{Hands, told, told_answer};

use alf::{RowNo, Rules};
use row_calls::windows::window_answer;
use row_calls::written::{row_answer, row_state, row_value, values};
use telling::outcomes::tell;
use telling::rows::tell_answer;
use telling::{Answered, Told};

// The state of a boolean expression at a row, as the count told.
pub fn dachsmond_row_state(
    rules: Rules,
    names: usize,
    n: usize,
    tree: &[u8],
    states: &[u8],
    row: u32,
) -> Told
    ensures { Hands (RowState rules names n tree.now states.now row) told result }
{
    tell(row_state(rules, names, n, tree, states, RowNo(row)))
}

// Its value.
pub fn dachsmond_row_value(
    rules: Rules,
    names: usize,
    n: usize,
    tree: &[u8],
    states: &[u8],
    row: u32,
) -> Told
    ensures { Hands (RowValue rules names n tree.now states.now row) told result }
{
    tell(row_value(rules, names, n, tree, states, RowNo(row)))
}

// Its values at all rows, into a lent list.
pub fn dachsmond_values(
    rules: Rules,
    names: usize,
    n: usize,
    tree: &[u8],
    states: &[u8],
    out: &mut [u8],
) -> Told
    ensures { Hands (AllValues rules names n tree.now states.now
        out.old
        out.new) told result }
{
    tell(values(rules, names, n, tree, states, out))
}

// The answer of a vector expression at a row, the greatest over the windows that end there.
pub fn dachsmond_row_answer(
    rules: Rules,
    names: usize,
    n: usize,
    tree: &[u8],
    states: &[u8],
    row: u32,
) -> Answered
    ensures { Hands (RowAnswer rules names n tree.now
        states.now row) told_answer result }
{
    tell_answer(row_answer(rules, names, n, tree, states, RowNo(row)))
}

// The answer of a vector expression on the window of rows a to b.
pub fn dachsmond_window_answer(
    rules: Rules,
    names: usize,
    n: usize,
    tree: &[u8],
    states: &[u8],
    a: u32,
    b: u32,
) -> Answered
    ensures { Hands (WindowAnswer rules names n tree.now
        states.now a b) told_answer result }
{
    tell_answer(window_answer(rules, names, n, tree, states, RowNo(a), RowNo(b)))
}
