// The answer as written, by recursion over the tree: state, value and answer at a row, the values of all rows.
ghost use Rattle.row_calls.specs.Written.{RowState, RowValue, AllValues, RowAnswer};

use alf::{Answer, RowNo, Rules, Sort};
use basics::Refusal;
use judging::checks::{check_row, check_rows};

// The state of a boolean expression at a row.
pub fn row_state(
    rules: Rules,
    names: usize,
    n: usize,
    tree: &[u8],
    states: &[u8],
    row: RowNo,
) -> Result<usize, Refusal>
    ensures { RowState rules names n tree.now states.now row.0 result }
{
    let at = row.0 as usize;
    check_row(rules, names, n, tree, Sort::Boolean, states, at)?;
    let s = evaluator::values::state(rules, tree, tree.len(), states, names, at);
    Ok(s as usize)
}

// Its value.
pub fn row_value(
    rules: Rules,
    names: usize,
    n: usize,
    tree: &[u8],
    states: &[u8],
    row: RowNo,
) -> Result<usize, Refusal>
    ensures { RowValue rules names n tree.now states.now row.0 result }
{
    let at = row.0 as usize;
    check_row(rules, names, n, tree, Sort::Boolean, states, at)?;
    let s = evaluator::values::value(rules, tree, tree.len(), states, names, at);
    Ok(s as usize)
}

// Its values at all rows; how many.
pub fn values(
    rules: Rules,
    names: usize,
    n: usize,
    tree: &[u8],
    states: &[u8],
    out: &mut [u8],
) -> Result<usize, Refusal>
    ensures { AllValues rules names n tree.now states.now out.old
        out.new result }
{
    let lent = out.len() == n;
    check_rows(rules, names, n, lent, tree, Sort::Boolean, states)?;
    evaluator::values::values(rules, tree, tree.len(), states, names, n, out);
    Ok(n)
}

// The answer of a vector expression at a row: the greatest over the windows that end there.
pub fn row_answer(
    rules: Rules,
    names: usize,
    n: usize,
    tree: &[u8],
    states: &[u8],
    row: RowNo,
) -> Result<Answer, Refusal>
    ensures { RowAnswer rules names n tree.now states.now row.0 result }
{
    let at = row.0 as usize;
    check_row(rules, names, n, tree, Sort::Vector, states, at)?;
    Ok(window_answers::rows::row_answer(rules, tree, tree.len(), states, names, at))
}
