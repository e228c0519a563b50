// The correction of a row of a trace, and of the answers of a vector expression that depend on it.
ghost use Rattle.basics.specs.Deciding.{Decides};
ghost use Rattle.judging.specs.Orders.{JudgesCorrection};
ghost use Rattle.update_calls.specs.Correcting.{Lists, TreeCorrection, CorrectsTree, Correction};

use acceptance::accepting::accepts;
use alf::{RowNo, Rules, Sort};
use basics::Refusal;
use judging::checks::{judge, judge_codes, judge_place, rows_fit};
use rewriting::lists::alternatives_of;

// Whether the lists of a correction fit: the trace, an answer for each row, a new state for each name.
pub fn correction_fits(names: usize, n: usize, states: usize, answers: usize, new: usize) -> bool
    ensures { Decides result (Lists names n states answers new) }
{
    if answers != n {
        return false;
    }
    if new != names {
        return false;
    }
    rows_fit(names, n, states)
}

// 18, 10, 15 of the trace, 15 of the new row, 19.
pub fn judge_correction(
    fits: bool,
    good: bool,
    states: &[u8],
    new: &[u8],
    n: usize,
    row: usize,
) -> Result<(), Refusal>
    ensures { JudgesCorrection fits good states.now new.now n row result }
{
    judge(fits, good, states)?;
    judge_codes(new)?;
    judge_place(n, row)
}

// An accepted tree, and lists that fit.
fn correct_tree(
    rules: Rules,
    names: usize,
    n: usize,
    tree: &[u8],
    states: &mut [u8],
    answers: &mut [u8],
    row: RowNo,
    new: &[u8],
)
    requires { TreeCorrection rules names n tree.now states.old answers.old row.0 new.now }
    ensures { CorrectsTree rules names n tree.now states.old
        answers.old row.0
        new.now states.new answers.new }
{
    let a = alternatives_of(rules, tree, names);
    let lists = a.lists();
    correction::corrections::correct(rules, tree, names, &lists, n, states, answers, row, new)
}

// The new states become row `row`, and the answers from there on that can depend on it are written anew; one row.
pub fn correct(
    rules: Rules,
    names: usize,
    n: usize,
    tree: &[u8],
    states: &mut [u8],
    answers: &mut [u8],
    row: RowNo,
    new: &[u8],
) -> Result<usize, Refusal>
    ensures { Correction rules names n tree.now states.old answers.old row.0
        new.now states.new answers.new result }
{
    let fits = correction_fits(names, n, states.len(), answers.len(), new.len());
    let good = accepts(rules, tree, names, Sort::Vector);
    judge_correction(fits, good, states, new, n, row.0 as usize)?;
    correct_tree(rules, names, n, tree, states, answers, row, new);
    Ok(1)
}
