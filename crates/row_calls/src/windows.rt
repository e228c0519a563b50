// The answer as written on one window of rows, by recursion over the tree.
ghost use Rattle.std.specs.Prelude.{◌≡◌};
ghost use Rattle.alf.specs.Windows.{numbered};
ghost use Rattle.alf.specs.Answers.{number_of};
ghost use Rattle.row_calls.specs.Windows.{TreeWindow, answer_over, WindowAnswer};

use alf::{Answer, RowNo, Rules, Sort};
use basics::Refusal;
use judging::checks::check_row;

// An accepted tree, on a window of rows that are there.
fn answer_tree(rules: Rules, names: usize, tree: &[u8], states: &[u8], a: usize, b: usize) -> Answer
    requires { TreeWindow names tree.now states.now b }
    ensures { number_of result ≡ numbered (answer_over rules names tree.now states.now a b) }
{
    let rank = window_answers::rows::answer(rules, tree, tree.len(), states, names, a, b);
    evaluator::ranks::name_of(rank)
}

// The answer of a vector expression on the window of rows a to b; a window without an event answers no.
pub fn window_answer(
    rules: Rules,
    names: usize,
    n: usize,
    tree: &[u8],
    states: &[u8],
    a: RowNo,
    b: RowNo,
) -> Result<Answer, Refusal>
    ensures { WindowAnswer rules names n tree.now states.now a.0 b.0 result }
{
    let from = a.0 as usize;
    let to = b.0 as usize;
    let last = from.max(to);
    check_row(rules, names, n, tree, Sort::Vector, states, last)?;
    Ok(answer_tree(rules, names, tree, states, from, to))
}
