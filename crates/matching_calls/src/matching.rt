// Matching by the alternatives of a tree: a row's answer, the number tried and the time where the match began, those of
// all rows, the totals.
ghost use Rattle.basics.specs.Deciding.{Decides};
ghost use Rattle.matching_calls.specs.Matching.{TreeRow, TreeRows, TreeLists, MatchesTree, FillsTree, TotalsTree};
ghost use Rattle.matching_calls.specs.Matching.{Lent, RowMatch, AllMatched, RowTotals};

use alf::{RowNo, Rules, Sort};
use basics::Refusal;
use beginnings::times::{Dated, date, mark};
use judging::checks::check_rows;
use judging::timed::{check_timed, check_timed_row};
use matcher::scenes::Scene;
use matcher::tables::Total;
use rewriting::lists::alternatives_of;

// An accepted tree, at a row that is there.
fn match_tree(
    rules: Rules,
    names: usize,
    tree: &[u8],
    times: &[u64],
    states: &[u8],
    row: usize,
) -> Dated
    requires { TreeRow rules names tree.now times.now states.now row }
    ensures { MatchesTree rules names tree.now times.now states.now row
        result.answer result.tries result.began }
{
    let a = alternatives_of(rules, tree, names);
    let lists = a.lists();
    let scene = Scene {
        rules,
        tree,
        names,
        states,
    };
    let found = matcher::answers::match_row(&scene, &lists, row);
    date(times, lists.steps, row, found)
}

// At all n rows, into lists of n entries.
fn match_tree_all(
    rules: Rules,
    names: usize,
    n: usize,
    tree: &[u8],
    times: &[u64],
    states: &[u8],
    answers: &mut [u8],
    tried: &mut [u32],
    given: &mut [u8],
    began: &mut [u64],
)
    requires { TreeLists rules names n tree.now times.now states.now answers.old tried.old given.old
        began.old }
    ensures { FillsTree rules names n tree.now times.now states.now
        answers.new tried.new given.new began.new }
{
    let a = alternatives_of(rules, tree, names);
    let lists = a.lists();
    let scene = Scene {
        rules,
        tree,
        names,
        states,
    };
    block_answers::answers::match_all(&scene, &lists, n, answers, tried);
    mark(times, lists.steps, n, answers, tried, given, began);
}

// The totals of n rows.
fn total_tree(rules: Rules, names: usize, n: usize, tree: &[u8], states: &[u8]) -> Total
    requires { TreeRows rules names n tree.now states.now }
    ensures { TotalsTree rules names n tree.now
        states.now result.yes result.no result.unknown }
{
    let a = alternatives_of(rules, tree, names);
    let lists = a.lists();
    let scene = Scene {
        rules,
        tree,
        names,
        states,
    };
    block_totals::totals::totals(&scene, &lists, n)
}

// The answer of a vector expression at a row, the number of its alternatives tried, and the time where the match began.
pub fn match_row(
    rules: Rules,
    names: usize,
    n: usize,
    tree: &[u8],
    times: &[u64],
    states: &[u8],
    row: RowNo,
) -> Result<Dated, Refusal>
    ensures { RowMatch rules names n tree.now times.now states.now row.0
        result }
{
    let at = row.0 as usize;
    check_timed_row(rules, names, n, tree, times, states, at)?;
    Ok(match_tree(rules, names, tree, times, states, at))
}

// Whether the lists of times, answers, numbers tried, flags and times where the matches began are of n entries.
pub fn lists_are(
    n: usize,
    times: usize,
    answers: usize,
    tried: usize,
    given: usize,
    began: usize,
) -> bool
    ensures { Decides result (Lent n times answers tried given began) }
{
    if times != n {
        return false;
    }
    if answers != n {
        return false;
    }
    if tried != n {
        return false;
    }
    if given != n {
        return false;
    }
    began == n
}

// The same for all rows, by document 01's numbers, into lent lists; how many.
pub fn match_all(
    rules: Rules,
    names: usize,
    n: usize,
    tree: &[u8],
    times: &[u64],
    states: &[u8],
    answers: &mut [u8],
    tried: &mut [u32],
    given: &mut [u8],
    began: &mut [u64],
) -> Result<usize, Refusal>
    ensures { AllMatched rules names n tree.now times.now states.now
        answers.old tried.old given.old began.old
        answers.new tried.new given.new began.new result }
{
    let lent = lists_are(
        n,
        times.len(),
        answers.len(),
        tried.len(),
        given.len(),
        began.len(),
    );
    check_timed(rules, names, n, lent, tree, times, states)?;
    match_tree_all(
        rules, names, n, tree, times, states, answers, tried, given, began,
    );
    Ok(n)
}

// How many of the rows answer yes, no and unknown.
pub fn totals(
    rules: Rules,
    names: usize,
    n: usize,
    tree: &[u8],
    states: &[u8],
) -> Result<Total, Refusal>
    ensures { RowTotals rules names n tree.now states.now result }
{
    check_rows(rules, names, n, true, tree, Sort::Vector, states)?;
    Ok(total_tree(rules, names, n, tree, states))
}
