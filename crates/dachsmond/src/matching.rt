// Matching by the alternatives of an expression, for C: a row, all rows, the totals, and the alternatives themselves.
ghost use Rattle.matching_calls.specs.Matching.{RowMatch, AllMatched, RowTotals};
ghost use Rattle.rewriting_calls.specs.Calls.{Rewrites};
ghost use Rattle.contradictions.specs.Calls.{Contradicts};
ghost use Rattle.telling.specs.Handing.{Hands, told};
ghost use Rattle.telling.specs.Matching.{told_match, told_counts};

use alf::{RowNo, Rules};
use contradictions::reports::contradictions;
use matching_calls::matching::{match_all, match_row, totals};
use rewriting_calls::rewrite;
use telling::matching::{tell_counts, tell_match};
use telling::outcomes::tell;
use telling::{Counted, Matched, Told};

// The answer of a vector expression at a row, the number of its alternatives tried, and the time where the match began.
pub fn dachsmond_match_row(
    rules: Rules,
    names: usize,
    n: usize,
    tree: &[u8],
    times: &[u64],
    states: &[u8],
    row: u32,
) -> Matched
    ensures { Hands (RowMatch rules names n tree.now times.now
        states.now row) told_match result }
{
    tell_match(match_row(rules, names, n, tree, times, states, RowNo(row)))
}

// The same for all rows, into lent lists.
pub fn dachsmond_match_all(
    rules: Rules,
    names: usize,
    n: usize,
    tree: &[u8],
    times: &[u64],
    states: &[u8],
    answers: &mut [u8],
    tried: &mut [u32],
    given: &mut [u8],
    began: &mut [u64],
) -> Told
    ensures { Hands (AllMatched rules names n tree.now times.now states.now
        answers.old tried.old given.old began.old
        answers.new tried.new given.new began.new) told result }
{
    tell(match_all(
        rules, names, n, tree, times, states, answers, tried, given, began,
    ))
}

// How many of the rows answer yes, no and unknown.
pub fn dachsmond_totals(rules: Rules, names: usize, n: usize, tree: &[u8], states: &[u8]) -> Counted
    ensures { Hands (RowTotals rules names n tree.now
        states.now) told_counts result }
{
    tell_counts(totals(rules, names, n, tree, states))
}

// The alternatives of a vector expression, as the rules read it, into four lent lists.
pub fn dachsmond_rewrite(
    rules: Rules,
    names: usize,
    tree: &[u8],
    steps: &mut [u8],
    tests: &mut [u8],
    edges: &mut [u8],
    operands: &mut [u16],
) -> Told
    ensures { Hands (Rewrites rules names tree.now steps.old tests.old
        edges.old operands.old steps.new tests.new edges.new
        operands.new) told result }
{
    tell(rewrite(rules, names, tree, steps, tests, edges, operands))
}

// A flag for each of its alternatives, 1 where it is contradictory, else 0, into a lent list.
pub fn dachsmond_contradictions(rules: Rules, names: usize, tree: &[u8], flags: &mut [u8]) -> Told
    ensures { Hands (Contradicts rules names tree.now flags.old
        flags.new) told result }
{
    tell(contradictions(rules, names, tree, flags))
}
