// Matching by alternatives that are handed in as lists, for C: whether they are accepted, a row, all rows, the totals,
// the queue.
ghost use Rattle.listed_acceptance.specs.Fitting.{ListedFits};
ghost use Rattle.listed_calls.specs.Listed.{ListedMatch, ListedAll, ListedTotals};
ghost use Rattle.telling.specs.Handing.{Hands, told};
ghost use Rattle.telling.specs.Matching.{told_match, told_counts, queue_of_lem, told_push};
ghost use Rattle.telling.specs.Listed.{ListedPushes};

use alf::Rules;
use telling::{Counted, Matched, Pushed, Queue, Told};

// How many alternatives are handed in, where they are accepted.
#[unsafe(no_mangle)]
pub extern "C" fn dachsmond_listed_fits(
    names: usize,
    tree: &[u8],
    steps: &[u8],
    tests: &[u8],
    edges: &[u8],
    operands: &[u16],
) -> Told
    ensures { Hands (ListedFits names tree.now steps.now tests.now
        edges.now operands.now) told result }
{
    dachsmond::listed::dachsmond_listed_fits(names, tree, steps, tests, edges, operands)
}

// Their answer at a row, the number of them tried, and the time where the match began.
#[unsafe(no_mangle)]
pub extern "C" fn dachsmond_listed_match_row(
    rules: Rules,
    names: usize,
    n: usize,
    tree: &[u8],
    steps: &[u8],
    tests: &[u8],
    edges: &[u8],
    operands: &[u16],
    times: &[u64],
    states: &[u8],
    row: u32,
) -> Matched
    ensures { Hands (ListedMatch rules names n tree.now steps.now
        tests.now edges.now operands.now states.now
        times.now row) told_match result }
{
    dachsmond::listed::dachsmond_listed_match_row(
        rules, names, n, tree, steps, tests, edges, operands, times, states, row,
    )
}

// The same for all rows, into lent lists.
#[unsafe(no_mangle)]
pub extern "C" fn dachsmond_listed_match_all(
    rules: Rules,
    names: usize,
    n: usize,
    tree: &[u8],
    steps: &[u8],
    tests: &[u8],
    edges: &[u8],
    operands: &[u16],
    times: &[u64],
    states: &[u8],
    answers: &mut [u8],
    tried: &mut [u32],
    given: &mut [u8],
    began: &mut [u64],
) -> Told
    ensures { Hands (ListedAll rules names n tree.now steps.now
        tests.now edges.now operands.now states.now
        times.now answers.old tried.old given.old began.old
        answers.new tried.new given.new began.new) told result }
{
    dachsmond::listed::dachsmond_listed_match_all(
        rules, names, n, tree, steps, tests, edges, operands, times, states, answers, tried, given,
        began,
    )
}

// How many of the rows answer yes, no and unknown.
#[unsafe(no_mangle)]
pub extern "C" fn dachsmond_listed_totals(
    rules: Rules,
    names: usize,
    n: usize,
    tree: &[u8],
    steps: &[u8],
    tests: &[u8],
    edges: &[u8],
    operands: &[u16],
    states: &[u8],
) -> Counted
    ensures { Hands (ListedTotals rules names n tree.now steps.now
        tests.now
        edges.now operands.now states.now) told_counts result }
{
    dachsmond::listed::dachsmond_listed_totals(
        rules, names, n, tree, steps, tests, edges, operands, states,
    )
}

// One row more, with its time: its answer, the number tried, the time where its match began, and the queue then.
#[unsafe(no_mangle)]
pub extern "C" fn dachsmond_listed_push(
    rules: Rules,
    names: usize,
    tree: &[u8],
    steps: &[u8],
    tests: &[u8],
    edges: &[u8],
    operands: &[u16],
    queue: Queue,
    time: u64,
    row: &[u8],
) -> Pushed
    ensures { Hands (ListedPushes rules names tree.now steps.now
        tests.now edges.now operands.now (queue_of_lem queue) time
        row.now) told_push result }
{
    dachsmond::listed::dachsmond_listed_push(
        rules, names, tree, steps, tests, edges, operands, queue, time, row,
    )
}
