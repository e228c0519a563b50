// Matching by alternatives that are handed in as lists: a row, all rows, the totals, the queue. The first two and the
// queue give the time where the match began.
ghost use Rattle.listed_calls.specs.Listed.{ListedMatch, ListedAll, ListedTotals, DecidesQueue, ListedPush};

use alf::{RowNo, Rules, Stamp};
use alternatives::lists::Lists;
use alternatives::walking::longest;
use basics::Refusal;
use beginnings::times::{Dated, date, mark};
use judging::checks::{judge, lists_fit, rows_fit};
use judging::timed::{judge_timed, judge_timed_row};
use listed_acceptance::accepting::fits;
use matcher::scenes::Scene;
use matcher::tables::Total;
use matching_calls::matching::lists_are;
use queue_calls::pushing::{Pushing, judge_push, keeps, pushing_of, row_fits};
use timed_queue::queues::Queue;

// The answer of the alternatives at a row, the number tried, and the time where the match began.
pub fn match_row(
    rules: Rules,
    names: usize,
    n: usize,
    tree: &[u8],
    steps: &[u8],
    tests: &[u8],
    edges: &[u8],
    operands: &[u16],
    times: &[u64],
    states: &[u8],
    row: RowNo,
) -> Result<Dated, Refusal>
    ensures { ListedMatch rules names n tree.now steps.now tests.now
        edges.now operands.now states.now times.now row.0 result }
{
    let at = row.0 as usize;
    let fitting = lists_fit(names, n, times.len() == n, states.len());
    let good = fits(names, tree, steps, tests, edges, operands);
    judge_timed_row(fitting, good, states, times, n, at)?;
    let scene = Scene {
        rules,
        tree,
        names,
        states,
    };
    let lists = Lists {
        steps,
        tests,
        edges,
        operands,
    };
    let found = matcher::answers::match_row(&scene, &lists, at);
    Ok(date(times, steps, at, found))
}

// The same for all rows, by document 01's numbers, into lent lists; how many.
pub fn match_all(
    rules: Rules,
    names: usize,
    n: usize,
    tree: &[u8],
    steps: &[u8],
    tests: &[u8],
    edges: &[u8],
    operands: &[u16],
    times: &[u64],
    states: &[u8],
    answers: &mut [u8],
    tried: &mut [u32],
    given: &mut [u8],
    began: &mut [u64],
) -> Result<usize, Refusal>
    ensures { ListedAll rules names n tree.now steps.now tests.now
        edges.now operands.now states.now times.now
        answers.old tried.old given.old began.old
        answers.new tried.new given.new began.new result }
{
    let lent = lists_are(
        n,
        times.len(),
        answers.len(),
        tried.len(),
        given.len(),
        began.len(),
    );
    let fitting = lists_fit(names, n, lent, states.len());
    let good = fits(names, tree, steps, tests, edges, operands);
    judge_timed(fitting, good, states, times)?;
    let scene = Scene {
        rules,
        tree,
        names,
        states,
    };
    let lists = Lists {
        steps,
        tests,
        edges,
        operands,
    };
    block_answers::answers::match_all(&scene, &lists, n, answers, tried);
    mark(times, steps, n, answers, tried, given, began);
    Ok(n)
}

// How many of the rows answer yes, no and unknown.
pub fn totals(
    rules: Rules,
    names: usize,
    n: usize,
    tree: &[u8],
    steps: &[u8],
    tests: &[u8],
    edges: &[u8],
    operands: &[u16],
    states: &[u8],
) -> Result<Total, Refusal>
    ensures { ListedTotals rules names n tree.now steps.now tests.now
        edges.now operands.now states.now result }
{
    let fitting = rows_fit(names, n, states.len());
    let good = fits(names, tree, steps, tests, edges, operands);
    judge(fitting, good, states)?;
    let scene = Scene {
        rules,
        tree,
        names,
        states,
    };
    let lists = Lists {
        steps,
        tests,
        edges,
        operands,
    };
    Ok(block_totals::totals::totals(&scene, &lists, n))
}

// Whether the alternatives are accepted and the queue may be handed in with them, where there are at most 32 names.
fn queue_good(
    names: usize,
    tree: &[u8],
    steps: &[u8],
    tests: &[u8],
    edges: &[u8],
    operands: &[u16],
    queue: Queue,
) -> bool
    ensures { DecidesQueue names tree.now steps.now tests.now
        edges.now operands.now queue result }
{
    if 32 < names {
        return false;
    }
    if !fits(names, tree, steps, tests, edges, operands) {
        return false;
    }
    keeps(names, longest(steps) as usize, queue)
}

// One row more, with its time.
pub fn push(
    rules: Rules,
    names: usize,
    tree: &[u8],
    steps: &[u8],
    tests: &[u8],
    edges: &[u8],
    operands: &[u16],
    queue: Queue,
    time: Stamp,
    row: &[u8],
) -> Pushing
    ensures { ListedPush rules names tree.now steps.now tests.now
        edges.now operands.now queue time.0 row.now result.told result.queue }
{
    let fitting = row_fits(names, row.len());
    let good = queue_good(names, tree, steps, tests, edges, operands, queue);
    let v = judge_push(fitting, good, queue, time, row);
    match v {
        Err(r) => {
            let told = Err(r);
            Pushing { told, queue }
        }
        Ok(()) => {
            let lists = Lists {
                steps,
                tests,
                edges,
                operands,
            };
            pushing_of(timed_queue::queues::push(rules, tree, names, &lists, queue, time, row))
        }
    }
}
