// The queue: one row more, its answer, the number tried and the time where its match began; the last K rows are kept,
// with their times.
ghost use Rattle.std.specs.Prelude.{◌≡◌, ◌≤◌};
ghost use Rattle.basics.specs.Deciding.{Decides};
ghost use Rattle.alf.specs.Alternatives.{steps_of};
ghost use Rattle.alf.specs.declared.Sort.TheVariants.{Vector};
ghost use Rattle.acceptance.specs.Accepted.{Accepted};
ghost use Rattle.matching_calls.specs.Matching.{expression};
ghost use Rattle.alf.specs.Refusals.{Rising};
ghost use Rattle.judging.specs.Orders.{Judged};
ghost use Rattle.timed_queue.specs.TimedQueues.{held_times};
ghost use Rattle.queue_calls.specs.Pushing.{RowFits, Small, KeepsRows, Keeps, last_time, Early, late};
ghost use Rattle.queue_calls.specs.Pushing.{DecidesQueue, JudgesPush, TreePush, PushesTree, Push};

use acceptance::accepting::accepts;
use acceptance::sizes::measure;
use alf::{Rules, Sort, Stamp};
use basics::Refusal;
use basics::refusing::refusal_of;
use beginnings::times::Dated;
use judging::checks::judge;
use judging::timed::first_early;
use rewriting::lists::alternatives_of;
use states::codes::first_bad_code;
use timed_queue::queues::{Pushed, Queue};

// What a push comes to, and the queue then; refused, it is the queue that was handed in.
#[derive(Clone, Copy)]
pub struct Pushing {
    pub told: Result<Dated, Refusal>,
    pub queue: Queue,
}

// Whether there are 1 to 32 names, and a state for each.
pub fn row_fits(names: usize, row: usize) -> bool
    ensures { Decides result (RowFits names row) }
{
    if names == 0 {
        return false;
    }
    if 32 < names {
        return false;
    }
    row == names
}

// Whether the rows kept are at most k, k at most 16, and hold codes of states only.
fn rows_good(names: usize, k: usize, queue: queue::queues::Queue) -> bool
    requires { Small names k }
    ensures { Decides result (KeepsRows names k queue) }
{
    let kept = queue.kept;
    let rows = kept.0 as usize;
    if k < rows {
        return false;
    }
    let end = rows * names;
    let states = queue.states;
    first_bad_code(&states[..end]) == end
}

// Whether the times of at most 16 rows rise.
fn times_good(queue: Queue) -> bool
    requires { queue.rows.kept.0 ≤ 16 }
    ensures { Decides result (Rising (held_times queue)) }
{
    let rows = queue.rows;
    let kept = rows.kept;
    let end = kept.0 as usize;
    let times = queue.times;
    first_early(&times[..end]) == end
}

// Whether the queue keeps at most k rows, k at most 16, codes of states only, and times that rise.
pub fn keeps(names: usize, k: usize, queue: Queue) -> bool
    requires { Small names k }
    ensures { Decides result (Keeps names k queue) }
{
    let rows = queue.rows;
    if !rows_good(names, k, rows) {
        return false;
    }
    times_good(queue)
}

// K: the steps of the longest alternative of an accepted tree.
fn steps_of(rules: Rules, names: usize, tree: &[u8]) -> usize
    requires { Accepted rules names Vector tree.now }
    ensures { result ≡ steps_of (expression rules tree.now names) }
{
    let size = measure(rules, tree, tree.len(), names);
    match size {
        None => 0,
        Some(s) => s.steps,
    }
}

// Whether the tree is accepted and the queue may be handed in with it, where there are at most 32 names.
fn queue_good(rules: Rules, names: usize, tree: &[u8], queue: Queue) -> bool
    ensures { DecidesQueue rules names tree.now queue result }
{
    if 32 < names {
        return false;
    }
    if !accepts(rules, tree, names, Sort::Vector) {
        return false;
    }
    keeps(names, steps_of(rules, names, tree), queue)
}

// The time of the last row kept.
fn last_time(queue: Queue) -> u64
    ensures { result ≡ last_time queue }
{
    let rows = queue.rows;
    let kept = rows.kept;
    let end = kept.0 as usize;
    let times = queue.times;
    if end == 0 {
        return times[0];
    }
    if 16 < end {
        return 0;
    }
    times[end - 1]
}

// 13 of the new row.
fn judge_time(queue: Queue, time: Stamp) -> Result<(), Refusal>
    ensures { Judged (late queue time.0) (Early queue time.0 → ⊥) result }
{
    let rows = queue.rows;
    let kept = rows.kept;
    if kept.0 == 0 {
        return Ok(());
    }
    if time.0 <= last_time(queue) {
        return Err(refusal_of(13, 0));
    }
    Ok(())
}

// 18 where the row does not fit, 10 where what is handed in is not good, 15, 13.
pub fn judge_push(
    fits: bool,
    good: bool,
    queue: Queue,
    time: Stamp,
    row: &[u8],
) -> Result<(), Refusal>
    ensures { JudgesPush fits good queue time.0 row.now result }
{
    judge(fits, good, row)?;
    judge_time(queue, time)
}

// An accepted tree, a queue and a row that fit.
fn push_tree(
    rules: Rules,
    names: usize,
    tree: &[u8],
    queue: Queue,
    time: Stamp,
    row: &[u8],
) -> Pushed
    requires { TreePush rules names tree.now queue row.now }
    ensures { PushesTree rules names tree.now queue time.0 row.now result.told.answer
        result.told.tries result.told.began result.queue }
{
    let a = alternatives_of(rules, tree, names);
    let lists = a.lists();
    timed_queue::queues::push(rules, tree, names, &lists, queue, time, row)
}

// What a push comes to, as it is told.
pub fn pushing_of(p: Pushed) -> Pushing
    ensures { (result.told ≡ Ok p.told) × (result.queue ≡ p.queue) }
{
    let found = p.told;
    let queue = p.queue;
    let told = Ok(found);
    Pushing { told, queue }
}

// One row more for a vector expression, with its time.
pub fn push(
    rules: Rules,
    names: usize,
    tree: &[u8],
    queue: Queue,
    time: Stamp,
    row: &[u8],
) -> Pushing
    ensures { Push rules names tree.now queue time.0 row.now result.told result.queue }
{
    let fits = row_fits(names, row.len());
    let good = queue_good(rules, names, tree, queue);
    let v = judge_push(fits, good, queue, time, row);
    match v {
        Err(r) => {
            let told = Err(r);
            Pushing { told, queue }
        }
        Ok(()) => pushing_of(push_tree(rules, names, tree, queue, time, row)),
    }
}
