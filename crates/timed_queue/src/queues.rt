// The queue with times: each push answers for the row pushed, and tells the time where its match began.
// The last K rows are kept, and the time of each beside its states.
ghost use Rattle.std.specs.Prelude.{◌≡◌, replicate};
ghost use Rattle.alternatives.specs.Listed.{alternatives_listed};
ghost use Rattle.queue.specs.Queues.{PushAskedOn};
ghost use Rattle.timed_queue.specs.TimedQueues.{Pushes};

use crate::stamps::{keep, lay};
use alf::{Rules, Stamp};
use alternatives::lists::Lists;
use alternatives::walking::longest;
use beginnings::times::{Dated, date};
use matcher::answers::Matched;

// The rows kept, and the time of each, oldest first, zeros behind.
#[derive(Clone, Copy)]
pub struct Queue {
    pub rows: queue::queues::Queue,
    pub times: [u64; 16],
}

// What a push comes to.
#[derive(Clone, Copy)]
pub struct Pushed {
    pub told: Dated,
    pub queue: Queue,
}

// A queue before the first push.
pub fn empty() -> Queue
    ensures { (result.rows.kept.0 ≡ 0) × (result.rows.states ≡ replicate 512 0) × (result.times ≡ replicate 16 0) }
{
    let rows = queue::queues::empty();
    Queue {
        rows,
        times: [0u64; 16],
    }
}

// One row more, with its time.
pub fn push(
    rules: Rules,
    tree: &[u8],
    names: usize,
    lists: &Lists,
    queue: Queue,
    time: Stamp,
    row: &[u8],
) -> Pushed
    requires { PushAskedOn tree.now names lists.now queue.rows
        row.now }
    ensures { Pushes rules names (alternatives_listed tree.now names lists.now) queue time.0 row.now result.told.answer
        result.told.tries result.told.began result.queue }
{
    let rows = queue.rows;
    let held = queue.times;
    let kept = rows.kept;
    let at = kept.0 as usize;
    let all = lay(held, at, time);
    let pushed = queue::queues::push(rules, tree, names, lists, rows, row);
    let answer = pushed.answer;
    let tries = pushed.tries;
    let found = Matched { answer, tries };
    let end = at + 1;
    let told = date(&all[..end], lists.steps, at, found);
    let times = keep(&all[..end], at, longest(lists.steps) as usize);
    let next = pushed.queue;
    Pushed {
        told,
        queue: Queue { rows: next, times },
    }
}
