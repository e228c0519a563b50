// The queue: rows come one after the other; each push answers for the row pushed, and the last K rows are kept.
ghost use Rattle.std.specs.Prelude.{◌≡◌, ◌*◌, ◌≤◌, length, replicate};
ghost use Rattle.alternatives.specs.Listed.{alternatives_listed};
ghost use Rattle.basics.specs.Memory.{placed};
ghost use Rattle.queue.specs.Queues.{LayAsked, KeepAsked, Keeps, PushAskedOn, Pushes, held_of, stored};

use alf::{Answer, RowNo, Rules};
use alternatives::lists::Lists;
use alternatives::walking::longest;
use basics::puts::put;
use matcher::answers::match_row;
use matcher::scenes::Scene;

// The rows kept, at most 16 of at most 32 names, oldest first; `kept` is how many they are, which is the row number of
// the next row in what is kept.
#[derive(Clone, Copy)]
pub struct Queue {
    pub kept: RowNo,
    pub states: [u8; 512],
}

// What a push comes to.
#[derive(Clone, Copy)]
pub struct Pushed {
    pub answer: Answer,
    pub tries: u32,
    pub queue: Queue,
}

// A queue before the first push.
pub fn empty() -> Queue
    ensures { (result.kept.0 ≡ 0) × (result.states ≡ replicate 512 0) }
{
    Queue {
        kept: RowNo(0),
        states: [0u8; 512],
    }
}

// States as a queue holds them: zeros behind.
fn store(part: &[u8]) -> [u8; 512]
    requires { length part.now ≤ 512 }
    ensures { result ≡ stored part.now }
{
    let mut states = [0u8; 512];
    put(part, &mut states, 0);
    states
}

// What is kept, and a row behind it.
fn lay(queue: Queue, names: usize, row: &[u8]) -> [u8; 544]
    requires { LayAsked names queue row.now }
    ensures { result ≡ placed (placed (replicate 544 0) 0 (held_of names queue)) (queue.kept.0 * names)
        row.now }
{
    let mut work = [0u8; 544];
    let kept = queue.kept;
    let held = queue.states;
    let end = kept.0 as usize * names;
    put(&held[..end], &mut work, 0);
    put(row, &mut work, end);
    work
}

// The last k of kept + 1 rows.
fn keep(trace: &[u8], names: usize, kept: usize, k: usize) -> Queue
    requires { KeepAsked trace.now names kept k }
    ensures { Keeps trace.now names kept k result }
{
    if kept < k {
        let states = store(trace);
        return Queue {
            kept: RowNo((kept + 1) as u32),
            states,
        };
    }
    let states = store(&trace[names..]);
    Queue {
        kept: RowNo(kept as u32),
        states,
    }
}

// One row more.
pub fn push(
    rules: Rules,
    tree: &[u8],
    names: usize,
    lists: &Lists,
    queue: Queue,
    row: &[u8],
) -> Pushed
    requires { PushAskedOn tree.now names lists.now queue row.now }
    ensures { Pushes rules names (alternatives_listed tree.now names lists.now) queue row.now result.answer
        result.tries result.queue }
{
    let kept = queue.kept;
    let at = kept.0 as usize;
    let end = at * names + names;
    let work = lay(queue, names, row);
    let scene = Scene {
        rules,
        tree,
        names,
        states: &work[..end],
    };
    let m = match_row(&scene, lists, at);
    let next = keep(&work[..end], names, at, longest(lists.steps) as usize);
    let answer = m.answer;
    let tries = m.tries;
    Pushed {
        answer,
        tries,
        queue: next,
    }
}
