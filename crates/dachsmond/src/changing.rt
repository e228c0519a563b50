// A row corrected and a row pushed, for C.
ghost use Rattle.std.specs.Prelude.{◌≡◌, replicate};
ghost use Rattle.update_calls.specs.Correcting.{Correction};
ghost use Rattle.telling.specs.Handing.{Hands, told};
ghost use Rattle.telling.specs.Matching.{queue_of_lem, Pushes, told_push};

use alf::{RowNo, Rules, Stamp};
use queue_calls::pushing::push;
use telling::matching::{queue_of, tell_push};
use telling::outcomes::tell;
use telling::{Pushed, Queue, Told};
use update_calls::correcting::correct;

// The new states become a row of the trace, and the answers that can depend on it are written anew.
pub fn dachsmond_correct(
    rules: Rules,
    names: usize,
    n: usize,
    tree: &[u8],
    states: &mut [u8],
    answers: &mut [u8],
    row: u32,
    new: &[u8],
) -> Told
    ensures { Hands (Correction rules names n tree.now states.old
        answers.old row
        new.now states.new answers.new) told result }
{
    tell(correct(rules, names, n, tree, states, answers, RowNo(row), new))
}

// A queue before the first push.
pub fn dachsmond_empty_queue() -> Queue
    ensures { (result.kept ≡ 0) × (result.states ≡ replicate 512 0) × (result.times ≡ replicate 16 0) }
{
    let states = [0u8; 512];
    let times = [0u64; 16];
    Queue {
        kept: 0,
        states,
        times,
    }
}

// One row more, with its time: its answer, the number tried, the time where its match began, and the queue then.
pub fn dachsmond_push(
    rules: Rules,
    names: usize,
    tree: &[u8],
    queue: Queue,
    time: u64,
    row: &[u8],
) -> Pushed
    ensures { Hands (Pushes rules names tree.now (queue_of_lem queue) time
        row.now) told_push result }
{
    let old = queue_of(queue);
    let p = push(rules, names, tree, old, Stamp(time), row);
    tell_push(p)
}
