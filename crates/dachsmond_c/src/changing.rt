// A row corrected and a row pushed, for C.
ghost use Rattle.std.specs.Prelude.{◌≡◌, replicate};
ghost use Rattle.update_calls.specs.Correcting.{Correction};
ghost use Rattle.telling.specs.Handing.{Hands, told};
ghost use Rattle.telling.specs.Matching.{queue_of_lem, Pushes, told_push};

use alf::Rules;
use telling::{Pushed, Queue, Told};

// The new states become a row of the trace, and the answers that can depend on it are written anew.
#[unsafe(no_mangle)]
pub extern "C" fn dachsmond_correct(
    rules: Rules,
    names: usize,
    n: usize,
    tree: &[u8],
    states: &mut [u8],
    answers: &mut [u8],
    row: u32,
    new: &[u8],
) -> Told
    ensures { Hands (Correction rules names n tree.now states.old
        answers.old row
        new.now states.new answers.new) told result }
{
    dachsmond::changing::dachsmond_correct(rules, names, n, tree, states, answers, row, new)
}

// A queue before the first push.
#[unsafe(no_mangle)]
pub extern "C" fn dachsmond_empty_queue() -> Queue
    ensures { (result.kept ≡ 0) × (result.states ≡ replicate 512 0) × (result.times ≡ replicate 16 0) }
{
    dachsmond::changing::dachsmond_empty_queue()
}

// One row more, with its time: its answer, the number tried, the time where its match began, and the queue then.
#[unsafe(no_mangle)]
pub extern "C" fn dachsmond_push(
    rules: Rules,
    names: usize,
    tree: &[u8],
    queue: Queue,
    time: u64,
    row: &[u8],
) -> Pushed
    ensures { Hands (Pushes rules names tree.now (queue_of_lem queue) time
        row.now) told_push result }
{
    dachsmond::changing::dachsmond_push(rules, names, tree, queue, time, row)
}
