// The answers of alternatives at the m rows of a block, from columns of 1,040 entries: the first event of each column
// leads to the row 15 rows before the block's first. `slots` tells the column of each test.
ghost use Rattle.blocks.specs.Meeting.{StepAsked, StepMet, AlternativeAsked, AlternativeMet};
ghost use Rattle.blocks.specs.Meeting.{TakeAsked, Taken, BlockAsked, BlockMatched};

use alternatives::lists::Lists;
use alternatives::walking::pass;
use columns::passes::{join, meet, put, try_open};

// The q tests from t on, on the events from entry d of their columns on: the least of what is there and their answers.
fn meet_step(slots: &[u8], t: usize, q: usize, cols: &[u8], d: usize, m: usize, acc: &mut [u8])
    requires { StepAsked slots.now t q cols.now d m acc.old }
    ensures { StepMet slots.now t q cols.now d m acc.old acc.new }
{
    for i in 0..q {
        let slot = slots[t + i] as usize;
        meet(acc, m, cols, slot * 1040 + d);
    }
}

// The alternative of n steps from step s on, whose tests start at t.
fn meet_steps(
    tests: &[u8],
    slots: &[u8],
    s: usize,
    n: usize,
    t: usize,
    cols: &[u8],
    m: usize,
    acc: &mut [u8],
)
    requires { AlternativeAsked tests.now slots.now s n t cols.now m acc.old }
    ensures { AlternativeMet tests.now slots.now s n t cols.now m
        acc.old acc.new }
{
    put(acc, m, 2);
    let mut at = t;
    for j in 0..n {
        let q = tests[s + j] as usize;
        meet_step(slots, at, q, cols, 16 - n + j, m, acc);
        at += q;
    }
}

// One more alternative, with its answers at m rows: it is tried where no yes came before it, and the best answers take
// it in.
fn take(m: usize, acc: &[u8], best: &mut [u8], tries: &mut [u8])
    requires { TakeAsked m acc.now best.old tries.old }
    ensures { Taken m acc.now best.old tries.old best.new
        tries.new }
{
    try_open(tries, m, best);
    join(best, m, acc);
}

// All alternatives: the best of their answers, and how many are tried. Both lists have zeros at first.
pub fn match_block(
    lists: &Lists,
    slots: &[u8],
    cols: &[u8],
    m: usize,
    acc: &mut [u8],
    best: &mut [u8],
    tries: &mut [u8],
)
    requires { BlockAsked lists.now.steps.now lists.now.tests.now slots.now cols.now m acc.old best.old tries.old }
    ensures { BlockMatched lists.now.steps.now lists.now.tests.now slots.now cols.now m
        best.new tries.new }
{
    let mut s: usize = 0;
    let mut t: usize = 0;
    for k in 0..lists.steps.len() {
        let n = lists.steps[k] as usize;
        meet_steps(lists.tests, slots, s, n, t, cols, m, acc);
        take(m, acc, best, tries);
        t = pass(lists.tests, s, n, t);
        s += n;
    }
}
