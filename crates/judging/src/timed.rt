// The checks of the calls that take the times of the rows (document 02, [12]): 18, 10, 15, 13, 19, in this order.
ghost use Rattle.std.specs.Prelude.{◌≡◌};
ghost use Rattle.alf.specs.Refusals.{Rising};
ghost use Rattle.judging.specs.Orders.{Judged};
ghost use Rattle.judging.specs.TimedOrders.{FirstEarly, rises, JudgesTimed, JudgesTimedRow};
ghost use Rattle.judging.specs.TimedOrders.{ChecksTimed, ChecksTimedRow};

use crate::checks::{judge, judge_place, lists_fit};
use acceptance::accepting::accepts;
use alf::{Rules, Sort};
use basics::Refusal;
use basics::refusing::refusal_of;

// The first row whose time is not above the last row's, or the number of rows.
pub fn first_early(times: &[u64]) -> usize
    ensures { FirstEarly times.now result }
{
    for i in 1..times.len() {
        if times[i] <= times[i - 1] {
            return i;
        }
    }
    times.len()
}

// 13.
pub fn judge_times(times: &[u64]) -> Result<(), Refusal>
    ensures { Judged (rises times.now) (Rising times.now) result }
{
    let early = first_early(times);
    if early < times.len() {
        return Err(refusal_of(13, early));
    }
    Ok(())
}

// 18 where the lists do not fit, 10 where what is handed in is not good, 15, 13.
pub fn judge_timed(fits: bool, good: bool, states: &[u8], times: &[u64]) -> Result<(), Refusal>
    ensures { JudgesTimed fits good states.now times.now result }
{
    judge(fits, good, states)?;
    judge_times(times)
}

// The same, and 19.
pub fn judge_timed_row(
    fits: bool,
    good: bool,
    states: &[u8],
    times: &[u64],
    n: usize,
    row: usize,
) -> Result<(), Refusal>
    ensures { JudgesTimedRow fits good states.now times.now n row result }
{
    judge_timed(fits, good, states, times)?;
    judge_place(n, row)
}

// A vector expression's tree and all rows of a trace, with `lent` that every list is of n entries, the times too.
pub fn check_timed(
    rules: Rules,
    names: usize,
    n: usize,
    lent: bool,
    tree: &[u8],
    times: &[u64],
    states: &[u8],
) -> Result<(), Refusal>
    ensures { ChecksTimed rules names n lent tree.now times.now
        states.now result }
{
    let fits = lists_fit(names, n, lent, states.len());
    let good = accepts(rules, tree, names, Sort::Vector);
    judge_timed(fits, good, states, times)
}

// A vector expression's tree and a row of a trace.
pub fn check_timed_row(
    rules: Rules,
    names: usize,
    n: usize,
    tree: &[u8],
    times: &[u64],
    states: &[u8],
    row: usize,
) -> Result<(), Refusal>
    ensures { ChecksTimedRow rules names n tree.now times.now
        states.now row result }
{
    let fits = lists_fit(names, n, times.len() == n, states.len());
    let good = accepts(rules, tree, names, Sort::Vector);
    judge_timed_row(fits, good, states, times, n, row)
}
