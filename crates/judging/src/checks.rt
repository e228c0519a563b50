// What the calls over rows check before they do anything: 18, 10, 15, 19, in this order. Each check gives a verdict, and
// the first refusal is handed on.
ghost use Rattle.std.specs.Prelude.{true, ◌≡◌, ◌<◌};
ghost use Rattle.basics.specs.Deciding.{Decides};
ghost use Rattle.states.specs.FirstBadCode.{Codes};
ghost use Rattle.judging.specs.Orders.{Rows, test, codes, place, Judged, JudgesTrace, JudgesRow};
ghost use Rattle.judging.specs.Orders.{ChecksRow, ChecksRows};

use acceptance::accepting::accepts;
use alf::{Rules, Sort};
use basics::Refusal;
use basics::refusing::refusal_of;
use states::codes::first_bad_of_many;

// Refused with a number where a test fails.
fn judge_test(number: u8, good: bool) -> Result<(), Refusal>
    ensures { Judged (test number good) (good ≡ true) result }
{
    if !good {
        return Err(refusal_of(number, 0));
    }
    Ok(())
}

// 15.
pub fn judge_codes(states: &[u8]) -> Result<(), Refusal>
    ensures { Judged (codes states.now) (Codes states.now) result }
{
    let bad = first_bad_of_many(states);
    if bad < states.len() {
        return Err(refusal_of(15, bad));
    }
    Ok(())
}

// 19.
pub fn judge_place(n: usize, row: usize) -> Result<(), Refusal>
    ensures { Judged (place n row) (row < n) result }
{
    if n <= row {
        return Err(refusal_of(19, 0));
    }
    Ok(())
}

// Whether there are 1 to 32 names, 1 to 65,535 rows, and a state for each name of each row.
pub fn rows_fit(names: usize, n: usize, states: usize) -> bool
    ensures { Decides result (Rows names n states) }
{
    if names == 0 {
        return false;
    }
    if 32 < names {
        return false;
    }
    if n == 0 {
        return false;
    }
    if 65535 < n {
        return false;
    }
    if states != n * names {
        return false;
    }
    true
}

// The same, with `lent` that every list lent is of n entries.
pub fn lists_fit(names: usize, n: usize, lent: bool, states: usize) -> bool
    ensures { Decides result ((lent ≡ true) × Rows names n states) }
{
    if !lent {
        return false;
    }
    rows_fit(names, n, states)
}

// 18 where the lists do not fit, 10 where what is handed in is not good, 15.
pub fn judge(fits: bool, good: bool, states: &[u8]) -> Result<(), Refusal>
    ensures { JudgesTrace fits good states.now result }
{
    judge_test(18, fits)?;
    judge_test(10, good)?;
    judge_codes(states)
}

// The same, and 19.
pub fn judge_row(fits: bool, good: bool, states: &[u8], n: usize, row: usize) -> Result<(), Refusal>
    ensures { JudgesRow fits good states.now n row result }
{
    judge(fits, good, states)?;
    judge_place(n, row)
}

// A tree and a row of a trace.
pub fn check_row(
    rules: Rules,
    names: usize,
    n: usize,
    tree: &[u8],
    sort: Sort,
    states: &[u8],
    row: usize,
) -> Result<(), Refusal>
    ensures { ChecksRow rules names n tree.now sort states.now row result }
{
    let fits = rows_fit(names, n, states.len());
    let good = accepts(rules, tree, names, sort);
    judge_row(fits, good, states, n, row)
}

// A tree and all rows of a trace, with `lent` that every list lent is of n entries.
pub fn check_rows(
    rules: Rules,
    names: usize,
    n: usize,
    lent: bool,
    tree: &[u8],
    sort: Sort,
    states: &[u8],
) -> Result<(), Refusal>
    ensures { ChecksRows rules names n lent tree.now sort states.now result }
{
    let fits = lists_fit(names, n, lent, states.len());
    let good = accepts(rules, tree, names, sort);
    judge(fits, good, states)
}
