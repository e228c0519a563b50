// What a call checks first that is handed a trace in lists: 18, 12, then 13 and 15 row by row.
ghost use Rattle.std.specs.Prelude.{◌≡◌, ◌<◌, length};
ghost use Rattle.alf.specs.Refusals.{Comes};
ghost use Rattle.basics.specs.Deciding.{Decides};
ghost use Rattle.trace_writer.specs.Writing.{AllLists, rows_order, ChecksLists, ChecksTrace};
ghost use Rattle.trace_writer.specs.Putting.{Later, SomeRows};

use basics::Refusal;
use basics::refusing::refuse;
use names::check_names;
use trace_format::parts::codes_to;

// Whether there are 1 to 32 slots, and lists of exactly n entries.
fn lists_fit(names: &[u8], times: &[u64], states: &[u8], n: usize) -> bool
    ensures { Decides result (AllLists names.now times.now states.now n) }
{
    let k = names.len() / 32;
    if names.len() % 32 != 0 {
        return false;
    }
    if k == 0 {
        return false;
    }
    if 32 < k {
        return false;
    }
    if n == 0 {
        return false;
    }
    if 65535 < n {
        return false;
    }
    if times.len() != n {
        return false;
    }
    if states.len() != n * k {
        return false;
    }
    true
}

// Whether the time of row r is above the last row's.
fn is_later(times: &[u64], r: usize) -> bool
    requires { r < length times.now }
    ensures { Decides result (Later times.now r) }
{
    if r == 0 {
        return true;
    }
    if times[r - 1] < times[r] {
        return true;
    }
    false
}

// Some of the rows of k codes, from row `first` on, one by one: 13, then 15; done, k.
pub fn check_rows(
    k: usize,
    times: &[u64],
    states: &[u8],
    first: usize,
    many: usize,
) -> Result<usize, Refusal>
    requires { SomeRows k times.now states.now first many }
    ensures { Comes (rows_order k times.now states.now first many) (λ m. m ≡ k) result }
{
    let mut from = first * k;
    for i in 0..many {
        let r = first + i;
        if !is_later(times, r) {
            return refuse(13, r);
        }
        let to = from + k;
        let bad = codes_to(states, from, to);
        if bad < to {
            return refuse(15, bad);
        }
        from = to;
    }
    Ok(k)
}

// The lists as they are lent: 18, 12; done, how many names.
pub fn check_lists(names: &[u8], times: &[u64], states: &[u8], n: usize) -> Result<usize, Refusal>
    ensures { ChecksLists names.now times.now states.now n result }
{
    if !lists_fit(names, times, states, n) {
        return refuse(18, 0);
    }
    check_names(names)
}

// A trace in lists: names in slots, n times, and states row by row; done, how many names.
pub fn check_trace(names: &[u8], times: &[u64], states: &[u8], n: usize) -> Result<usize, Refusal>
    ensures { ChecksTrace names.now times.now states.now n result }
{
    let k = check_lists(names, times, states, n)?;
    check_rows(k, times, states, 0, n)
}
