// The changes of a row as a call: the set of changed variables and how many they are, or refused with 18, 15, 19.
#![tactic(auto)]

ghost use Rattle.basics.specs.Deciding.{Decides};
ghost use Rattle.changes.specs.Call.{Lists, Inside, RowSet, RowChanged};

use alf::RowNo;
use basics::Refusal;
use basics::refusing::refuse;
use states::changes::{Changes, changes_of};
use states::codes::first_bad_code;

// Whether there are 1 to 32 names, 1 to 65,535 rows, and a state for each name of each row.
fn lists_fit(names: usize, n: usize, len: usize) -> bool
    ensures { Decides result (Lists names n len) }
{
    if names == 0 {
        return false;
    }
    if 32 < names {
        return false;
    }
    if n == 0 {
        return false;
    }
    if 65535 < n {
        return false;
    }
    if len != n * names {
        return false;
    }
    true
}

// The changes of a row of the trace; row 0 has none.
pub fn of_row(names: usize, states: &[u8], row: usize) -> Changes
    requires { Inside names states.now row }
    ensures { RowSet names states.now row result.mask result.many }
{
    if row == 0 {
        return Changes { mask: 0, many: 0 };
    }
    let at = row * names;
    let from = at - names;
    let end = at + names;
    changes_of(&states[from..at], &states[at..end])
}

// Bit i of the mask says whether name i changed at the row.
pub fn changes_at(names: usize, n: usize, states: &[u8], row: RowNo) -> Result<Changes, Refusal>
    ensures { RowChanged names n states.now row.0 result }
{
    let at = row.0 as usize;
    if !lists_fit(names, n, states.len()) {
        return refuse(18, 0);
    }
    let bad = first_bad_code(states);
    if bad < states.len() {
        return refuse(15, bad);
    }
    if n <= at {
        return refuse(19, 0);
    }
    Ok(of_row(names, states, at))
}
