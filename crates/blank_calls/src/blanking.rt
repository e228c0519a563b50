// A trace with every pin overwritten by X that a table does not keep.
ghost use Rattle.std.specs.Prelude.{◌≡◌, ◌+◌, ◌≤◌, length};
ghost use Rattle.blank_calls.specs.Blanking.{state_kept, BlanksRow, RowsAsked, BlanksRows, Blanks};

use basics::Refusal;
use basics::refusing::refuse;
use judging::checks::{judge_codes, lists_fit};

// The state of a pin that is kept; X for another.
fn state_kept(kept: u8, state: u8) -> u8
    ensures { result ≡ state_kept kept state }
{
    if kept == 0 {
        return 2;
    }
    state
}

// The row whose states start at a place.
fn blank_row(states: &mut [u8], at: usize, kept: &[u8])
    requires { at + length kept.now ≤ length states.old }
    ensures { BlanksRow states.old at kept.now states.new }
{
    for i in 0..kept.len() {
        let state = states[at + i];
        states[at + i] = state_kept(kept[i], state);
    }
}

// All n rows.
fn blank_rows(n: usize, states: &mut [u8], kept: &[u8])
    requires { RowsAsked n states.old kept.now }
    ensures { BlanksRows n states.old kept.now states.new }
{
    let mut at: usize = 0;
    for r in 0..n {
        blank_row(states, at, kept);
        at += kept.len();
    }
}

// The trace of so many names and n rows, in which every pin is X that the table does not keep; n. Refused: 18, 15.
pub fn blank(names: usize, n: usize, states: &mut [u8], kept: &[u8]) -> Result<usize, Refusal>
    ensures { Blanks names n states.old kept.now states.new result }
{
    let fits = lists_fit(names, n, kept.len() == names, states.len());
    if !fits {
        return refuse(18, 0);
    }
    judge_codes(states)?;
    blank_rows(n, states, kept);
    Ok(n)
}
