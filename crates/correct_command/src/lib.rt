// The command `correct`: the trace with one row's states replaced, written whole or not at all. The row is stored and
// the file is made by calls of the library.
#![tactic(auto)]

use alf::RowNo;
use basics::Refusal;
use complaints::{refused, refused_for};
use console::output::Console;
use letter_corrections::correcting::{correct_letters, row_number};
use loading::arguments::arg;
use std::rt::{Env, Files};
use trace_saving::write_to;

// The row that an argument names; one that is no row of any trace, where it names none.
fn asked_row<R: Env>(rt: &R) -> RowNo {
    let mut word = [0u8; 4096];
    let n = arg(rt, 3, &mut word);
    let r = row_number(&word[..n]);
    RowNo(r.min(65536) as u32)
}

// What came of it: the corrected trace is written, or it is said why not.
fn finish<R: Env + Files>(
    rt: &R,
    console: &Console,
    names: &[u8],
    times: &[u64],
    states: &[u8],
    o: Result<usize, Refusal>,
) {
    match o {
        Ok(_) => write_to(rt, console, 5, names, times, states),
        Err(r) => complain_of(console, r),
    }
}

fn complain_of(console: &Console, r: Refusal) {
    if r.number == 18 {
        refused_for(
            console,
            b"row",
            b"a state for each name of the trace is wanted",
            r,
        );
        return;
    }
    refused(console, b"row", r);
}

pub fn correct<R: Env + Files>(
    rt: &R,
    console: &Console,
    names: &[u8],
    times: &[u64],
    states: &mut [u8],
) {
    let mut word = [0u8; 4096];
    let n = arg(rt, 4, &mut word);
    let row = asked_row(rt);
    let o = correct_letters(names.len() / 32, times.len(), states, row, &word[..n]);
    finish(rt, console, names, times, states, o);
}
