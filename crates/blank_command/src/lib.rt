// The command `blank`: the trace with every pin overwritten by X that no pattern names and no word keeps, written
// whole or not at all. Which pins a text names, and the overwritten trace, are made by calls of the library; that the
// table of these patterns is the same on it is a theorem (blanking/proofs/BlankedTables). The words of the command are
// in `kept_words`. Here is what is told of the pins.
#![tactic(auto)]

mod pins;

use crate::pins::tell_pins;
use alf::Rules;
use basics::Refusal;
use blank_calls::blanking::blank as overwrite;
use complaints::refused;
use console::output::Console;
use kept_words::words::keep_words;
use std::rt::{Env, Files};
use trace_saving::write_to;

// What came of it: the pins are told and the trace is written, or it is said why not.
fn finish<R: Env + Files>(
    rt: &R,
    console: &Console,
    out: usize,
    names: &[u8],
    times: &[u64],
    states: &[u8],
    kept: &[u8],
    o: Result<usize, Refusal>,
) {
    match o {
        Ok(_) => {
            tell_pins(rt, console, out, names, kept);
            write_to(rt, console, out, names, times, states);
        }
        Err(r) => refused(console, b"trace", r),
    }
}

// Nothing is written if something was complained of.
fn blank_by<R: Env + Files + Input>(
    rt: &R,
    console: &Console,
    rules: Rules,
    out: usize,
    names: &[u8],
    times: &[u64],
    states: &mut [u8],
    kept: &mut [u8],
) {
    if keep_words(rt, console, rules, out, names, kept) {
        let o = overwrite(names.len() / 32, times.len(), states, kept);
        finish(rt, console, out, names, times, states, kept, o);
    }
}

// Argument `out` names the file to write, and the words behind it are patterns, `-f` FILE, and `--keep` PIN... The
// table of the pins has an entry for each name.
pub fn blank<R: Env + Files + Input>(
    rt: &R,
    console: &Console,
    rules: Rules,
    out: usize,
    names: &[u8],
    times: &[u64],
    states: &mut [u8],
) {
    let mut kept = [0u8; 32];
    if let Some(kept) = kept.get_mut(..names.len() / 32) {
        blank_by(rt, console, rules, out, names, times, states, kept);
    }
}
