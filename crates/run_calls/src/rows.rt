// Calls at a row, at all rows one by one, and the totals.
use crate::answers::{counting, matching, told};
use alf::{RowNo, Rules};
use matching_calls::matching::{match_row, totals};
use row_calls::written::{row_answer, row_state, row_value};
use run_printing::states::state;
use run_words::lists::narrow;
use std::io::Stdout;

// At a row: the answer as written, by alternatives, the value, the state.
pub fn at_row(
    to: Stdout,
    rules: Rules,
    call: u8,
    names: usize,
    n: usize,
    tree: &[u8],
    times: &[u64],
    states: &[u8],
    row: RowNo,
) {
    match call {
        b'w' => told(to, row_answer(rules, names, n, tree, states, row)),
        b'r' => matching(to, match_row(rules, names, n, tree, times, states, row)),
        b'v' => state(to, row_value(rules, names, n, tree, states, row)),
        _ => state(to, row_state(rules, names, n, tree, states, row)),
    }
}

// The same at rows `from` to n-1.
pub fn at_rows(
    to: Stdout,
    rules: Rules,
    call: u8,
    names: usize,
    n: usize,
    tree: &[u8],
    times: &[u64],
    states: &[u8],
    from: usize,
) {
    for i in from..n {
        at_row(
            to,
            rules,
            call,
            names,
            n,
            tree,
            times,
            states,
            RowNo(narrow(i)),
        );
    }
}

// The totals on the first n of some rows of one name.
pub fn totals_first(to: Stdout, rules: Rules, n: usize, tree: &[u8], rows: &[u8]) {
    if n <= rows.len() {
        counting(to, totals(rules, 1, n, tree, &rows[0..n]));
    }
}
