// The calls that write no list, as a line of `matching_runs` asks for them: at a row, at all rows one by one, by the
// queue, the totals, a push. Words 1 to 5 of a line are the names, the rows, the states, the row and the new row; the
// times of the rows are those of `run_calls`. All are proved to be safe and to end.
#![tactic(auto)]

use alf::{RowNo, Rules};
use matching_calls::matching::totals;
use run_calls::answers::counting;
use run_calls::clocks::{count_of, is_behind, times_of};
use run_calls::queues::{by_push, by_queue};
use run_calls::rows::{at_row, at_rows, totals_first};
use run_printing::printing::character;
use run_words::lists::narrow;
use run_words::words::{list_in, number_in};
use std::io::Stdout;

// At the row of a line.
pub fn row_in(to: Stdout, rules: Rules, call: u8, line: &[u8], tree: &[u8]) {
    let names = number_in(line, 1);
    let n = number_in(line, 2);
    let row = narrow(number_in(line, 4));
    let times = times_of(is_behind(line, b'-'));
    let c = count_of(line, n);
    at_row(
        to,
        rules,
        call,
        names,
        n,
        tree,
        &times[0..c],
        list_in(line, 3),
        RowNo(row),
    );
    character(to, b',');
}

// At the rows of a line from a row on.
pub fn rows_in(to: Stdout, rules: Rules, call: u8, line: &[u8], tree: &[u8], from: usize) {
    let names = number_in(line, 1);
    let n = number_in(line, 2);
    let times = times_of(is_behind(line, b'-'));
    let c = count_of(line, n);
    at_rows(
        to,
        rules,
        call,
        names,
        n,
        tree,
        &times[0..c],
        list_in(line, 3),
        from,
    );
    character(to, b'\n');
}

pub fn queue_in(to: Stdout, rules: Rules, line: &[u8], tree: &[u8]) {
    let early = is_behind(line, b'-');
    by_queue(to, rules, number_in(line, 1), tree, early, list_in(line, 3));
    character(to, b'\n');
}

// The totals.
pub fn totals_in(to: Stdout, rules: Rules, line: &[u8], tree: &[u8]) {
    let names = number_in(line, 1);
    let n = number_in(line, 2);
    counting(to, totals(rules, names, n, tree, list_in(line, 3)));
}

// The totals on so many rows of a name that is 0.
pub fn zeros_in(to: Stdout, rules: Rules, line: &[u8], tree: &[u8]) {
    let zeros = [0u8; 65536];
    totals_first(to, rules, number_in(line, 2), tree, &zeros);
    character(to, b'\n');
}

// A push of the new row onto a queue that keeps so many rows as word 2 says, and whose first state is that of word 3.
pub fn push_in(to: Stdout, rules: Rules, line: &[u8], tree: &[u8]) {
    let names = number_in(line, 1);
    let kept = narrow(number_in(line, 2));
    character(to, b':');
    by_push(
        to,
        rules,
        names,
        tree,
        is_behind(line, b'-'),
        kept,
        list_in(line, 3).first().copied().unwrap_or(0),
        list_in(line, 5),
    );
}
