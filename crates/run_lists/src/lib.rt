// The calls that write lists, as a line of `matching_runs` asks for them, and what they come to. The lists that are
// lent are copies of a line's. All are proved to be safe and to end.
#![tactic(auto)]

ghost use Rattle.std.specs.Prelude.{◌≤◌};

use alf::{RowNo, Rules};
use basics::Refusal;
use matching_calls::matching::match_all;
use run_calls::clocks::{count_of, is_behind, times_of};
use run_printing::printing::{character, number, outcome, write};
use run_printing::states::{list, list_tried};
use run_routes::totals_in;
use run_words::lists::{copy_of, least, narrow};
use run_words::words::{list_in, number_in};
use std::io::Stdout;
use update_calls::correcting::correct;

fn match_in(
    rules: Rules,
    line: &[u8],
    tree: &[u8],
    answers: &mut [u8],
    tried: &mut [u32],
    given: &mut [u8],
    began: &mut [u64],
) -> Result<usize, Refusal> {
    let n = number_in(line, 2);
    let times = times_of(is_behind(line, b'-'));
    let c = count_of(line, n);
    match_all(
        rules,
        number_in(line, 1),
        n,
        tree,
        &times[0..c],
        list_in(line, 3),
        answers,
        tried,
        given,
        began,
    )
}

// Word 4 is the row that is corrected, word 5 what it becomes.
fn correct_in(
    rules: Rules,
    line: &[u8],
    tree: &[u8],
    states: &mut [u8],
    answers: &mut [u8],
) -> Result<usize, Refusal> {
    let row = narrow(number_in(line, 4));
    let names = number_in(line, 1);
    let n = number_in(line, 2);
    correct(
        rules,
        names,
        n,
        tree,
        states,
        answers,
        RowNo(row),
        list_in(line, 5),
    )
}

// The row that is corrected, and what the correction comes to.
fn show_correction(to: Stdout, line: &[u8], c: Result<usize, Refusal>) {
    write(to, b", row ");
    number(to, number_in(line, 4));
    list(to, b" becomes", list_in(line, 5), 64, true);
    character(to, b'\n');
    outcome(to, c);
}

// All answers and the correction, with the totals in between.
fn show_both(
    to: Stdout,
    rules: Rules,
    line: &[u8],
    tree: &[u8],
    m: Result<usize, Refusal>,
    c: Result<usize, Refusal>,
) {
    outcome(to, m);
    character(to, b',');
    totals_in(to, rules, line, tree);
    character(to, b',');
    outcome(to, c);
}

// All answers, of a case by their numbers; the correction; the states afterwards.
fn show_outcomes(
    to: Stdout,
    rules: Rules,
    kind: u8,
    line: &[u8],
    tree: &[u8],
    m: Result<usize, Refusal>,
    c: Result<usize, Refusal>,
) {
    match kind {
        b'v' => write(to, b" all"),
        b'c' => show_correction(to, line, c),
        _ => show_both(to, rules, line, tree, m, c),
    }
}

// The states, and behind a word the answers.
fn show_two(to: Stdout, word: &[u8], states: &[u8; 64], s: usize, answers: &[u8; 64], a: usize) {
    list(to, b"\n states", states, s, true);
    list(to, word, answers, a, false);
}

// The lists afterwards.
fn show_lists(to: Stdout, kind: u8, states: &[u8; 64], s: usize, answers: &[u8; 64], a: usize) {
    match kind {
        b'v' => list(to, b"", answers, a, false),
        b'c' => show_two(to, b"\n answers", states, s, answers, a),
        _ => show_two(to, b" answers", states, s, answers, a),
    }
}

// A list as a call left it.
fn same(list: [u8; 64]) -> [u8; 64] {
    list
}

// The correction of the states, and of the answers as `match_all` left them, which came to m.
fn lend_behind(
    to: Stdout,
    rules: Rules,
    kind: u8,
    line: &[u8],
    tree: &[u8],
    m: Result<usize, Refusal>,
    given: [u8; 64],
    a: usize,
)
    requires { a ≤ 64 }
{
    let mut answers = same(given);
    let mut states = copy_of(list_in(line, 3));
    let s = least(list_in(line, 3).len());
    let c = correct_in(rules, line, tree, &mut states[0..s], &mut answers[0..a]);
    show_outcomes(to, rules, kind, line, tree, m, c);
    show_lists(to, kind, &states, s, &answers, a);
}

// All answers, and a correction. Words 3 and 6 are the states and the answers that are lent; word 7 says how many
// numbers tried are lent. There are as many flags as answers, and as many times as numbers tried. Of a case only one of
// the two calls is not refused: without a new row there is no correction, and with no number tried lent there are no
// answers.
pub fn lend(to: Stdout, rules: Rules, kind: u8, line: &[u8], tree: &[u8]) {
    let mut answers = copy_of(list_in(line, 6));
    let a = least(list_in(line, 6).len());
    let mut tried = [7u32; 64];
    let t = least(number_in(line, 7));
    let mut given = [7u8; 64];
    let mut began = [7u64; 64];
    let m = match_in(
        rules,
        line,
        tree,
        &mut answers[0..a],
        &mut tried[0..t],
        &mut given[0..a],
        &mut began[0..t],
    );
    lend_behind(to, rules, kind, line, tree, m, answers, a);
    show_tried(to, kind, &tried, t);
    show_began(to, kind, &given, a, &began, t);
}

// The numbers tried.
fn show_tried(to: Stdout, kind: u8, tried: &[u32; 64], t: usize) {
    if kind != b'c' {
        list_tried(to, tried, t);
    }
    character(to, b'\n');
}

// The first times where matches began.
fn list_began(to: Stdout, entries: &[u64], count: usize) {
    write(to, b" began");
    for time in entries.iter().take(count) {
        character(to, b' ');
        number(to, *time as usize);
    }
}

// Whether a time is given, and the times.
fn show_began(to: Stdout, kind: u8, given: &[u8; 64], a: usize, began: &[u64; 64], t: usize) {
    if kind == b'c' {
        return;
    }
    list(to, b" given", given, a, false);
    list_began(to, began, t);
    character(to, b'\n');
}
