// An expression over a report: the times that 000 states, and those at which it is true, by windows and by
// alternatives.
ghost use Rattle.std.specs.Prelude.{◌≤◌};

use crate::reports::{names_of, read, rows_of, size_of, states_of, time_of, times_of};
use alf::{Answer, RowNo, Rules};
use basics::Refusal;
use matcher::tables::number_of;
use matching_calls::matching::match_all;
use row_calls::written::row_answer;
use run_printing::printing::{broken, character, number, refusal, write};
use run_words::lists::zeros;
use states::rules::old_rules;
use std::io::Stdout;
use text_parts::lines::Lines;
use text_parts::parts::{front, part};

// The time of a row that answers yes, or with a `?` one that answers unknown; whether it or one before is one of these.
fn say_row(to: Stdout, some: bool, time: usize, answer: u8) -> bool {
    if answer != 1 && answer != 2 {
        return some;
    }
    character(to, b' ');
    number(to, time);
    if answer == 2 {
        character(to, b'?');
    }
    true
}

fn say_told(to: Stdout, some: bool, time: usize, told: Result<Answer, Refusal>) -> bool {
    match told {
        Ok(a) => say_row(to, some, time, number_of(a)),
        Err(r) => {
            refusal(to, r);
            true
        }
    }
}

fn say_none(to: Stdout, some: bool) {
    if !some {
        write(to, b" none");
    }
}

// The times at which an expression is true as it is written: on a window that ends there.
fn windows(to: Stdout, rules: Rules, report: &[u8], n: usize, tree: &[u8], states: &[u8])
    requires { n ≤ 12 }
{
    let names = names_of(report);
    let mut some = false;
    for i in 0..n {
        some = say_told(
            to,
            some,
            time_of(report, i),
            row_answer(rules, names, n, tree, states, RowNo(i as u32)),
        );
    }
    say_none(to, some);
}

// The times of the rows that are answered so.
fn say_times(to: Stdout, report: &[u8], n: usize, answers: &[u8; 64])
    requires { n ≤ 12 }
{
    let mut some = false;
    for i in 0..n {
        some = say_row(to, some, time_of(report, i), answers[i]);
    }
    say_none(to, some);
}

fn say_all(to: Stdout, report: &[u8], n: usize, r: Result<usize, Refusal>, answers: &[u8; 64])
    requires { n ≤ 12 }
{
    match r {
        Err(f) => refusal(to, f),
        Ok(_) => say_times(to, report, n, answers),
    }
}

// The same by its alternatives, all rows in one call.
fn alternatives(to: Stdout, rules: Rules, report: &[u8], n: usize, tree: &[u8], states: &[u8])
    requires { n ≤ 12 }
{
    let mut answers = zeros();
    let mut tried = [0u32; 64];
    let mut given = zeros();
    let mut began = [0u64; 64];
    let times = times_of(report);
    let r = match_all(
        rules,
        names_of(report),
        n,
        tree,
        &times[0..n],
        states,
        &mut answers[0..n],
        &mut tried[0..n],
        &mut given[0..n],
        &mut began[0..n],
    );
    say_all(to, report, n, r, &answers);
}

fn show_tree(to: Stdout, rules: Rules, report: &[u8], tree: &[u8]) {
    let states = states_of(report);
    let n = rows_of(report);
    let end = size_of(names_of(report), n);
    write(to, b"\n    windows:     ");
    windows(to, rules, report, n, tree, &states[0..end]);
    write(to, b"\n    alternatives:");
    alternatives(to, rules, report, n, tree, &states[0..end]);
}

fn show_read(to: Stdout, rules: Rules, report: &[u8], tree: &[u8; 256], len: usize) {
    show_tree(to, rules, report, front(tree, len));
}

fn show_text(to: Stdout, rules: Rules, report: &[u8], text: &[u8]) {
    match read(rules, report, text) {
        Ok(read) => {
            let tree = read.tree;
            show_read(to, rules, report, &tree, read.len);
        }
        Err(r) => refusal(to, r),
    }
}

fn steady_rules() -> Rules {
    let mut rules = old_rules();
    rules.steady_pins = true;
    rules
}

// A case: its parts are separated by `;`, the report, a label, an expression, and the times stated.
fn show_case(to: Stdout, report: &[u8], line: &[u8]) {
    write(to, part(line, 1, b';'));
    write(to, b": ");
    write(to, part(line, 2, b';'));
    write(to, b"\n  000:            ");
    write(to, part(line, 3, b';'));
    write(to, b"\n  pins free");
    show_text(to, old_rules(), report, part(line, 2, b';'));
    write(to, b"\n  pins steady");
    show_text(to, steady_rules(), report, part(line, 2, b';'));
    character(to, b'\n');
}

// A line that is empty or starts with `#` is a remark; one that starts with `=` is a report.
fn show_line(to: Stdout, input: &[u8], line: &[u8]) {
    if line.len() == 0 {
        return;
    }
    match line[0] {
        b'#' | b'=' => return,
        b'w' => show_case(to, part(input, 0, b'\n'), line),
        b'n' => show_case(to, part(input, 1, b'\n'), line),
        _ => broken(to, line),
    }
}

// Each line of the input, of which the first two are the reports.
pub fn show_lines(to: Stdout, input: &[u8]) {
    for line in Lines(input) {
        show_line(to, input, line);
    }
}
