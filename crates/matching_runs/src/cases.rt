// A line's case: its expression, as a text or as a tree, and the calls that its kind names. A line of no kind is
// printed behind a `?`.
use alf::{Rules, Sort};
use basics::Refusal;
use reader::{Read, read_expression};
use run_calls::clocks::is_behind;
use run_lists::lend;
use run_printing::printing::{broken, character, refusal, write};
use run_routes::{push_in, queue_in, row_in, rows_in, totals_in, zeros_in};
use run_values::lend_out;
use run_words::words::{list_in, number_in};
use states::rules::old_rules;
use std::io::Stdout;
use text_parts::lines::Lines;
use text_parts::parts::{front, parts_from};

// A vector expression: as written from word 4 on, by alternatives row by row and all rows, by the queue; the totals.
fn show_vector(to: Stdout, rules: Rules, line: &[u8], tree: &[u8]) {
    write(to, b"\n written");
    rows_in(to, rules, b'w', line, tree, number_in(line, 4));
    write(to, b" row");
    rows_in(to, rules, b'r', line, tree, 0);
    lend(to, rules, b'v', line, tree);
    write(to, b" queue");
    queue_in(to, rules, line, tree);
    totals_in(to, rules, line, tree);
    character(to, b'\n');
}

// A boolean expression: all values, then row by row, then the states.
fn show_boolean(to: Stdout, rules: Rules, line: &[u8], tree: &[u8]) {
    character(to, b'\n');
    lend_out(to, rules, b'b', line, tree);
    write(to, b" value");
    rows_in(to, rules, b'v', line, tree, 0);
    write(to, b" state");
    rows_in(to, rules, b's', line, tree, 0);
}

// Two calls at a row.
fn show_row(to: Stdout, rules: Rules, line: &[u8], tree: &[u8], first: u8, second: u8) {
    character(to, b'\n');
    row_in(to, rules, first, line, tree);
    row_in(to, rules, second, line, tree);
}

fn show_vector_calls(to: Stdout, rules: Rules, line: &[u8], tree: &[u8]) {
    show_row(to, rules, line, tree, b'w', b'r');
    lend(to, rules, b'V', line, tree);
}

fn show_boolean_calls(to: Stdout, rules: Rules, line: &[u8], tree: &[u8]) {
    show_row(to, rules, line, tree, b's', b'v');
    lend_out(to, rules, b'B', line, tree);
}

fn show_case(to: Stdout, rules: Rules, kind: u8, line: &[u8], tree: &[u8]) {
    match kind {
        b'v' => show_vector(to, rules, line, tree),
        b'b' => show_boolean(to, rules, line, tree),
        b'c' => lend(to, rules, b'c', line, tree),
        b'T' => zeros_in(to, rules, line, tree),
        b'V' => show_vector_calls(to, rules, line, tree),
        b'B' => show_boolean_calls(to, rules, line, tree),
        b'P' => push_in(to, rules, line, tree),
        _ => broken(to, line),
    }
}

fn show_read(to: Stdout, rules: Rules, kind: u8, line: &[u8], tree: &[u8; 256], len: usize) {
    show_case(to, rules, kind, line, front(tree, len));
}

// A text over the names A, B, C.
fn read(rules: Rules, text: &[u8], sort: Sort) -> Result<Read, Refusal> {
    let mut names = [0u8; 96];
    names[0] = b'A';
    names[32] = b'B';
    names[64] = b'C';
    read_expression(rules, &names, text, sort)
}

fn sort_of(kind: u8) -> Sort {
    if kind == b'b' {
        return Sort::Boolean;
    }
    Sort::Vector
}

// An expression as a text.
fn show_text(to: Stdout, rules: Rules, kind: u8, line: &[u8], text: &[u8]) {
    match read(rules, text, sort_of(kind)) {
        Ok(read) => {
            let tree = read.tree;
            show_read(to, rules, kind, line, &tree, read.len);
        }
        Err(r) => {
            character(to, b'\n');
            refusal(to, r);
            character(to, b'\n');
        }
    }
}

// What stands from word 9 on is printed: a text, from which the tree is read, or a label, where word 8 is the tree. For
// the totals it is the number of rows.
fn show_rest(to: Stdout, rules: Rules, kind: u8, line: &[u8], rest: &[u8]) {
    write(to, rest);
    match kind {
        b'a'..=b'z' => show_text(to, rules, kind, line, rest),
        _ => show_case(to, rules, kind, line, list_in(line, 8)),
    }
}

// A kind may stand behind a mark.
fn kind_of(line: &[u8]) -> u8 {
    if line.len() < 2 {
        return b'#';
    }
    match line[0] {
        b'=' | b'~' | b'-' | b'+' => line[1],
        _ => line[0],
    }
}

// A line that is empty or starts with `#` is a remark. Behind `=` a case is under the rule of equal branches, behind
// `~` its pins are steady; `-` and `+` are marks of its times.
fn show_line(to: Stdout, line: &[u8]) {
    let kind = kind_of(line);
    if kind == b'#' {
        return;
    }
    let mut rules = old_rules();
    rules.equal_branches = is_behind(line, b'=');
    rules.steady_pins = is_behind(line, b'~');
    show_rest(to, rules, kind, line, parts_from(line, 9, b' '));
}

// Each line of the input.
pub fn show_lines(to: Stdout, input: &[u8]) {
    for line in Lines(input) {
        show_line(to, line);
    }
}
