// Lines of the input: a kind, a blank, a text, and behind a blank and `#` the reason for what is expected. The kinds:
// `b` and `v` for a text that is read as a boolean or a vector, `s` for a list of so many bytes, `t` for a list of
// three names and a text, `B` and `V` for a tree and the room to write it in.
use crate::name_lists::list_of;
use crate::shown::{say_sort, show, show_tree};
use alf::Sort;
use run_printing::printing::{broken, character, write};
use run_printing::states::list;
use run_printing::texts::{quote, say_text};
use run_words::pieces::expand;
use run_words::words::number_from;
use std::io::Stdout;
use text_parts::lines::Lines;
use text_parts::parts::{find, front};

fn sort_of(kind: u8) -> Sort {
    match kind {
        b'v' | b'V' => Sort::Vector,
        _ => Sort::Boolean,
    }
}

// A text over the first n bytes of a list.
fn show_over(to: Stdout, words: &[u8], n: usize, text: &[u8], sort: Sort) {
    let names = list_of(words);
    if n <= 1056 {
        show(to, &names[0..n], text, sort);
    }
}

// A text over the usual names.
fn show_usual(to: Stdout, usual: &[u8], text: &[u8], sort: Sort) {
    say_sort(to, sort);
    write(to, b": ");
    say_text(to, text);
    character(to, b'\n');
    show_over(to, usual, 288, text, sort);
}

// A list of so many bytes as the text's number says; behind `;` its names.
fn show_sized(to: Stdout, size: &[u8], words: &[u8]) {
    write(to, b"list: ");
    write(to, size);
    character(to, b'\n');
    show_over(to, words, number_from(size, 0), b"A", Sort::Boolean);
}

// A list of three names, and behind `; text: ` a text.
fn show_three(to: Stdout, whole: &[u8], words: &[u8], text: &[u8]) {
    write(to, b"list: ");
    quote(to, whole);
    character(to, b'\n');
    show_over(to, words, 96, text, Sort::Boolean);
}

fn write_over(to: Stdout, usual: &[u8], tree: &[u8], sort: Sort, room: usize) {
    let names = list_of(usual);
    show_tree(to, &names[0..288], b"", tree, sort, room);
}

// A tree over the usual names, and behind `; room ` the room to write it in.
fn show_nodes(to: Stdout, usual: &[u8], tree: &[u8], room: &[u8], sort: Sort) {
    say_sort(to, sort);
    list(to, b" tree:", tree, tree.len(), false);
    write(to, room);
    character(to, b'\n');
    write_over(to, usual, tree, sort, number_from(room, 0));
}

// The part from `at` on; nothing where the text ends before.
fn from(text: &[u8], at: usize) -> &[u8] {
    text.get(at..).unwrap_or(b"")
}

// A text by its kind; `at` is where `;` stands, or the length.
fn show_parts(to: Stdout, kind: u8, usual: &[u8], text: &[u8], at: usize) {
    if at > text.len() {
        return;
    }
    let first = &text[0..at];
    match kind {
        b'b' | b'v' => show_usual(to, usual, text, sort_of(kind)),
        b's' => show_sized(to, first, from(text, at + 2)),
        b't' => show_three(to, text, first, from(text, at + 8)),
        b'B' | b'V' => show_nodes(to, usual, first, from(text, at), sort_of(kind)),
        _ => broken(to, text),
    }
}

fn fill(out: &mut [u8; 4200], text: &[u8]) -> usize {
    expand(out, text)
}

fn show_filled(to: Stdout, kind: u8, usual: &[u8], text: &[u8; 4200], n: usize) {
    let whole = front(text, n);
    show_parts(to, kind, usual, whole, find(whole, 0, b';'));
}

fn show_expanded(to: Stdout, kind: u8, usual: &[u8], text: &[u8]) {
    let mut out = [0u8; 4200];
    let n = fill(&mut out, text);
    show_filled(to, kind, usual, &out, n);
}

// A line's text: from behind the kind to the blank before `#`. A line that is empty or starts with `#` is a remark.
fn show_line(to: Stdout, usual: &[u8], line: &[u8]) {
    if line.len() == 0 {
        return;
    }
    let hash = find(line, 0, b'#');
    if hash == 0 {
        return;
    }
    if hash < 3 {
        return broken(to, line);
    }
    if hash == line.len() {
        return broken(to, line);
    }
    let end = hash - 1;
    show_expanded(to, line[0], usual, &line[2..end]);
}

// The usual names, behind the `# ` of the first line.
fn usual_in(input: &[u8]) -> &[u8] {
    let line = Lines(input).next().unwrap_or(b"");
    line.get(2..).unwrap_or(line)
}

pub fn show_lines(to: Stdout, input: &[u8]) {
    let usual = usual_in(input);
    for line in Lines(input) {
        show_line(to, usual, line);
    }
}
