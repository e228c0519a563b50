// A text with what its tree is written as, or with its refusal. A text of over 64 bytes is shown by its length.
use alf::Sort;
use basics::Refusal;
use reader::read_expression;
use run_printing::printing::{character, refused, write};
use run_printing::texts::say_text;
use states::rules::old_rules;
use std::io::Stdout;
use text_parts::parts::front;
use writer::write_expression;

pub fn say_sort(to: Stdout, sort: Sort) {
    match sort {
        Sort::Boolean => write(to, b"boolean"),
        Sort::Vector => write(to, b"vector"),
    }
}

fn say_refusal(to: Stdout, word: &[u8], r: Refusal) {
    refused(to, word, r);
    character(to, b'\n');
}

// What was written for a text.
fn say_written(to: Stdout, text: &[u8], written: &[u8]) {
    write(to, b"  = ");
    if written.len() > 64 && check::same(text, written) {
        write(to, b"the same ");
    }
    say_text(to, written);
    character(to, b'\n');
}

fn say_outcome(to: Stdout, text: &[u8], out: &[u8; 4096], r: Result<usize, Refusal>) {
    match r {
        Err(f) => say_refusal(to, b"  not written: ", f),
        Ok(n) => say_written(to, text, front(out, n)),
    }
}

// A tree, written into so much room.
fn write_in(
    names: &[u8],
    tree: &[u8],
    sort: Sort,
    out: &mut [u8],
    room: usize,
) -> Result<usize, Refusal> {
    if room < out.len() {
        write_expression(names, tree, sort, &mut out[..room])
    } else {
        write_expression(names, tree, sort, out)
    }
}

fn write_room(
    names: &[u8],
    tree: &[u8],
    sort: Sort,
    out: &mut [u8; 4096],
    room: usize,
) -> Result<usize, Refusal> {
    write_in(names, tree, sort, out, room)
}

pub fn show_tree(to: Stdout, names: &[u8], text: &[u8], tree: &[u8], sort: Sort, room: usize) {
    let mut out = [0u8; 4096];
    let r = write_room(names, tree, sort, &mut out, room);
    say_outcome(to, text, &out, r);
}

// What a text is read as over a list of names, or its refusal.
pub fn show(to: Stdout, names: &[u8], text: &[u8], sort: Sort) {
    match read_expression(old_rules(), names, text, sort) {
        Ok(read) => {
            let tree = read.tree;
            show_tree(to, names, text, front(&tree, read.len), sort, 4096);
        }
        Err(refusal) => say_refusal(to, b"  refused ", refusal),
    }
}
