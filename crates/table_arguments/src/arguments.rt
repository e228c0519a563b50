// The command's words: patterns, and behind `-f` files of patterns. On a terminal it is told how far long work is.
use alf::Rules;
use complaints::unfit;
use console::output::{Console, note, note_number};
use loading::arguments::{arg, take_argument};
use loading::patterns::fill_patterns;
use pattern_lines::accounts::pattern;
use pattern_lines::patterns::lines;
use std::io::IsTerminal;
use std::rt::{Env, Files};
use table_lines::lines::Sums;
use text_parts::parts::front;

// The patterns of a file; one that is not read to its end is not used at all.
fn file_lines<R: Files + Input>(
    rt: &R,
    console: &Console,
    rules: Rules,
    names: &[u8],
    n: usize,
    states: &[u8],
    path: &[u8],
    data: &mut [u8],
    s: Sums,
) -> Sums {
    match fill_patterns(rt, console, path, data) {
        None => s,
        Some(m) => lines(console, rules, names, n, states, front(data, m), s),
    }
}

fn file<R: Files + Input>(
    rt: &R,
    console: &Console,
    rules: Rules,
    names: &[u8],
    n: usize,
    states: &[u8],
    path: &[u8],
    s: Sums,
) -> Sums {
    let mut data = [0u8; 1048577];
    file_lines(
        rt,
        console,
        rules,
        names,
        n,
        states,
        path,
        data.as_mut_slice(),
        s,
    )
}

// Argument i: a pattern; behind `-f` a file of patterns.
fn argument<R: Env + Files + Input>(
    rt: &R,
    console: &Console,
    rules: Rules,
    names: &[u8],
    n: usize,
    states: &[u8],
    i: usize,
    behind: bool,
    s: Sums,
) -> Sums {
    let mut text = [0u8; 65536];
    let m = take_argument(rt, i, &mut text);
    if behind {
        return file(rt, console, rules, names, n, states, &text[..m], s);
    }
    pattern(console, rules, names, n, states, &text[..m], s)
}

// Whether argument i is `-f`; behind `-f` it is a file.
fn is_option<R: Env>(rt: &R, i: usize, behind: bool) -> bool {
    if behind {
        return false;
    }
    let mut word = [0u8; 4];
    let n = arg(rt, i, &mut word);
    &word[..n] == b"-f".as_slice()
}

// Whether it is told how far long work is: on a terminal, and where the table's lines go elsewhere.
fn is_watched(console: &Console, n: usize) -> bool {
    10000 <= n && !console.out().is_terminal() && console.err().is_terminal()
}

fn progress(console: &Console, i: usize, count: usize, n: usize) {
    if i < count && is_watched(console, n) {
        note(console, b"\rargument ");
        note_number(console, i);
        note(console, b" of ");
        note_number(console, count - 1);
        note(console, b"\r");
    }
}

// The last argument was `-f` where `behind`.
fn finish(console: &Console, behind: bool, n: usize) {
    if is_watched(console, n) {
        note(console, b"\r                              \r");
    }
    if behind {
        unfit(console, b"table: -f", b"FILE");
    }
}

// All patterns of the command's words, from argument `first` on, while somebody reads what is said of them.
pub fn arguments<R: Env + Files + Input>(
    rt: &R,
    console: &Console,
    rules: Rules,
    first: usize,
    names: &[u8],
    n: usize,
    states: &[u8],
    count: usize,
    s: Sums,
) -> Sums {
    let mut sums = s;
    let mut behind = false;
    for i in first..count {
        if console.is_unread() {
            return sums;
        }
        progress(console, i, count, n);
        let option = is_option(rt, i, behind);
        if !option {
            sums = argument(rt, console, rules, names, n, states, i, behind, sums);
        }
        behind = option;
    }
    finish(console, behind, n);
    sums
}
