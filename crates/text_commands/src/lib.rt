// The commands `list`, `values` and `rewrite`, which ask one text. Each text that is printed is made by a call of
// `row_listings`, `began_texts` or `alternative_listings`.
#![tactic(auto)]

use alf::Rules;
use alternative_listings::texts::alternatives_text;
use basics::Refusal;
use began_texts::listings::list_began_text;
use complaints::{refused, refused_text};
use console::output::{Console, complain, note, note_number, say_front};
use loading::arguments::take_argument;
use row_listings::listings::{list_text, values_text};
use std::rt::Env;

// What is asked of the text: its answers, its answers with where each match began, its values, or its alternatives.
#[derive(Clone, Copy, PartialEq, Eq)]
pub enum Question {
    List,
    Began,
    Values,
    Rewrite,
}

fn complain_of(console: &Console, what: &[u8], text: &[u8], r: Refusal) {
    if r.number < 9 {
        refused_text(console, what, text, r);
    } else {
        refused(console, what, r);
    }
}

fn complain_by(console: &Console, question: Question, text: &[u8], r: Refusal) {
    match question {
        Question::Values => complain_of(console, b"expression", text, r),
        _ => complain_of(console, b"pattern", text, r),
    }
}

// What was made is printed, or it is said why not: refusals up to 8 are the text's.
fn tell(console: &Console, question: Question, text: &[u8], out: &[u8], o: Result<usize, Refusal>) {
    match o {
        Ok(n) => say_front(console, out, n),
        Err(r) => complain_by(console, question, text, r),
    }
}

// How many tests are shown as `...`.
fn tell_untold(console: &Console, n: usize) {
    if 0 < n {
        complain(console);
        note(
            console,
            b"tests shown as ... since their text is over 4,096 bytes or 32 brackets deep: ",
        );
        note_number(console, n);
        note(console, b"\n");
    }
}

// A pattern's alternatives; tests that have no text are told of.
fn rewrite(
    console: &Console,
    rules: Rules,
    names: &[u8],
    text: &[u8],
    out: &mut [u8],
) -> Result<usize, Refusal> {
    let l = alternatives_text(rules, names, text, out);
    let written = l.written;
    tell_untold(console, l.untold);
    written
}

fn ask(
    console: &Console,
    rules: Rules,
    question: Question,
    names: &[u8],
    times: &[u64],
    states: &[u8],
    text: &[u8],
    out: &mut [u8],
) -> Result<usize, Refusal> {
    match question {
        Question::List => list_text(rules, names, times, states, text, out),
        Question::Began => list_began_text(rules, names, times, states, text, out),
        Question::Values => values_text(rules, names, times, states, text, out),
        Question::Rewrite => rewrite(console, rules, names, text, out),
    }
}

fn told(
    console: &Console,
    rules: Rules,
    question: Question,
    names: &[u8],
    times: &[u64],
    states: &[u8],
    text: &[u8],
    out: &mut [u8],
) {
    let o = ask(console, rules, question, names, times, states, text, out);
    tell(console, question, text, out, o);
}

// The text is argument `at`. There is room for the longest: alternatives of 16 steps, 64 of them, each step with all of
// a text.
pub fn answer<R: Env>(
    rt: &R,
    console: &Console,
    rules: Rules,
    at: usize,
    question: Question,
    names: &[u8],
    times: &[u64],
    states: &[u8],
) {
    let mut text = [0u8; 65536];
    let n = take_argument(rt, at, &mut text);
    let mut out = [0u8; 4600000];
    told(
        console,
        rules,
        question,
        names,
        times,
        states,
        &text[..n],
        out.as_mut_slice(),
    );
}
