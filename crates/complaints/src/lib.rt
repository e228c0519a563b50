// What the program complains of, in plain words: refusals with their number and place, and words that it does not
// know. It is proved to be safe and to end; no contract can say what is written. A refusal in one of many lines is in
// `in_lines`.
#![tactic(auto)]

pub mod in_lines;

use basics::Refusal;
use console::output::{Console, complain, note, note_number};
use text_parts::parts::part;

// What a number of document 01's table says; line 0 is for a number that is none of them.
fn reason(console: &Console, number: u8) {
    let words = b"refused
text over 4,096 bytes
these bytes form no token
brackets open more than 32 deep
more than 256 tokens
no expression goes on like this
this name is not in the trace
an operator gets an operand of the wrong sort, or the whole is of the wrong sort
over 64 alternatives, 16 steps, or 64 tests in one alternative
no room for what is to be written
no text gives this
another mark is due here, or too many names or rows
a name is empty, too long, no name, or a repeat
a time is not above the last row's
the file ends too early
no such state
the count of rows is wrong
bytes after the end
lists that do not fit each other, or too few or too many names or rows
no such row
";
    let line = if number < 20 { number } else { 0 };
    note(console, part(words, line as usize, b'\n'));
}

fn begin_refused(console: &Console, what: &[u8]) {
    complain(console);
    note(console, what);
    note(console, b" refused: ");
}

fn end_refused(console: &Console, r: Refusal) {
    note(console, b" (");
    note_number(console, r.number as usize);
    note(console, b" at ");
    note_number(console, r.place);
    note(console, b")\n");
}

// A complaint in one line: what was refused, why, and its number and place.
pub fn refused(console: &Console, what: &[u8], r: Refusal) {
    begin_refused(console, what);
    reason(console, r.number);
    end_refused(console, r);
}

// The same with a reason of its own.
pub fn refused_for(console: &Console, what: &[u8], why: &[u8], r: Refusal) {
    begin_refused(console, what);
    note(console, why);
    end_refused(console, r);
}

fn note_byte(console: &Console, b: u8) {
    note(console, &[b]);
}

// A byte in a line: a control byte is a space, but for a tab where tabs stay.
fn note_shown(console: &Console, b: u8, tabs: bool) {
    let stays = b' ' <= b || tabs && b == b'\t';
    note_byte(console, if stays { b } else { b' ' });
}

// Below a byte: a tab below a tab, and nothing below a byte that goes on a character; else the mark.
fn note_below(console: &Console, b: u8, mark: u8) {
    match b {
        b'\t' => note_byte(console, b),
        128..=191 => {}
        _ => note_byte(console, mark),
    }
}

// A text in one line.
fn note_text(console: &Console, text: &[u8], tabs: bool) {
    for b in text {
        note_shown(console, *b, tabs);
    }
}

// The same mark below each character of a text.
fn mark_below(console: &Console, text: &[u8], mark: u8) {
    for b in text {
        note_below(console, *b, mark);
    }
}

// Below the bytes refused, the first of which has its caret already.
fn mark_rest(console: &Console, behind: &[u8], extent: usize) {
    if let Some(rest) = behind.get(1..extent) {
        mark_below(console, rest, b'~');
    }
}

// A caret below a byte of the text, or behind its end, and the bytes refused underlined.
fn note_caret(console: &Console, text: &[u8], place: usize, extent: usize) {
    if let Some((before, behind)) = text.split_at_checked(place) {
        mark_below(console, before, b' ');
        note(console, b"^");
        mark_rest(console, behind, extent);
    }
}

// A text, and below it what is refused.
fn note_marked(console: &Console, text: &[u8], place: usize, extent: usize) {
    note(console, b"  ");
    note_text(console, text, true);
    note(console, b"\n  ");
    note_caret(console, text, place, extent);
    note(console, b"\n");
}

// A text's refusal, with the text and what is refused underlined, where a line can hold it.
pub fn refused_text(console: &Console, what: &[u8], text: &[u8], r: Refusal) {
    refused(console, what, r);
    if text.len() <= 4096 {
        note_marked(console, text, r.place, r.extent);
    }
}

fn see_help(console: &Console) {
    note(console, b"; dachsmond --help says what there is\n");
}

// A word that is no command.
pub fn unknown(console: &Console, word: &[u8]) {
    complain(console);
    note(console, b"no such command: ");
    note_text(console, word, false);
    see_help(console);
}

// A command with other words than it expects.
pub fn unfit(console: &Console, name: &[u8], expected: &[u8]) {
    complain(console);
    note(console, name);
    note(console, b": expects ");
    note(console, expected);
    see_help(console);
}
