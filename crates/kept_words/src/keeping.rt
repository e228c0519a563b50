// The pins of a pattern, of a pin's own name, and of a file of patterns, kept; whether nothing was complained of.
use alf::{Rules, Sort};
use basics::Refusal;
use basics::refusing::refusal_of;
use complaints::refused_text;
use console::output::Console;
use kept_texts::keeping::keep_text;
use loading::patterns::fill_patterns;
use names::is_name;
use std::rt::Files;
use text_parts::lines::{Lines, is_blank, kept as kept_bytes};
use text_parts::parts::front;

// A text that is refused is complained of as `table` does it.
fn is_done(console: &Console, what: &[u8], text: &[u8], o: Result<usize, Refusal>) -> bool {
    match o {
        Ok(_) => true,
        Err(r) => {
            refused_text(console, what, text, r);
            false
        }
    }
}

pub fn keep_pattern(
    console: &Console,
    rules: Rules,
    names: &[u8],
    text: &[u8],
    kept: &mut [u8],
) -> bool {
    let o = keep_text(rules, names, text, Sort::Vector, kept);
    is_done(console, b"pattern", text, o)
}

// A pin by its name: a boolean expression that is this name and nothing else.
pub fn keep_pin(
    console: &Console,
    rules: Rules,
    names: &[u8],
    word: &[u8],
    kept: &mut [u8],
) -> bool {
    if !is_name(word) {
        refused_text(console, b"pin", word, refusal_of(12, 0));
        return false;
    }
    let o = keep_text(rules, names, word, Sort::Boolean, kept);
    is_done(console, b"pin", word, o)
}

// A line; a blank one is none.
fn keep_line(console: &Console, rules: Rules, names: &[u8], text: &[u8], kept: &mut [u8]) -> bool {
    if is_blank(text) {
        return true;
    }
    keep_pattern(console, rules, names, kept_bytes(text), kept)
}

// All lines of a text, while somebody reads what is said of them.
fn keep_lines(console: &Console, rules: Rules, names: &[u8], text: &[u8], kept: &mut [u8]) -> bool {
    let mut good = true;
    for line in Lines(text) {
        if console.is_unread() {
            return false;
        }
        good &= keep_line(console, rules, names, line, kept);
    }
    good
}

fn keep_filled<R: Files + Input>(
    rt: &R,
    console: &Console,
    rules: Rules,
    names: &[u8],
    path: &[u8],
    data: &mut [u8],
    kept: &mut [u8],
) -> bool {
    match fill_patterns(rt, console, path, data) {
        None => false,
        Some(m) => keep_lines(console, rules, names, front(data, m), kept),
    }
}

// The patterns of a file, one a line. The room is one byte more than a file may have.
pub fn keep_file<R: Files + Input>(
    rt: &R,
    console: &Console,
    rules: Rules,
    names: &[u8],
    path: &[u8],
    kept: &mut [u8],
) -> bool {
    let mut data = [0u8; 1048577];
    keep_filled(rt, console, rules, names, path, data.as_mut_slice(), kept)
}
