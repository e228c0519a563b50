// The patterns of a text, one a line: blank lines are skipped, and a CR before a line's end is none of it.
use crate::accounts::pattern;
use alf::Rules;
use console::output::Console;
use table_lines::lines::Sums;
use text_parts::lines::{Lines, is_blank, kept};

// A line; a blank one is none.
fn line(
    console: &Console,
    rules: Rules,
    names: &[u8],
    n: usize,
    states: &[u8],
    text: &[u8],
    s: Sums,
) -> Sums {
    if is_blank(text) {
        return s;
    }
    pattern(console, rules, names, n, states, kept(text), s)
}

// All lines of a text, while somebody reads what is said of them.
pub fn lines(
    console: &Console,
    rules: Rules,
    names: &[u8],
    n: usize,
    states: &[u8],
    text: &[u8],
    s: Sums,
) -> Sums {
    let mut sums = s;
    for text in Lines(text) {
        if console.is_unread() {
            return sums;
        }
        sums = line(console, rules, names, n, states, text, sums);
    }
    sums
}
