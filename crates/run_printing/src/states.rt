// States by their letters, and lists.
use crate::printing::{character, number, refusal, small, wide, write};
use basics::Refusal;
use std::io::Stdout;

// The letter or digit of a state, and of any other byte 0.
fn letter_of(code: u8) -> u8 {
    match code {
        1 => b'1',
        2 => b'X',
        3 => b'H',
        4 => b'L',
        5 => b'W',
        6 => b'Z',
        7 => b'U',
        _ => b'0',
    }
}

// A state by its letter; a byte that is no state as a number.
pub fn letter(to: Stdout, code: u8) {
    if code < 8 {
        character(to, letter_of(code));
    } else {
        number(to, small(code));
    }
}

// An entry of a list of states, or of another list.
pub fn entry(to: Stdout, code: u8, states: bool) {
    character(to, b' ');
    if states {
        letter(to, code);
    } else {
        number(to, small(code));
    }
}

// A word and the first entries of a list, which are states or numbers.
pub fn list(to: Stdout, word: &[u8], entries: &[u8], count: usize, states: bool) {
    write(to, word);
    for code in entries.iter().take(count) {
        entry(to, *code, states);
    }
}

// The first numbers tried.
pub fn list_tried(to: Stdout, entries: &[u32], count: usize) {
    write(to, b" tried");
    for n in entries.iter().take(count) {
        character(to, b' ');
        number(to, wide(*n));
    }
}

// A state that is answered.
pub fn state(to: Stdout, r: Result<usize, Refusal>) {
    match r {
        Ok(n) => {
            if n < 8 {
                entry(to, n as u8, true);
            }
        }
        Err(f) => refusal(to, f),
    }
}
