// What is told of the pins: a line `kept` with the names of those that are kept, and a line `blanked` with the others.
// A tab stands before each name. Where the trace goes to standard output, the lines go to standard error.
use console::output::{Console, note, say};
use loading::arguments::arg;
use names::name_len;
use std::rt::Env;
use text_parts::parts::front;

fn tell(console: &Console, aside: bool, text: &[u8]) {
    if aside {
        note(console, text);
    } else {
        say(console, text);
    }
}

fn tell_name(console: &Console, aside: bool, slot: &[u8]) {
    tell(console, aside, b"\t");
    tell(console, aside, front(slot, name_len(slot)));
}

// The pins whose entries are 0, or the others.
fn tell_names(console: &Console, aside: bool, names: &[u8], kept: &[u8], zero: bool) {
    for (slot, entry) in names.chunks_exact(32).zip(kept) {
        if (*entry == 0) == zero {
            tell_name(console, aside, slot);
        }
    }
}

fn tell_line(console: &Console, aside: bool, word: &[u8], names: &[u8], kept: &[u8], zero: bool) {
    tell(console, aside, word);
    tell_names(console, aside, names, kept, zero);
    tell(console, aside, b"\n");
}

// Whether an argument is `-`.
fn is_dash<R: Env>(rt: &R, i: usize) -> bool {
    let mut word = [0u8; 4096];
    let n = arg(rt, i, &mut word);
    &word[..n] == b"-".as_slice()
}

// Argument `out` names the file of the trace.
pub fn tell_pins<R: Env>(rt: &R, console: &Console, out: usize, names: &[u8], kept: &[u8]) {
    let aside = is_dash(rt, out);
    tell_line(console, aside, b"kept", names, kept, false);
    tell_line(console, aside, b"blanked", names, kept, true);
}
