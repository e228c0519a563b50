// A refusal of a text that has many lines: why, which line it is and which byte of the line, then that line with a
// caret.
use basics::Refusal;
use console::output::{Console, note, note_number};

// What a number says of a text. Numbers 11 and 14 have words of their own, since a text has no marks and is made of
// lines.
fn reason_in_line(console: &Console, number: u8) {
    match number {
        11 => note(
            console,
            b"`time`, a time or the line's end is due here, or this is one name or row too many",
        ),
        14 => note(console, b"the line or the text ends too early"),
        _ => crate::reason(console, number),
    }
}

// The number and the place, and where that is: lines are counted from 1, and bytes of a line from 0.
fn note_spot(console: &Console, number: usize, at: usize, r: Refusal) {
    note(console, b" (");
    note_number(console, r.number as usize);
    note(console, b" at ");
    note_number(console, r.place);
    note(console, b": line ");
    note_number(console, number);
    note(console, b", byte ");
    note_number(console, at);
    note(console, b" in it)\n");
}

// What was refused in line `number` of it, at byte `at` of the line; the line itself, where it is not too long to show.
pub fn refused_in_line(
    console: &Console,
    what: &[u8],
    number: usize,
    line: &[u8],
    at: usize,
    r: Refusal,
) {
    crate::begin_refused(console, what);
    reason_in_line(console, r.number);
    note_spot(console, number, at, r);
    if line.len() <= 4096 {
        crate::note_marked(console, line, at, 0);
    }
}
