// The lines of the table: the heading, a pattern's line, made by a call of `jobs`, and the sums with it, the totals.
use alf::Rules;
use basics::Refusal;
use complaints::{refused, refused_text};
use console::output::{Console, complain, note, say_front};
use jobs::sums::add;
use jobs::table::table_line;
use matcher::tables::Total;
use table_lines::lines::{Sums, write_heading, write_total};

// What was written is said, or it is said why not.
fn deliver(console: &Console, out: &[u8], o: Result<usize, Refusal>) {
    match o {
        Ok(n) => say_front(console, out, n),
        Err(r) => refused(console, b"line", r),
    }
}

// The sums with a pattern's totals; where they are full, which no table of fewer than 2^48 patterns is, it is told.
fn grow(console: &Console, s: Sums, c: Result<Total, Refusal>) -> Sums {
    match add(s, c) {
        Some(t) => t,
        None => {
            complain(console);
            note(
                console,
                b"the sums are over 64 bits: this pattern is not in them\n",
            );
            s
        }
    }
}

// What was counted of a text: a refusal is complained of, totals go to the sums.
fn account(console: &Console, text: &[u8], c: Result<Total, Refusal>, s: Sums) -> Sums {
    match c {
        Ok(_) => grow(console, s, c),
        Err(r) => {
            refused_text(console, b"pattern", text, r);
            s
        }
    }
}

// A pattern's line. One that is refused spoils neither the others nor the table: its line says so.
fn say_line(
    console: &Console,
    rules: Rules,
    names: &[u8],
    n: usize,
    states: &[u8],
    text: &[u8],
    out: &mut [u8],
    s: Sums,
) -> Sums {
    let l = table_line(rules, names, n, states, text, out);
    let counted = l.counted;
    let written = l.written;
    deliver(console, out, written);
    account(console, text, counted, s)
}

// One pattern: its line, and the sums with it.
pub fn pattern(
    console: &Console,
    rules: Rules,
    names: &[u8],
    n: usize,
    states: &[u8],
    text: &[u8],
    s: Sums,
) -> Sums {
    let mut out = [0u8; 66048];
    say_line(
        console,
        rules,
        names,
        n,
        states,
        text,
        out.as_mut_slice(),
        s,
    )
}

// The first line of the table.
pub fn say_heading(console: &Console, out: &mut [u8]) {
    let o = write_heading(out);
    deliver(console, out, o);
}

// The last one, with the sums.
pub fn say_total(console: &Console, out: &mut [u8], s: Sums) {
    let o = write_total(s, out);
    deliver(console, out, o);
}
