// A report as a line has it, its words separated by blanks: `=`, a letter for each name, the number of rows, and for
// each row the time, a colon and the states.
ghost use Rattle.std.specs.Prelude.{◌≤◌};

use alf::{Rules, Sort};
use basics::Refusal;
use reader::{Read, read_expression};
use run_words::lists::zeros;
use run_words::words::{number_from, number_in};
use text_parts::parts::part;

fn code_of(letter: u8) -> u8 {
    match letter {
        b'0' => 0,
        b'1' => 1,
        _ => 2,
    }
}

// Whether the states of a row go on behind a byte.
fn goes_on(inside: bool, b: u8) -> bool {
    match b {
        b':' => true,
        b' ' => false,
        _ => inside,
    }
}

// A byte inside a row's states is one entry, a blank is none.
fn taken(inside: bool, b: u8) -> usize
    ensures { result ≤ 1 }
{
    if !inside {
        return 0;
    }
    if b == b' ' {
        return 0;
    }
    1
}

// The states of all rows, as codes.
pub fn states_of(report: &[u8]) -> [u8; 64] {
    let mut out = zeros();
    let mut to: usize = 0;
    let mut inside = false;
    for i in 0..report.len() {
        if to >= 64 {
            return out;
        }
        out[to] = code_of(report[i]);
        to += taken(inside, report[i]);
        inside = goes_on(inside, report[i]);
    }
    out
}

// At most 5 names.
pub fn names_of(report: &[u8]) -> usize
    ensures { result ≤ 5 }
{
    let n = part(report, 1, b' ').len();
    if n < 5 { n } else { 5 }
}

// At most 12 rows.
pub fn rows_of(report: &[u8]) -> usize
    ensures { result ≤ 12 }
{
    let n = number_in(report, 2);
    if n < 12 { n } else { 12 }
}

// How many states so many rows of 3 or 5 names have.
pub fn size_of(names: usize, n: usize) -> usize
    requires { n ≤ 12 }
    ensures { result ≤ 64 }
{
    match names {
        3 => 3 * n,
        5 => 5 * n,
        _ => 0,
    }
}

// The time of row i, which stands before a colon.
pub fn time_of(report: &[u8], i: usize) -> usize
    requires { i ≤ 64 }
{
    number_from(part(part(report, i + 3, b' '), 0, b':'), 0)
}

fn no_times() -> [u64; 64] {
    [0u64; 64]
}

// The times of the rows.
pub fn times_of(report: &[u8]) -> [u64; 64] {
    let mut out = no_times();
    for i in 0..64 {
        out[i] = time_of(report, i) as u64;
    }
    out
}

fn no_names() -> [u8; 160] {
    [0u8; 160]
}

// The list of names, each a letter in a slot of 32 bytes.
fn list_of(letters: &[u8]) -> [u8; 160] {
    let mut out = no_names();
    for i in 0..letters.len() {
        if i >= 5 {
            return out;
        }
        out[32 * i] = letters[i];
    }
    out
}

// A text over the names of a report.
pub fn read(rules: Rules, report: &[u8], text: &[u8]) -> Result<Read, Refusal> {
    let names = list_of(part(report, 1, b' '));
    let end = 32 * names_of(report);
    read_expression(rules, &names[0..end], text, Sort::Vector)
}
