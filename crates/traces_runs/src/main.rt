// Runs of the trace reader and writer: document 01's example, files cut at every byte, each refusal at its boundary.
// The files come from standard input, one a line, in hexadecimal digits.
#![tactic(auto)]

mod again;
mod long;

ghost use Rattle.std.specs.Prelude.{◌≤◌};

use crate::again::read_again;
use crate::long::read_rows;
use basics::Refusal;
use loading::files::read_all;
use run_printing::printing::{broken, character, number, small, write};
use run_words::words::digit;
use std::io;
use std::io::Stdout;
use text_parts::lines::Lines;
use text_parts::parts::front;
use trace_reader::Size;
use trace_reader::read::read_trace;
use trace_writer::write::write_trace;

// A number or two of an answer, on a line.
fn line(to: Stdout, word: &[u8], a: usize, between: &[u8], b: usize) {
    write(to, word);
    number(to, a);
    write(to, between);
    number(to, b);
    character(to, b'\n');
}

fn show_reading(to: Stdout, r: Result<Size, Refusal>) {
    match r {
        Ok(Size { names, rows }) => line(to, b"read ", names, b" ", rows),
        Err(f) => line(to, b"refused ", small(f.number), b" at ", f.place),
    }
}

fn show_outcome(to: Stdout, r: Result<usize, Refusal>) {
    match r {
        Ok(n) => line(to, b"done ", n, b" ", 0),
        Err(f) => line(to, b"refused ", small(f.number), b" at ", f.place),
    }
}

// A file, read into so much room for names, times and states.
fn read_into(to: Stdout, file: &[u8], a: usize, b: usize, c: usize)
    requires { (a ≤ 1024) × (b ≤ 4) × (c ≤ 64) }
{
    let mut names = [0u8; 1024];
    let mut times = [0u64; 4];
    let mut states = [0u8; 64];
    show_reading(
        to,
        read_trace(file, &mut names[0..a], &mut times[0..b], &mut states[0..c]),
    );
}

fn read(to: Stdout, file: &[u8]) {
    read_into(to, file, 1024, 4, 64);
}

// Every beginning of a file but the whole.
fn read_cut(to: Stdout, file: &[u8]) {
    for n in 0..file.len() {
        read(to, &file[..n]);
    }
}

// Too little room for names, times, states.
fn read_short(to: Stdout, file: &[u8]) {
    read_into(to, file, 31, 1, 1);
    read_into(to, file, 32, 1, 1);
    read_into(to, file, 32, 2, 1);
    read_into(to, file, 32, 2, 2);
}

fn same(out: [u8; 64]) -> [u8; 64] {
    out
}

// Two rows of one name, written into so much room; whether the document's example comes of it.
fn write_rows(
    to: Stdout,
    names: &[u8],
    times: &[u64],
    states: &[u8],
    n: usize,
    room: usize,
    file: &[u8],
)
    requires { room ≤ 64 }
{
    let mut out = [0u8; 64];
    show_outcome(to, write_trace(names, times, states, n, &mut out[0..room]));
    let written = same(out);
    if check::same(&written[0..24], file) {
        write(to, b"same\n");
    }
}

// A name of one letter; the time of the first of two rows, and the state of the second.
fn write_one(to: Stdout, letter: u8, time: u64, state: u8, n: usize, room: usize, file: &[u8])
    requires { room ≤ 64 }
{
    let mut name = [0u8; 32];
    name[0] = letter;
    let times = [time, 10];
    let states = [0u8, state];
    write_rows(to, &name, &times, &states, n, room, file);
}

// A list of names that is no slot long.
fn write_short(to: Stdout, file: &[u8]) {
    let times = [0u64, 10];
    let states = [0u8, 1];
    write_rows(to, b"A", &times, &states, 2, 64, file);
}

// The document's example, written; a buffer one byte too short; a row less than there are; names of one byte; a digit
// for a name; equal times and a code 8; a code 8.
fn write_example(to: Stdout, file: &[u8]) {
    write_one(to, b'A', 0, 1, 2, 24, file);
    write_one(to, b'A', 0, 1, 2, 23, file);
    write_one(to, b'A', 0, 1, 1, 64, file);
    write_short(to, file);
    write_one(to, b'1', 0, 1, 2, 64, file);
    write_one(to, b'A', 10, 8, 2, 64, file);
    write_one(to, b'A', 0, 8, 2, 64, file);
}

fn no_bytes() -> [u8; 512] {
    [0u8; 512]
}

// The bytes that pairs of digits stand for.
fn bytes_of(digits: &[u8]) -> [u8; 512] {
    let mut out = no_bytes();
    for i in 0..512 {
        if digits.len() / 2 <= i {
            return out;
        }
        out[i] = 16 * digit(digits[2 * i]) + digit(digits[2 * i + 1]);
    }
    out
}

// How many they are.
fn size_of(digits: &[u8]) -> usize
    ensures { result ≤ 512 }
{
    let n = digits.len() / 2;
    if n < 512 { n } else { 512 }
}

// A file by its digits. The first one, the document's example, is also cut at every byte, read into too little room,
// and written.
fn show_file(to: Stdout, digits: &[u8], first: bool) {
    let bytes = bytes_of(digits);
    let n = size_of(digits);
    if first {
        show_example(to, &bytes[0..n]);
    }
    read(to, &bytes[0..n]);
}

fn show_example(to: Stdout, file: &[u8]) {
    read_cut(to, file);
    read_short(to, file);
    write_example(to, file);
}

// A file of four rows: cut at every byte, read, and written again.
fn show_four(to: Stdout, digits: &[u8]) {
    let bytes = bytes_of(digits);
    let n = size_of(digits);
    read_cut(to, &bytes[0..n]);
    read_again(to, &bytes[0..n]);
}

// A line that is empty or starts with `#` is a remark, one with half a byte is broken. One that starts with `!` has a
// file of four rows behind it.
fn show_line(to: Stdout, line: &[u8], first: bool) -> bool {
    if line.len() == 0 {
        return first;
    }
    if line[0] == b'#' {
        return first;
    }
    if line[0] == b'!' {
        show_four(to, &line[1..]);
        return first;
    }
    if line.len() % 2 == 1 {
        broken(to, line);
        return first;
    }
    show_file(to, line, first);
    false
}

// Each line of the input.
fn show_lines(to: Stdout, input: &[u8]) {
    let mut first = true;
    for line in Lines(input) {
        first = show_line(to, line, first);
    }
}

// The files of the input; then one name and 65,535 rows, and 65,536: the last one's mark is at byte 4 + 7 * 65,535.
fn main(rt: HostRuntime) -> io::Result<()> {
    let mut input = [0u8; 65536];
    let n = read_all(&mut rt.reader(), &mut input)?;
    let to = rt.stdout();
    show_lines(to, front(&input, n));
    read_rows(to, 65535);
    read_rows(to, 65536);
    Ok(())
}
