// A file of one name and four rows, read, its times shown, and written again.
use crate::{show_outcome, show_reading};
use run_printing::printing::{character, number, write};
use std::io::Stdout;
use trace_reader::read::read_trace;
use trace_writer::write::write_trace;

fn show_time(to: Stdout, time: u64) {
    character(to, b' ');
    number(to, time as usize);
}

fn show_times(to: Stdout, times: &[u64; 4]) {
    write(to, b"times");
    show_time(to, times[0]);
    show_time(to, times[1]);
    show_time(to, times[2]);
    show_time(to, times[3]);
    character(to, b'\n');
}

fn same(out: [u8; 64]) -> [u8; 64] {
    out
}

// What was read, written; whether the same bytes come of it.
fn write_again(to: Stdout, names: &[u8; 32], times: &[u64; 4], states: &[u8; 4], file: &[u8]) {
    let mut out = [0u8; 64];
    show_outcome(to, write_trace(names, times, states, 4, &mut out));
    let written = same(out);
    let n = file.len();
    if n <= 64 {
        if check::same(&written[0..n], file) {
            write(to, b"same\n");
        }
    }
}

pub fn read_again(to: Stdout, file: &[u8]) {
    let mut names = [0u8; 32];
    let mut times = [0u64; 4];
    let mut states = [0u8; 4];
    show_reading(to, read_trace(file, &mut names, &mut times, &mut states));
    show_times(to, &times);
    write_again(to, &names, &times, &states, file);
}
