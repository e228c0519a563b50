// A trace saved as a file, whole or not at all. The file is made by a call of the library. It is proved to be safe and
// to end; no contract can say what is written to a disk.
#![tactic(auto)]

use basics::Refusal;
use complaints::refused;
use console::output::Console;
use console::saving::save_front;
use loading::arguments::path_argument;
use std::rt::{Env, Files};
use trace_writer::write::write_trace;

// A file that was made is saved, or it is said why there is none.
fn save_made<R: Files>(
    rt: &R,
    console: &Console,
    path: &[u8],
    out: &[u8],
    o: Result<usize, Refusal>,
) {
    match o {
        Ok(n) => save_front(rt, console, path, out, n),
        Err(r) => refused(console, b"trace", r),
    }
}

fn write_file<R: Files>(
    rt: &R,
    console: &Console,
    names: &[u8],
    times: &[u64],
    states: &[u8],
    path: &[u8],
    out: &mut [u8],
) {
    let o = write_trace(names, times, states, times.len(), out);
    save_made(rt, console, path, out, o);
}

// The trace is written to the file that argument i names. There is room for the longest file.
pub fn write_to<R: Env + Files>(
    rt: &R,
    console: &Console,
    i: usize,
    names: &[u8],
    times: &[u64],
    states: &[u8],
) {
    let mut path = [0u8; 4096];
    if let Some(n) = path_argument(rt, console, i, b"the name of the trace to write", &mut path) {
        let mut out = [0u8; 2753596];
        write_file(
            rt,
            console,
            names,
            times,
            states,
            &path[..n],
            out.as_mut_slice(),
        );
    }
}
