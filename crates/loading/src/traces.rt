// The trace that an argument names, read into lists of the caller's.
use crate::arguments::path_argument;
use crate::files::fill;
use complaints::refused;
use console::output::Console;
use std::rt::{Env, Files};
use text_parts::parts::front;
use trace_reader::Size;
use trace_reader::read::read_trace;

fn parse(
    console: &Console,
    path: &[u8],
    file: &[u8],
    names: &mut [u8; 1024],
    times: &mut [u64; 65535],
    states: &mut [u8; 2097120],
) -> Option<Size> {
    read_trace(file, names, times, states)
        .inspect_err(|r| refused(console, path, *r))
        .ok()
}

// A trace file is read into a buffer of one byte more than the longest has.
fn load_into<R: Files + Input>(
    rt: &R,
    console: &Console,
    path: &[u8],
    data: &mut [u8],
    names: &mut [u8; 1024],
    times: &mut [u64; 65535],
    states: &mut [u8; 2097120],
) -> Option<Size> {
    let n = fill(rt, console, path, data)?;
    parse(console, path, front(data, n), names, times, states)
}

// The trace that argument i names: how many names and rows it has. Where there is none, that was complained of.
pub fn load<R: Env + Files + Input>(
    rt: &R,
    console: &Console,
    i: usize,
    names: &mut [u8; 1024],
    times: &mut [u64; 65535],
    states: &mut [u8; 2097120],
) -> Option<Size> {
    let mut path = [0u8; 4096];
    let length = path_argument(rt, console, i, b"the trace's name", &mut path)?;
    let mut data = [0u8; 2753597];
    load_into(
        rt,
        console,
        &path[..length],
        data.as_mut_slice(),
        names,
        times,
        states,
    )
}
