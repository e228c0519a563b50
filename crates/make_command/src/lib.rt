// The command `make`: the trace of a text that has the form of what `show` prints. The text is read by a call of the
// library; here are the file, the longest text that is read, and complaints with the line. That a text which `show`
// printed is read as the trace that it showed is a theorem (trace_text_laws/proofs/Inverse).
#![tactic(auto)]

mod spots;

use crate::spots::spot_of;
use basics::Refusal;
use complaints::in_lines::refused_in_line;
use console::output::{Console, complain, note};
use loading::arguments::path_argument;
use loading::files::fill;
use std::rt::{Env, Files};
use text_parts::lines::Lines;
use text_parts::parts::front;
use text_reading::reading::make_trace;
use trace_reader::Size;

// The longest text that is read. The longest trace has 5,571,536 bytes as a text without the columns from `changed` on.
const LONGEST: usize = 8000000;

fn too_long(console: &Console, path: &[u8]) {
    complain(console);
    note(console, path);
    note(
        console,
        b": a text over 8,000,000 bytes is not read; what follows a row's states may be left out\n",
    );
}

// A refusal, with the line that has its place.
fn complain_of(console: &Console, path: &[u8], text: &[u8], r: Refusal) {
    let s = spot_of(text, r.place);
    let line = Lines(&text[s.start..]).next().unwrap_or(b"");
    refused_in_line(console, path, s.number, line, s.at, r);
}

fn read_text(
    console: &Console,
    path: &[u8],
    text: &[u8],
    names: &mut [u8; 1024],
    times: &mut [u64; 65535],
    states: &mut [u8; 2097120],
) -> Option<Size> {
    if LONGEST < text.len() {
        too_long(console, path);
        return None;
    }
    make_trace(text, names, times, states)
        .inspect_err(|r| complain_of(console, path, text, *r))
        .ok()
}

fn load_into<R: Files + Input>(
    rt: &R,
    console: &Console,
    path: &[u8],
    data: &mut [u8],
    names: &mut [u8; 1024],
    times: &mut [u64; 65535],
    states: &mut [u8; 2097120],
) -> Option<Size> {
    let n = fill(rt, console, path, data)?;
    read_text(console, path, front(data, n), names, times, states)
}

// The trace of the text that argument i names: how many names and rows it has. Where there is none, that was complained
// of. The buffer has one byte more than the longest text.
pub fn load_text<R: Env + Files + Input>(
    rt: &R,
    console: &Console,
    i: usize,
    names: &mut [u8; 1024],
    times: &mut [u64; 65535],
    states: &mut [u8; 2097120],
) -> Option<Size> {
    let mut path = [0u8; 4096];
    let length = path_argument(rt, console, i, b"the text's name", &mut path)?;
    let mut data = [0u8; 8000001];
    load_into(
        rt,
        console,
        &path[..length],
        data.as_mut_slice(),
        names,
        times,
        states,
    )
}
