// `blank`, on what the trace fills. It is not among the commands of `start`: with it the compiler gives `start` a frame
// of its own, and the program takes 4.5 MB more of the stack.
use crate::Asked;
use blank_command::blank;
use console::output::Console;
use std::rt::{Env, Files};
use text_parts::parts::{front, front_mut};
use trace_reader::Size;

pub fn blank_lists<R: Env + Files + Input>(
    rt: &R,
    console: &Console,
    a: Asked,
    names: &[u8],
    times: &[u64],
    states: &mut [u8],
    size: Size,
) {
    let l = front(names, size.names.saturating_mul(32));
    let t = front(times, size.rows);
    let s = front_mut(states, size.rows.saturating_mul(size.names));
    blank(rt, console, a.rules, a.first, l, t, s);
}
