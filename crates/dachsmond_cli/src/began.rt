// A command on a trace, by the words behind it. `list` may have the option `--began` there.
use crate::words::Task;
use crate::{Asked, on_trace};
use console::output::Console;
use loading::arguments::arg;
use std::rt::{Env, Files};
use text_commands::Question;

// Whether an argument is the option.
fn is_began<R: Env>(rt: &R, at: usize) -> bool {
    let mut word = [0u8; 4096];
    let n = arg(rt, at, &mut word);
    &word[..n] == b"--began".as_slice()
}

// `list`, where the trace and the pattern stand behind the option.
fn begin_began<R: Env + Files + Input>(rt: &R, console: &Console, a: Asked, more: usize) {
    let task = Task::Ask(Question::Began);
    if task.is_fit(console, b"list --began", more) {
        let behind = Asked {
            rules: a.rules,
            trace: a.trace.saturating_add(1),
            first: a.first.saturating_add(1),
        };
        on_trace(rt, console, behind, task);
    }
}

// The command, and how many words stand behind it.
pub fn begin<R: Env + Files + Input>(
    rt: &R,
    console: &Console,
    a: Asked,
    task: Task,
    word: &[u8],
    more: usize,
) {
    if task == Task::Ask(Question::List) && 0 < more && is_began(rt, a.trace) {
        begin_began(rt, console, a, more - 1);
    } else if task.is_fit(console, word, more) {
        on_trace(rt, console, a, task);
    }
}
