// Dachsmond, the program: counts patterns of pin events in a trace. Here are the commands, their arguments, files and
// complaints; `words` has the words. What is printed of an answer is made by one call of the library.
#![tactic(auto)]

mod began;
mod blanked;
mod words;

use crate::began::begin;
use crate::blanked::blank_lists;
use crate::words::{Command, Task, help, ruled};
use alf::Rules;
use complaints::{unfit, unknown};
use console::output::{Console, say};
use correct_command::correct;
use loading::arguments::{arg, arg_count};
use loading::traces::load;
use make_command::load_text;
use show_command::show;
use states::rules::old_rules;
use std::process::ExitCode;
use std::rt::{Env, Files};
use table_command::{first_look, table};
use text_commands::answer;
use text_parts::parts::{front, front_mut};
use trace_reader::Size;
use trace_saving::write_to;

// How a command is asked: the rules of reading and evaluation, the argument that names the trace, or the text for
// `make`, and the first one behind it.
#[derive(Clone, Copy)]
struct Asked {
    rules: Rules,
    trace: usize,
    first: usize,
}

// What is done with a trace. `blank` is in a file of its own.
fn start<R: Env + Files + Input>(
    rt: &R,
    console: &Console,
    a: Asked,
    task: Task,
    names: &[u8],
    times: &[u64],
    states: &mut [u8],
) {
    match task {
        Task::Table => table(rt, console, a.rules, a.first, names, times.len(), states),
        Task::Ask(question) => answer(
            rt, console, a.rules, a.first, question, names, times, states,
        ),
        Task::Show => show(console, names, times, states),
        Task::Correct => correct(rt, console, names, times, states),
        Task::Make => write_to(rt, console, a.first, names, times, states),
        Task::Blank => {}
    }
}

// Of the lists, what the trace fills.
fn on_lists<R: Env + Files + Input>(
    rt: &R,
    console: &Console,
    a: Asked,
    task: Task,
    names: &[u8],
    times: &[u64],
    states: &mut [u8],
    size: Size,
) {
    let l = front(names, size.names.saturating_mul(32));
    let t = front(times, size.rows);
    let s = front_mut(states, size.rows.saturating_mul(size.names));
    start(rt, console, a, task, l, t, s);
}

// The trace that argument i names: a text for `make`, and else a trace file.
fn take_trace<R: Env + Files + Input>(
    rt: &R,
    console: &Console,
    task: Task,
    i: usize,
    names: &mut [u8; 1024],
    times: &mut [u64; 65535],
    states: &mut [u8; 2097120],
) -> Option<Size> {
    match task {
        Task::Make => load_text(rt, console, i, names, times, states),
        _ => load(rt, console, i, names, times, states),
    }
}

// The trace is loaded once, whatever is asked of it.
fn on_trace<R: Env + Files + Input>(rt: &R, console: &Console, a: Asked, task: Task) {
    let mut names = [0u8; 1024];
    let mut times = [0u64; 65535];
    let mut states = [0u8; 2097120];
    let Some(size) = take_trace(
        rt,
        console,
        task,
        a.trace,
        &mut names,
        &mut times,
        &mut states,
    ) else {
        return;
    };
    let (n, t, s) = (names.as_slice(), times.as_slice(), states.as_mut_slice());
    match task {
        Task::Blank => blank_lists(rt, console, a, n, t, s, size),
        _ => on_lists(rt, console, a, task, n, t, s, size),
    }
}

// The command, and how many words stand behind it.
fn run<R: Env + Files + Input>(rt: &R, console: &Console, word: &[u8], more: usize) {
    let a = Asked {
        rules: old_rules(),
        trace: 2,
        first: 3,
    };
    match Command::named(word) {
        Some(Command::On(task)) => begin(rt, console, a, task, word, more),
        Some(Command::Version) => say(console, b"dachsmond 4.1\n"),
        Some(Command::Help) => help(console),
        None => unknown(console, word),
    }
}

// A command behind options: behind `--equal-branches` one that evaluates, or `blank`, behind `--steady-pins` one that
// reads a text.
fn run_ruled<R: Env + Files + Input>(
    rt: &R,
    console: &Console,
    a: Asked,
    word: &[u8],
    more: usize,
) {
    let Some(Command::On(task)) = Command::named(word) else {
        return misplaced(console, a.rules);
    };
    if a.rules.equal_branches && !task.evaluates() || !task.reads() {
        return misplaced(console, a.rules);
    }
    begin(rt, console, a, task, word, more);
}

// Options before a word that is none of the commands which may stand behind them.
fn misplaced(console: &Console, rules: Rules) {
    if rules.equal_branches {
        unfit(
            console,
            b"--equal-branches",
            b"table, list, values or blank",
        );
    } else {
        unfit(
            console,
            b"--steady-pins",
            b"table, list, values, blank or rewrite",
        );
    }
}

// The command behind two options, which is argument 3; where it is missing, a word of no length is none.
fn behind_both<R: Env + Files + Input>(rt: &R, console: &Console, rules: Rules, count: usize) {
    let a = Asked {
        rules,
        trace: 4,
        first: 5,
    };
    let mut word = [0u8; 4096];
    let n = arg(rt, 3, &mut word);
    if count < 4 {
        run_ruled(rt, console, a, b"", 0);
        return;
    }
    run_ruled(rt, console, a, &word[..n], count - 4);
}

// The command behind an option, which is argument 2, or another option.
fn behind_option<R: Env + Files + Input>(rt: &R, console: &Console, rules: Rules, count: usize) {
    let a = Asked {
        rules,
        trace: 3,
        first: 4,
    };
    let mut word = [0u8; 4096];
    let n = arg(rt, 2, &mut word);
    if count < 3 {
        run_ruled(rt, console, a, b"", 0);
        return;
    }
    match ruled(rules, &word[..n]) {
        Some(rules) => behind_both(rt, console, rules, count),
        None => run_ruled(rt, console, a, &word[..n], count - 3),
    }
}

// The command that the words are; without words a first look.
fn start_by<R: Env + Files + Input>(rt: &R, console: &Console) {
    let count = arg_count(rt);
    if count < 2 {
        first_look(console);
        return;
    }
    let mut word = [0u8; 4096];
    let n = arg(rt, 1, &mut word);
    match ruled(old_rules(), &word[..n]) {
        Some(rules) => behind_option(rt, console, rules, count),
        None => run(rt, console, &word[..n], count - 2),
    }
}

// The exit status says whether something was complained of.
fn main(rt: HostRuntime) -> ExitCode {
    let console = Console::new(rt.stdout(), rt.stderr());
    start_by(&rt, &console);
    ExitCode::from(console.status())
}
