// Rows pushed onto a queue, with their times.
use crate::answers::matching;
use crate::clocks::{kept_of, time_of};
use alf::{RowNo, Rules, Stamp};
use queue_calls::pushing::push;
use run_printing::printing::{character, number, write};
use run_printing::states::letter;
use std::io::Stdout;
use timed_queue::queues::{Queue, empty};

// By the queue, one row after the other.
pub fn by_queue(to: Stdout, rules: Rules, names: usize, tree: &[u8], early: bool, states: &[u8]) {
    if names == 0 {
        return;
    }
    let mut queue = empty();
    for (row, states) in states.chunks_exact(names).enumerate() {
        let time = Stamp(time_of(early, row));
        let p = push(rules, names, tree, queue, time, states);
        let found = p.told;
        matching(to, found);
        queue = p.queue;
    }
}

// A queue that keeps so many rows, the first state as given, all others 0.
fn queue_of(early: bool, kept: u32, first: u8) -> Queue {
    let mut states = [0u8; 512];
    states[0] = first;
    let rows = queue::queues::Queue {
        kept: RowNo(kept),
        states,
    };
    let times = kept_of(early);
    Queue { rows, times }
}

// How many rows a queue keeps, and its first state.
fn show_queue(to: Stdout, states: &[u8; 512], kept: u32) {
    write(to, b", kept ");
    number(to, kept as usize);
    write(to, b" first ");
    letter(to, states[0]);
    character(to, b'\n');
}

// A push onto such a queue; then how many rows it keeps, and its first state.
pub fn by_push(
    to: Stdout,
    rules: Rules,
    names: usize,
    tree: &[u8],
    early: bool,
    kept: u32,
    first: u8,
    row: &[u8],
) {
    let time = Stamp(time_of(early, kept as usize));
    let p = push(rules, names, tree, queue_of(early, kept, first), time, row);
    let found = p.told;
    matching(to, found);
    let left = p.queue;
    let rows = left.rows;
    let count = rows.kept;
    let states = rows.states;
    show_queue(to, &states, count.0);
}
