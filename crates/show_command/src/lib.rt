// The command `show`: the trace as a table that tells of each row which pins changed. The text is made by a call of the
// library, for 1,000 rows at a time; here it is printed. That what the calls write, one after the other, is the listing
// of the whole trace is a theorem (activity/proofs/Parts).
#![tactic(auto)]

ghost use Rattle.std.specs.Prelude.{◌≡◌, ◌+◌, ◌<◌, min};

use activity::texts::activity_part;
use basics::Refusal;
use complaints::refused;
use console::output::{Console, say_front};

// How many rows are shown at a time.
const ROWS: usize = 1000;

// What was made is printed, or it is said why there is nothing.
fn tell(console: &Console, out: &[u8], o: Result<usize, Refusal>) {
    match o {
        Ok(n) => say_front(console, out, n),
        Err(r) => refused(console, b"trace", r),
    }
}

// The end of the rows from row r on that are shown at a time.
fn end_of(r: usize, n: usize) -> usize
    ensures { r < n → result ≡ min (r + 1000) n }
{
    n.min(r.saturating_add(ROWS))
}

// The rows from row r on.
fn show_some(
    console: &Console,
    names: &[u8],
    times: &[u64],
    states: &[u8],
    r: usize,
    out: &mut [u8],
) {
    let n = times.len();
    let o = activity_part(names, times, states, n, r, end_of(r, n), out);
    tell(console, out, o);
}

fn show_all(console: &Console, names: &[u8], times: &[u64], states: &[u8], out: &mut [u8]) {
    for r in (0..times.len()).step_by(ROWS) {
        if console.is_unread() {
            return;
        }
        show_some(console, names, times, states, r, out);
    }
}

// Room for the longest: the head, and 1,000 rows with times of ten digits and 32 names of 32 bytes that change at each
// row (part_fits in activity/proofs/Longest).
pub fn show(console: &Console, names: &[u8], times: &[u64], states: &[u8]) {
    let mut out = [0u8; 1145069];
    show_all(console, names, times, states, out.as_mut_slice());
}
