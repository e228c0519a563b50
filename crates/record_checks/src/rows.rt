// The first pass over a file, many rows at once. The cursor goes past good rows. What stands behind them is checked by
// `check_record`, which tells the refusal.
ghost use Rattle.std.specs.Prelude.{◌+◌, ◌≤◌, length};
ghost use Rattle.record_checks.specs.Steps.{Stands, MarkTold, RowTold, Onward};

use crate::Cursor;
use crate::checks::{check_row, pass_row};
use trace_format::Mark;
use trace_format::parts::mark_at;

// Whether the mark at a place is that of a row whose time has w bytes.
fn is_marked(file: &[u8], at: usize, w: usize) -> bool
    requires { at + 2 ≤ length file.now }
    ensures { MarkTold file.now at w result }
{
    match mark_at(file, at) {
        Mark::Row(v) => v == w,
        Mark::Name => false,
        Mark::End => false,
        Mark::Other => false,
    }
}

// Where it says yes, a good row whose time has w bytes stands at the cursor.
fn is_row(file: &[u8], s: Cursor, w: usize) -> bool
    requires { Stands file.now s }
    ensures { RowTold file.now s w result }
{
    let at = s.place;
    if file.len() - at < 2 {
        return false;
    }
    if !is_marked(file, at, w) {
        return false;
    }
    check_row(file, s, w).is_ok()
}

// The cursor behind the good rows whose time has w bytes. With one w for all of them, where the next row stands is
// known before the mark of this one is read.
fn pass_marked(file: &[u8], from: Cursor, w: usize) -> Cursor
    requires { Stands file.now from }
    ensures { Onward file.now from result }
{
    let mut s = from;
    // How many rows are good is known behind them: no range to go over.
    while is_row(file, s, w) {
        s = pass_row(file, s, w);
    }
    s
}

// The cursor behind good rows: those marked `RW`, then those marked `RL`.
pub fn pass_rows(file: &[u8], s: Cursor) -> Cursor
    requires { Stands file.now s }
    ensures { Onward file.now s result }
{
    let t = pass_marked(file, s, 4);
    pass_marked(file, t, 8)
}
