// The second pass over a file: what the records hold is copied out. It cannot fail.
ghost use Rattle.std.specs.Prelude.{◌≡◌, ◌+◌, ◌≤◌, length, replicate, take, drop};
ghost use Rattle.basics.specs.Memory.{Put, front};
ghost use Rattle.alf.specs.Names.{slot_of};
ghost use Rattle.record_copies.specs.HeldLists.{times_of, states_of, NamesFit, NamesDone, RowsFit, SlotFits};
ghost use Rattle.record_copies.specs.HeldLists.{TimeFits, TimeDone, CodesFit};

use basics::puts::put;
use trace_format::parts::{byte_at, time_at, width_at};

// Writes n zeros, and returns the place behind them.
fn clear(out: &mut [u8], at: usize, n: usize) -> usize
    requires { at + n ≤ length out.old }
    ensures { Put out.old at (replicate n 0) out.new result }
{
    out[at..at + n].fill(0);
    at + n
}

// Writes a name as a slot: its bytes, then zeros.
pub fn put_slot(name: &[u8], out: &mut [u8], at: usize) -> usize
    requires { SlotFits name.now out.old at }
    ensures { Put out.old at (slot_of name.now) out.new result }
{
    let named = put(name, out, at);
    clear(out, named, 32 - name.len())
}

// Copies the names of a file into slots, and returns where they end in the file.
pub fn copy_names(file: &[u8], k: usize, out: &mut [u8]) -> usize
    requires { NamesFit file.now k out.old }
    ensures { NamesDone file.now k out.old out.new result }
{
    let mut q = 0;
    let mut at = 0;
    for i in 0..k {
        let from = q + 3;
        let to = from + byte_at(file, q + 2);
        at = put_slot(&file[from..to], out, at);
        q = to;
    }
    q
}

// Copies the time of the row at q, of w bytes, as entry r, and returns where the next row stands.
fn copy_time(file: &[u8], k: usize, q: usize, w: usize, out: &mut [u64], r: usize) -> usize
    requires { TimeFits file.now k q w out.old r }
    ensures { TimeDone file.now k q w out.old r out.new result }
{
    out[r] = time_at(file, q + 2, w);
    q + 2 + w + k
}

// Copies the times of n rows of k codes each. The two arms do the same: with 4 as a number in the first, where the next
// row stands does not wait for the byte that tells the width.
pub fn copy_times(file: &[u8], k: usize, at: usize, n: usize, out: &mut [u64])
    requires { RowsFit file.now k at n 1 out.old }
    ensures { out.new ≡ front (times_of file.now k n) out.old }
{
    let mut q = at;
    for r in 0..n {
        let w = width_at(file, q);
        if w == 4 {
            q = copy_time(file, k, q, 4, out, r);
        } else {
            q = copy_time(file, k, q, w, out, r);
        }
    }
}

// Copies the k codes of the row at q, behind a time of w bytes, and returns the place behind them.
fn copy_codes(file: &[u8], k: usize, q: usize, w: usize, out: &mut [u8], to: usize) -> usize
    requires { CodesFit file.now k q w out.old to }
    ensures { Put out.old to (take k (drop (q + 2 + w) file.now)) out.new result }
{
    let from = q + 2 + w;
    let end = from + k;
    put(&file[from..end], out, to)
}

// Copies the codes of n rows of k codes each. The two arms do the same, as in `copy_times`.
pub fn copy_states(file: &[u8], k: usize, at: usize, n: usize, out: &mut [u8])
    requires { RowsFit file.now k at n k out.old }
    ensures { out.new ≡ front (states_of file.now k n) out.old }
{
    let mut q = at;
    let mut to = 0;
    for r in 0..n {
        let w = width_at(file, q);
        if w == 4 {
            to = copy_codes(file, k, q, 4, out, to);
            q = q + 6 + k;
        } else {
            to = copy_codes(file, k, q, w, out, to);
            q = q + 2 + w + k;
        }
    }
}
