// The records of a trace, written at a place of a buffer that has room for them; the place behind them.
ghost use Rattle.std.specs.Prelude.{[], ◌∷◌, ◌+◌, ◌≤◌, length};
ghost use Rattle.basics.specs.Memory.{Put};
ghost use Rattle.trace_format.specs.Format.{bytes_of, fewest};
ghost use Rattle.trace_format.specs.Format.{name_record, row_record, end_record};
ghost use Rattle.record_puts.specs.Fitting.{NameFits, TimeFits, RowFits};

use alf::Stamp;
use basics::puts::{push, put};
use trace_format::parts::{letter_of, width_of};

// A mark.
pub fn put_mark(out: &mut [u8], at: usize, a: u8, b: u8) -> usize
    requires { at + 2 ≤ length out.old }
    ensures { Put out.old at (a ∷ b ∷ []) out.new result }
{
    out[at] = a;
    out[at + 1] = b;
    at + 2
}

// Four bytes, low first.
pub fn put_word(out: &mut [u8], at: usize, x: u64) -> usize
    requires { at + 4 ≤ length out.old }
    ensures { Put out.old at (bytes_of 4 x) out.new result }
{
    out[at] = (x % 256) as u8;
    out[at + 1] = (x / 256 % 256) as u8;
    out[at + 2] = (x / 65536 % 256) as u8;
    out[at + 3] = (x / 16777216 % 256) as u8;
    at + 4
}

// The low bytes of a number, four or eight, low first.
pub fn put_time(out: &mut [u8], at: usize, x: u64, w: usize) -> usize
    requires { TimeFits w out.old at }
    ensures { Put out.old at (bytes_of w x) out.new result }
{
    let low = put_word(out, at, x);
    if w == 4 {
        return low;
    }
    put_word(out, low, x / 4294967296)
}

// The record of a name.
pub fn put_name(name: &[u8], out: &mut [u8], at: usize) -> usize
    requires { NameFits name.now out.old at }
    ensures { Put out.old at (name_record name.now) out.new result }
{
    let marked = put_mark(out, at, b'N', b'M');
    let measured = push(out, marked, name.len() as u8);
    put(name, out, measured)
}

// The record of a row: its time, of the fewest bytes, and its codes.
pub fn put_row(time: Stamp, codes: &[u8], out: &mut [u8], at: usize) -> usize
    requires { RowFits time.0 codes.now out.old at }
    ensures { Put out.old at (row_record (fewest time.0) time.0 codes.now)
        out.new result }
{
    let t = time.0;
    let w = width_of(t);
    let marked = put_mark(out, at, b'R', letter_of(w));
    let timed = put_time(out, marked, t, w);
    put(codes, out, timed)
}

// The record that ends a file of n rows.
pub fn put_end(n: u64, out: &mut [u8], at: usize) -> usize
    requires { at + 6 ≤ length out.old }
    ensures { Put out.old at (end_record n) out.new result }
{
    let marked = put_mark(out, at, b'E', b'N');
    put_word(out, marked, n)
}
