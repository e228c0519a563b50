// Writing a trace file: what is handed in is checked first. Nothing is written before it is known to be good and to
// fit.
ghost use Rattle.basics.specs.Memory.{Put};
ghost use Rattle.trace_format.specs.Format.{name_records, row_records, fewest_of};
ghost use Rattle.trace_writer.specs.Writing.{Writes};
ghost use Rattle.trace_writer.specs.Putting.{SlotsLent, NamesSize, TimesLent, RowsSize};
ghost use Rattle.trace_writer.specs.Putting.{SlotsFit, RowsFit, Good};

use crate::Lists;
use crate::checks::check_trace;
use alf::Stamp;
use basics::Refusal;
use basics::refusing::refuse;
use names::name_len;
use record_puts::puts::{put_end, put_name, put_row};
use trace_format::parts::width_of;

// How many bytes the records of k names have.
fn names_size(names: &[u8], k: usize) -> usize
    requires { SlotsLent names.now k }
    ensures { NamesSize names.now k result }
{
    let mut size = 0;
    for i in 0..k {
        let from = i * 32;
        let to = from + 32;
        size = size + 3 + name_len(&names[from..to]);
    }
    size
}

// How many bytes the records of n rows of k codes each have.
fn rows_size(k: usize, times: &[u64], n: usize) -> usize
    requires { TimesLent k times.now n }
    ensures { RowsSize k times.now n result }
{
    let mut size = 0;
    for r in 0..n {
        size = size + (2 + width_of(times[r]) + k);
    }
    size
}

// Writes the records of k names, and returns where they end.
fn put_names(names: &[u8], k: usize, out: &mut [u8]) -> usize
    requires { SlotsFit names.now k out.old }
    ensures { Put out.old 0 (name_records names.now k) out.new result }
{
    let mut at = 0;
    for i in 0..k {
        let from = i * 32;
        let to = from + 32;
        let n = name_len(&names[from..to]);
        let end = from + n;
        at = put_name(&names[from..end], out, at);
    }
    at
}

// Writes the records of n rows of k codes each, and returns where they end.
fn put_rows(lists: &Lists, n: usize, out: &mut [u8], at: usize) -> usize
    requires { RowsFit lists.now.k lists.now.times.now lists.now.states.now n out.old at }
    ensures { Put out.old at
        (row_records lists.now.k (fewest_of lists.now.times.now) lists.now.times.now lists.now.states.now n)
        out.new result }
{
    let mut q = at;
    let mut from = 0;
    for r in 0..n {
        let to = from + lists.k;
        q = put_row(Stamp(lists.times[r]), &lists.states[from..to], out, q);
        from = to;
    }
    q
}

// Writes a trace that is known to be good, if there is room.
fn write_good(lists: &Lists, n: usize, out: &mut [u8]) -> Result<usize, Refusal>
    requires { Good lists.now.names.now lists.now.times.now lists.now.states.now n lists.now.k }
    ensures { Writes lists.now.names.now lists.now.times.now lists.now.states.now n
        out.old out.new result }
{
    let size = names_size(lists.names, lists.k) + rows_size(lists.k, lists.times, n) + 6;
    if out.len() < size {
        return refuse(9, size);
    }
    let rows = put_names(lists.names, lists.k, out);
    let end = put_rows(lists, n, out, rows);
    Ok(put_end(n as u64, out, end))
}

// Writes a trace file: names in slots, n times, and states row by row.
pub fn write_trace(
    names: &[u8],
    times: &[u64],
    states: &[u8],
    n: usize,
    out: &mut [u8],
) -> Result<usize, Refusal>
    ensures { Writes names.now times.now states.now n
        out.old out.new result }
{
    let k = check_trace(names, times, states, n)?;
    let lists = Lists {
        names,
        k,
        times,
        states,
    };
    write_good(&lists, n, out)
}
