// Trace files for C: reading and writing.
ghost use Rattle.trace_reader.specs.Reading.{Reads};
ghost use Rattle.trace_writer.specs.Writing.{Writes};
ghost use Rattle.telling.specs.Handing.{Hands, told, told_trace};

use telling::{Told, Trace};

// Reads a trace file into three lent lists: names in slots, times, states row by row.
#[unsafe(no_mangle)]
pub extern "C" fn dachsmond_read_trace(
    file: &[u8],
    names: &mut [u8],
    times: &mut [u64],
    states: &mut [u8],
) -> Trace
    ensures { Hands (Reads file.now names.old times.old states.old
        names.new times.new states.new) told_trace result }
{
    dachsmond::files::dachsmond_read_trace(file, names, times, states)
}

// Writes a trace file into a lent buffer.
#[unsafe(no_mangle)]
pub extern "C" fn dachsmond_write_trace(
    names: &[u8],
    times: &[u64],
    states: &[u8],
    n: usize,
    out: &mut [u8],
) -> Told
    ensures { Hands (Writes names.now times.now states.now n
        out.old
        out.new) told result }
{
    dachsmond::files::dachsmond_write_trace(names, times, states, n, out)
}
