// Reading a trace file: a pass to check, a pass to copy. Nothing is written before the file is known good and to fit.
ghost use Rattle.trace_reader.specs.Reading.{Accepted, Reads};

use crate::Size;
use crate::checks::check_file;
use basics::Refusal;
use basics::refusing::refuse;
use record_copies::copies::{copy_names, copy_states, copy_times};

// Copies a file of k names and n rows that is known to be good, if there is room.
fn fill(
    file: &[u8],
    k: usize,
    n: usize,
    names: &mut [u8],
    times: &mut [u64],
    states: &mut [u8],
) -> Result<Size, Refusal>
    requires { Accepted file.now k n }
    ensures { Reads file.now names.old times.old states.old
        names.new
        times.new states.new result }
{
    let slots = k * 32;
    let codes = n * k;
    if names.len() < slots {
        return refuse(9, slots);
    }
    if times.len() < n {
        return refuse(9, n);
    }
    if states.len() < codes {
        return refuse(9, codes);
    }
    let at = copy_names(file, k, names);
    copy_times(file, k, at, n, times);
    copy_states(file, k, at, n, states);
    Ok(Size { names: k, rows: n })
}

// Reads a trace file into three lists: names in slots, times, states row by row.
pub fn read_trace(
    file: &[u8],
    names: &mut [u8],
    times: &mut [u64],
    states: &mut [u8],
) -> Result<Size, Refusal>
    ensures { Reads file.now names.old times.old states.old
        names.new
        times.new states.new result }
{
    let size = check_file(file)?;
    fill(file, size.names, size.rows, names, times, states)
}
