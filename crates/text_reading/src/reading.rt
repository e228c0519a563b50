// Reading a text as a trace. Nothing is written before the text is known good and to fit.
ghost use Rattle.text_reading.specs.Reading.{Checks, Checked, MakesTrace};

use basics::Refusal;
use basics::refusing::refuse;
use text_copies::copies::{copy_names, copy_rows};
use text_heads::counts::count_names;
use text_heads::heads::check_head;
use text_rows::rows::check_rows;
use trace_reader::Size;
use trace_texts::lines::{behind_line, next_line};

// The whole text: how many names and rows it has, or the refusal of the first word that is not good.
fn check_text(text: &[u8]) -> Result<Size, Refusal>
    ensures { Checks text.now result }
{
    let h = next_line(text, 0);
    if h == text.len() {
        return refuse(14, h);
    }
    let head = count_names(text, h);
    let behind = behind_line(text, h);
    check_head(text, h, head.names, head.end)?;
    let n = check_rows(text, behind, head.names, head.wide)?;
    Ok(Size {
        names: head.names,
        rows: n,
    })
}

// Writes the trace of a text of k names and n rows that is known to be good, if there is room.
fn fill(
    text: &[u8],
    k: usize,
    n: usize,
    names: &mut [u8],
    times: &mut [u64],
    states: &mut [u8],
) -> Result<Size, Refusal>
    requires { Checked text.now k n }
    ensures { MakesTrace text.now names.old times.old states.old
        names.new
        times.new states.new result }
{
    let h = next_line(text, 0);
    let behind = behind_line(text, h);
    let slots = k * 32;
    let codes = n * k;
    if names.len() < slots {
        return refuse(9, slots);
    }
    if times.len() < n {
        return refuse(9, n);
    }
    if states.len() < codes {
        return refuse(9, codes);
    }
    copy_names(text, h, k, names);
    copy_rows(text, behind, k, n, times, states);
    Ok(Size { names: k, rows: n })
}

// Reads a text as a trace into three lists: names in slots, times, states row by row. Refusals in the text's order: 11
// to 15; then 9.
pub fn make_trace(
    text: &[u8],
    names: &mut [u8],
    times: &mut [u64],
    states: &mut [u8],
) -> Result<Size, Refusal>
    ensures { MakesTrace text.now names.old times.old states.old
        names.new
        times.new states.new result }
{
    let size = check_text(text)?;
    fill(text, size.names, size.rows, names, times, states)
}
