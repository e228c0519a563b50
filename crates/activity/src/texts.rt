// The activity listing as a call, and a part of it as a call: the lines of some rows.
ghost use Rattle.std.specs.Prelude.{◌+◌, ◌*◌};
ghost use Rattle.basics.specs.Memory.{Put};
ghost use Rattle.figures.specs.Delivering.{Delivers};
ghost use Rattle.listing.specs.Inner.{Sized};
ghost use Rattle.trace_writer.specs.Putting.{SlotsLent, NamesGood};
ghost use Rattle.row_lines.specs.Inner.{PartGood};
ghost use Rattle.activity.specs.Activity.{head_line, opening, part_text, ListsActivity, ListsPart};
ghost use Rattle.activity.specs.Inner.{HeadFits, OpeningFits, WritesPart};

use basics::Refusal;
use basics::puts::put;
use basics::refusing::refuse;
use row_lines::marked::{members_size, put_members};
use row_lines::rows::{put_rows, rows_size};
use trace_writer::Lists;
use trace_writer::checks::{check_lists, check_rows, check_trace};

// The mask of all names.
const ALL: u32 = 4294967295;

// The length of the head line, which stands before row 0; before any other row there is none.
fn opening_size(names: &[u8], k: usize, first: usize) -> usize
    requires { SlotsLent names.now k }
    ensures { Sized (opening names.now k first) (k * 33 + 13) result }
{
    if first != 0 {
        return 0;
    }
    members_size(names, k, ALL) + 13
}

// The head line.
fn put_head(names: &[u8], k: usize, out: &mut [u8], at: usize) -> usize
    requires { HeadFits names.now k out.old at }
    ensures { Put out.old at (head_line names.now k) out.new result }
{
    let p = put(b"time", out, at);
    let q = put_members(names, k, ALL, out, p);
    put(b" changed\n", out, q)
}

// The head line before row 0.
fn put_opening(names: &[u8], k: usize, first: usize, out: &mut [u8], at: usize) -> usize
    requires { OpeningFits names.now k first out.old at }
    ensures { Put out.old at (opening names.now k first) out.new result }
{
    if first != 0 {
        return at;
    }
    put_head(names, k, out, at)
}

// The lines of some rows that are known to be good, if there is room; before row 0 the head.
fn write_part(lists: &Lists, first: usize, many: usize, out: &mut [u8]) -> Result<usize, Refusal>
    requires { PartGood lists.now.names.now lists.now.k lists.now.times.now lists.now.states.now first many }
    ensures { Delivers
        (part_text lists.now.names.now lists.now.k lists.now.times.now lists.now.states.now first many)
        out.old out.new result }
{
    let size = opening_size(lists.names, lists.k, first) + rows_size(lists, first, many);
    if out.len() < size {
        return refuse(9, size);
    }
    let p = put_opening(lists.names, lists.k, first, out, 0);
    put_rows(lists, first, many, out, p);
    Ok(size)
}

// The activity listing of a trace in lists: names in slots, n times, and states row by row; its length. Refused with
// 18, 12, then 13 and 15 row by row, 9.
pub fn activity(
    names: &[u8],
    times: &[u64],
    states: &[u8],
    n: usize,
    out: &mut [u8],
) -> Result<usize, Refusal>
    ensures { ListsActivity names.now times.now states.now n
        out.old out.new result }
{
    let k = check_trace(names, times, states, n)?;
    let lists = Lists {
        names,
        k,
        times,
        states,
    };
    write_part(&lists, 0, n, out)
}

// A part, once the lists are known to fit: 19, then 13 and 15 of its rows, 9.
fn tell_part(
    lists: &Lists,
    n: usize,
    from: usize,
    to: usize,
    out: &mut [u8],
) -> Result<usize, Refusal>
    requires { NamesGood lists.now.names.now lists.now.times.now lists.now.states.now n lists.now.k }
    ensures { WritesPart lists.now.names.now lists.now.k lists.now.times.now lists.now.states.now n from to
        out.old out.new result }
{
    if to <= from {
        return refuse(19, 0);
    }
    if n < to {
        return refuse(19, 0);
    }
    let many = to - from;
    check_rows(lists.k, lists.times, lists.states, from, many)?;
    write_part(lists, from, many, out)
}

// The lines of the rows `from` to `to` - 1 of the activity listing, before row 0 the head; their length. Only these
// rows are checked: 18, 12, 19 where they are no rows of the trace, 13 and 15 row by row, 9. Part after part is the
// whole.
pub fn activity_part(
    names: &[u8],
    times: &[u64],
    states: &[u8],
    n: usize,
    from: usize,
    to: usize,
    out: &mut [u8],
) -> Result<usize, Refusal>
    ensures { ListsPart names.now times.now states.now n from to
        out.old out.new result }
{
    let k = check_lists(names, times, states, n)?;
    let lists = Lists {
        names,
        k,
        times,
        states,
    };
    tell_part(&lists, n, from, to, out)
}
