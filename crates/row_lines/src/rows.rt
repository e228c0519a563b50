// The lines of the rows: time, states, how many names changed, and which.
ghost use Rattle.std.specs.Prelude.{◌+◌, ◌*◌, [], ◌∷◌, get_or};
ghost use Rattle.basics.specs.Memory.{Put};
ghost use Rattle.listing.specs.Listing.{letter};
ghost use Rattle.listing.specs.Inner.{Sized};
ghost use Rattle.row_lines.specs.Lines.{letters, row_line, row_lines};
ghost use Rattle.row_lines.specs.Inner.{LetterFits, LettersFit, RowIn, RowFits, PartGood, RowsFit};

use crate::marked::{members_size, put_members};
use alf::{RowNo, Stamp};
use basics::puts::push;
use changes::of_row;
use figures::numbers::{put_decimal, width_of};
use listing::lines::{letter_of, stamp_of};
use trace_writer::Lists;

// A state's letter, behind a blank.
fn put_letter(code: u8, out: &mut [u8], at: usize) -> usize
    requires { LetterFits code out.old at }
    ensures { Put out.old at (32 ∷ letter code ∷ []) out.new result }
{
    let p = push(out, at, b' ');
    push(out, p, letter_of(code))
}

// The letters of the k states from a place on.
fn put_letters(states: &[u8], from: usize, k: usize, out: &mut [u8], at: usize) -> usize
    requires { LettersFit states.now from k out.old at }
    ensures { Put out.old at (letters k (λ i. get_or states.now (from + i) 0))
        out.new result }
{
    let mut p = at;
    for i in 0..k {
        p = put_letter(states[from + i], out, p);
    }
    p
}

// The length of a row's line.
fn row_size(lists: &Lists, time: Stamp, row: RowNo) -> usize
    requires { RowIn lists.now.names.now lists.now.k lists.now.states.now row.0 }
    ensures { Sized (row_line lists.now.names.now lists.now.k lists.now.states.now time.0 row.0) 1162 result }
{
    let t = time.0;
    let i = row.0;
    let c = of_row(lists.k, lists.states, i as usize);
    let many = c.many;
    let mask = c.mask;
    width_of(t) + 2 * lists.k + width_of(many as u64) + members_size(lists.names, lists.k, mask) + 2
}

// A row's line.
fn put_row(lists: &Lists, time: Stamp, row: RowNo, out: &mut [u8], at: usize) -> usize
    requires { RowFits lists.now.names.now lists.now.k lists.now.states.now time.0 row.0 out.old at }
    ensures { Put out.old at
        (row_line lists.now.names.now lists.now.k lists.now.states.now time.0 row.0) out.new result }
{
    let t = time.0;
    let i = row.0 as usize;
    let c = of_row(lists.k, lists.states, i);
    let many = c.many;
    let mask = c.mask;
    let timed = put_decimal(t, out, at);
    let lettered = put_letters(lists.states, i * lists.k, lists.k, out, timed);
    let parted = push(out, lettered, b' ');
    let counted = put_decimal(many as u64, out, parted);
    let told = put_members(lists.names, lists.k, mask, out, counted);
    push(out, told, b'\n')
}

// The length of the lines of some rows, from row `first` on.
pub fn rows_size(lists: &Lists, first: usize, many: usize) -> usize
    requires { PartGood lists.now.names.now lists.now.k lists.now.times.now lists.now.states.now first many }
    ensures { Sized (row_lines lists.now.names.now lists.now.k lists.now.times.now lists.now.states.now first many)
        (many * 1162) result }
{
    let mut size: usize = 0;
    for i in 0..many {
        let row = RowNo((first + i) as u32);
        size += row_size(lists, stamp_of(lists.times, row), row);
    }
    size
}

// The lines of some rows, from row `first` on.
pub fn put_rows(lists: &Lists, first: usize, many: usize, out: &mut [u8], at: usize) -> usize
    requires { RowsFit lists.now.names.now lists.now.k lists.now.times.now lists.now.states.now first many out.old at }
    ensures { Put out.old at
        (row_lines lists.now.names.now lists.now.k lists.now.times.now lists.now.states.now first many) out.new result }
{
    let mut p = at;
    for i in 0..many {
        let row = RowNo((first + i) as u32);
        p = put_row(lists, stamp_of(lists.times, row), row, out, p);
    }
    p
}
