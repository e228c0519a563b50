// The lines of a listing, of a pattern's answers or of an expression's values.
ghost use Rattle.std.specs.Prelude.{◌≡◌, ◌≤◌, ◌<◌, length, get_or};
ghost use Rattle.basics.specs.Memory.{Put};
ghost use Rattle.listing.specs.Listing.{word, letter, word_of, highest, line, lines};
ghost use Rattle.listing.specs.Inner.{Sized, Listable, Wording, Lining};

use alf::{RowNo, Stamp};
use basics::puts::{push, put};
use figures::numbers::{put_decimal_then, width_of};

// What a listing tells of each row: the answer of a pattern, or the value of an expression.
#[derive(Clone, Copy)]
pub enum Column {
    Answers,
    Values,
}

// An answer's word.
#[tactic(auto, unfolding(crate::specs::Listing::word, basics::specs::Text::bytes))]
fn word_of(a: u8) -> &'static [u8]
    requires { a ≤ 3 }
    ensures is { result.now ≡ word a }
    ensures few { length result.now ≤ 7 }
{
    match a {
        0 => b"no",
        1 => b"yes",
        2 => b"unknown",
        _ => b"none",
    }
}

// The length of an answer's word.
pub fn word_size(a: u8) -> usize
    requires { a ≤ 3 }
    ensures { Sized (word a) 7 result }
{
    word_of(a).len()
}

pub fn put_word(a: u8, out: &mut [u8], at: usize) -> usize
    requires { Wording 3 a out.old at (word a) }
    ensures { Put out.old at (word a) out.new result }
{
    put(word_of(a), out, at)
}

// The letter of a state.
pub fn letter_of(s: u8) -> u8
    requires { s ≤ 7 }
    ensures { result ≡ letter s }
{
    let letters = b"01XHLWZU";
    letters[s as usize]
}

// The length of what a line tells behind the time.
fn code_size(column: Column, a: u8) -> usize
    requires { a ≤ highest column }
    ensures { Sized (word_of column a) 7 result }
{
    match column {
        Column::Answers => word_size(a),
        Column::Values => 1,
    }
}

fn put_code(column: Column, a: u8, out: &mut [u8], at: usize) -> usize
    requires { Wording (highest column) a out.old at (word_of column a) }
    ensures { Put out.old at (word_of column a) out.new result }
{
    match column {
        Column::Answers => put_word(a, out, at),
        Column::Values => push(out, at, letter_of(a)),
    }
}

// The time of a row.
pub fn stamp_of(times: &[u64], row: RowNo) -> Stamp
    requires { row.0 < length times.now }
    ensures { result.0 ≡ get_or times.now row.0 0 }
{
    Stamp(times[row.0 as usize])
}

// The length of a row's line.
fn line_size(column: Column, time: Stamp, a: u8) -> usize
    requires { a ≤ highest column }
    ensures { Sized (line column time.0 a) 29 result }
{
    width_of(time.0) + code_size(column, a) + 2
}

// A row's line: its time, its answer or value.
fn put_line(column: Column, time: Stamp, a: u8, out: &mut [u8], at: usize) -> usize
    requires { Wording (highest column) a out.old at (line column time.0 a) }
    ensures { Put out.old at (line column time.0 a) out.new result }
{
    let p = put_decimal_then(time.0, b" ", out, at);
    let q = put_code(column, a, out, p);
    push(out, q, b'\n')
}

// The length of all rows' lines.
pub fn lines_size(column: Column, times: &[u64], codes: &[u8]) -> usize
    requires { Listable (highest column) times.now codes.now }
    ensures { Sized (lines column times.now codes.now) 1900515 result }
{
    let mut size: usize = 0;
    for i in 0..codes.len() {
        size += line_size(column, stamp_of(times, RowNo(i as u32)), codes[i]);
    }
    size
}

// All rows' lines.
pub fn put_lines(column: Column, times: &[u64], codes: &[u8], out: &mut [u8], at: usize) -> usize
    requires { Lining column times.now codes.now out.old at }
    ensures { Put out.old at (lines column times.now codes.now)
        out.new result }
{
    let mut p = at;
    for i in 0..codes.len() {
        p = put_line(column, stamp_of(times, RowNo(i as u32)), codes[i], out, p);
    }
    p
}
