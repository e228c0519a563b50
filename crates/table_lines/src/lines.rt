// The lines of the table, each into a lent buffer.
ghost use Rattle.std.specs.Prelude.{◌≡◌, map};
ghost use Rattle.basics.specs.Memory.{Put, Room};
ghost use Rattle.basics.specs.Memory.{Holds};
ghost use Rattle.table_lines.specs.Table.{plain, ended, heading_line, columns, pattern_line, refused_columns};
ghost use Rattle.table_lines.specs.Table.{refused_line, total_columns, total_line};
ghost use Rattle.figures.specs.Delivering.{Delivers};

use basics::Refusal;
use basics::puts::{push, put};
use basics::refusing::refuse;
use figures::numbers::{put_decimal, put_decimal_then};
use figures::shares::put_share;
use matcher::tables::Total;

// A byte of a pattern as a line shows it.
fn plain_of(b: u8) -> u8
    ensures { result ≡ plain b }
{
    if b < 32 {
        return 32;
    }
    b
}

// A pattern as a line shows it.
fn put_plain(pattern: &[u8], out: &mut [u8], at: usize) -> usize
    requires { Room out.old at (map plain pattern.now) }
    ensures { Put out.old at (map plain pattern.now) out.new result }
{
    for i in 0..pattern.len() {
        out[at + i] = plain_of(pattern[i]);
    }
    at + pattern.len()
}

// Columns, a pattern and the line's end, if there is room.
fn finish(columns: &[u8], pattern: &[u8], out: &mut [u8]) -> Result<usize, Refusal>
    ensures { Delivers (ended columns.now pattern.now) out.old
        out.new result }
{
    let size = columns.len() + pattern.len() + 1;
    if out.len() < size {
        return refuse(9, size);
    }
    let p = put(columns, out, 0);
    let q = put_plain(pattern, out, p);
    push(out, q, b'\n');
    Ok(size)
}

// The heading's line.
pub fn write_heading(out: &mut [u8]) -> Result<usize, Refusal>
    ensures { Delivers heading_line out.old out.new result }
{
    finish(b"seen\tshare\tunknown\tno\tpattern", b"", out)
}

// The columns of a pattern on n rows.
fn put_columns(yes: u32, unknown: u32, no: u32, n: u32, out: &mut [u8], at: usize) -> usize
    requires { Room out.old at (columns yes unknown no n) }
    ensures { Put out.old at (columns yes unknown no n) out.new result }
{
    let a = put_decimal_then(yes as u64, b"\t", out, at);
    let b = put_share(yes, n, out, a);
    let c = push(out, b, b'\t');
    let d = put_decimal_then(unknown as u64, b"\t", out, c);
    put_decimal_then(no as u64, b"\t", out, d)
}

fn lay_columns(yes: u32, unknown: u32, no: u32, n: u32, list: &mut [u8; 192]) -> usize
    ensures { Holds list.new result (columns yes unknown no n) }
{
    put_columns(yes, unknown, no, n, &mut list[..], 0)
}

// The line of a pattern on n rows; its length. Refused with 9.
pub fn write_line(pattern: &[u8], total: Total, n: u32, out: &mut [u8]) -> Result<usize, Refusal>
    ensures { Delivers (pattern_line pattern.now total.yes total.unknown total.no n)
        out.old out.new result }
{
    let mut list = [0u8; 192];
    let k = lay_columns(total.yes, total.unknown, total.no, n, &mut list);
    finish(&list[..k], pattern, out)
}

// The columns of a pattern that is refused.
fn put_refused(number: u8, place: usize, out: &mut [u8], at: usize) -> usize
    requires { Room out.old at (refused_columns number place) }
    ensures { Put out.old at (refused_columns number place) out.new result }
{
    let a = put(b"refused ", out, at);
    let b = put_decimal_then(number as u64, b" at ", out, a);
    put_decimal_then(place as u64, b"\t-\t-\t-\t", out, b)
}

fn lay_refused(number: u8, place: usize, list: &mut [u8; 192]) -> usize
    ensures { Holds list.new result (refused_columns number place) }
{
    put_refused(number, place, &mut list[..], 0)
}

// The line of a pattern that is refused; its length. Refused with 9.
pub fn write_refused(pattern: &[u8], refusal: Refusal, out: &mut [u8]) -> Result<usize, Refusal>
    ensures { Delivers (refused_line pattern.now refusal.number refusal.place)
        out.old out.new result }
{
    let mut list = [0u8; 192];
    let k = lay_refused(refusal.number, refusal.place, &mut list);
    finish(&list[..k], pattern, out)
}

// What the patterns of a table come to together.
#[derive(Clone, Copy)]
pub struct Sums {
    pub yes: u64,
    pub unknown: u64,
    pub no: u64,
    pub patterns: u64,
    pub events: u64,
}

// The columns of the totals.
fn put_total(s: Sums, out: &mut [u8], at: usize) -> usize
    requires { Room out.old at (total_columns s.yes s.unknown s.no s.patterns s.events) }
    ensures { Put out.old at (total_columns s.yes s.unknown s.no s.patterns s.events)
        out.new result }
{
    let a = put_decimal_then(s.yes, b"\t-\t", out, at);
    let b = put_decimal_then(s.unknown, b"\t", out, a);
    let c = put_decimal_then(s.no, b"\ttotal patterns ", out, b);
    let d = put_decimal_then(s.patterns, b" events ", out, c);
    put_decimal(s.events, out, d)
}

fn lay_total(
    yes: u64,
    unknown: u64,
    no: u64,
    patterns: u64,
    events: u64,
    list: &mut [u8; 192],
) -> usize
    ensures { Holds list.new result (total_columns yes unknown no patterns events) }
{
    let s = Sums {
        yes,
        unknown,
        no,
        patterns,
        events,
    };
    put_total(s, &mut list[..], 0)
}

// The line of the totals; its length. Refused with 9.
pub fn write_total(s: Sums, out: &mut [u8]) -> Result<usize, Refusal>
    ensures { Delivers (total_line s.yes s.unknown s.no s.patterns s.events) out.old
        out.new result }
{
    let mut list = [0u8; 192];
    let k = lay_total(s.yes, s.unknown, s.no, s.patterns, s.events, &mut list);
    finish(&list[..k], b"", out)
}
