// A line of the listing with a third column: the time where the match began, or `-` where none is given.
ghost use Rattle.std.specs.Prelude.{◌≤◌};
ghost use Rattle.basics.specs.Memory.{Put, Room};
ghost use Rattle.listing.specs.Inner.{Sized, Wording};
ghost use Rattle.began_lines.specs.BeganListing.{began_word, began_line};

use alf::Stamp;
use basics::puts::push;
use figures::numbers::{put_decimal, put_decimal_then, width_of};
use listing::lines::{put_word, word_size};

// The length of the third column.
fn began_size(b: Option<Stamp>) -> usize
    ensures { Sized (began_word b) 20 result }
{
    match b {
        Some(t) => width_of(t.0),
        None => 1,
    }
}

// The third column.
fn put_began(b: Option<Stamp>, out: &mut [u8], at: usize) -> usize
    requires { Room out.old at (began_word b) }
    ensures { Put out.old at (began_word b) out.new result }
{
    match b {
        Some(t) => put_decimal(t.0, out, at),
        None => push(out, at, b'-'),
    }
}

// The length of a row's line.
pub fn line_size(time: Stamp, a: u8, b: Option<Stamp>) -> usize
    requires { a ≤ 3 }
    ensures { Sized (began_line time.0 a b) 50 result }
{
    let t = time.0;
    width_of(t) + word_size(a) + began_size(b) + 3
}

// A row's line: its time, its answer, and where its match began.
pub fn put_line(time: Stamp, a: u8, b: Option<Stamp>, out: &mut [u8], at: usize) -> usize
    requires { Wording 3 a out.old at (began_line time.0 a b) }
    ensures { Put out.old at (began_line time.0 a b) out.new result }
{
    let t = time.0;
    let p = put_decimal_then(t, b" ", out, at);
    let q = put_word(a, out, p);
    let r = push(out, q, b' ');
    let s = put_began(b, out, r);
    push(out, s, b'\n')
}
