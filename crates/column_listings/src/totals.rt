// How many answers are yes, no and unknown, and the last line, which tells it.
ghost use Rattle.std.specs.Prelude.{◌≡◌, eqb, if◌then◌else◌};
ghost use Rattle.basics.specs.Memory.{Put, Room};
ghost use Rattle.listing.specs.Listing.{how_many, last_line};
ghost use Rattle.listing.specs.Inner.{Sized};
ghost use Rattle.column_listings.specs.Inner.{Tallied};

use basics::puts::put;
use figures::numbers::{put_decimal_then, width_of};

// How many answers are yes, no and unknown.
#[derive(Clone, Copy)]
pub struct Tally {
    pub yes: u64,
    pub no: u64,
    pub unknown: u64,
}

// 1 where two numbers are the same.
pub fn same(x: u8, y: u8) -> u64
    ensures { result ≡ (if eqb x y then 1 else 0) }
{
    u64::from(x == y)
}

// How many answers have a number.
fn count_of(answers: &[u8], a: u8) -> u64
    ensures { result ≡ how_many answers.now a }
{
    answers.iter().filter(|b| **b == a).count() as u64
}

pub fn count_answers(answers: &[u8]) -> Tally
    ensures { Tallied answers.now result }
{
    Tally {
        yes: count_of(answers, 1),
        no: count_of(answers, 0),
        unknown: count_of(answers, 2),
    }
}

// The length of the last line.
pub fn last_size(t: Tally) -> usize
    ensures { Sized (last_line t.yes t.no t.unknown) 78 result }
{
    width_of(t.yes) + width_of(t.no) + width_of(t.unknown) + 18
}

// The last line.
pub fn put_last(t: Tally, out: &mut [u8], at: usize) -> usize
    requires { Room out.old at (last_line t.yes t.no t.unknown) }
    ensures { Put out.old at (last_line t.yes t.no t.unknown) out.new result }
{
    let p = put(b"yes ", out, at);
    let q = put_decimal_then(t.yes, b" no ", out, p);
    let r = put_decimal_then(t.no, b" unknown ", out, q);
    put_decimal_then(t.unknown, b"\n", out, r)
}
