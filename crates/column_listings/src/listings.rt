// Document 01's listing of a pattern's answers, and that of an expression's values, each into a lent buffer.
ghost use Rattle.basics.specs.Deciding.{Decides};
ghost use Rattle.figures.specs.Delivering.{Delivers};
ghost use Rattle.listing.specs.Listing.{listing, values_listing, Lists};
ghost use Rattle.column_listings.specs.Calls.{ValuesText};
ghost use Rattle.listing.specs.Inner.{Listable};

use crate::totals::{count_answers, last_size, put_last};
use basics::Refusal;
use basics::puts::put;
use basics::refusing::refuse;
use listing::lines::{Column, lines_size, put_lines};
use states::codes::first_bad_code;

// Whether there are 1 to 65,535 times, and as many codes.
fn lists_fit(times: usize, codes: usize) -> bool
    ensures { Decides result (Lists times codes) }
{
    if times == 0 {
        return false;
    }
    if 65535 < times {
        return false;
    }
    if codes != times {
        return false;
    }
    true
}

// The listing of answers that are known to be good, a line for each row with its time and its answer; refused with 9.
// No public call of the library: the answers handed in are those that a call has found (tree_listings).
pub fn write_listing(times: &[u64], answers: &[u8], out: &mut [u8]) -> Result<usize, Refusal>
    requires { Listable 3 times.now answers.now }
    ensures { Delivers (listing times.now answers.now) out.old
        out.new result }
{
    let tally = count_answers(answers);
    let size = lines_size(Column::Answers, times, answers) + last_size(tally) + 12;
    if out.len() < size {
        return refuse(9, size);
    }
    let p = put(b"time answer\n", out, 0);
    let q = put_lines(Column::Answers, times, answers, out, p);
    put_last(tally, out, q);
    Ok(size)
}

// The listing of values that are known to be good; refused with 9.
fn write_values(times: &[u64], values: &[u8], out: &mut [u8]) -> Result<usize, Refusal>
    requires { Listable 7 times.now values.now }
    ensures { Delivers (values_listing times.now values.now) out.old
        out.new result }
{
    let size = lines_size(Column::Values, times, values) + 11;
    if out.len() < size {
        return refuse(9, size);
    }
    let p = put(b"time value\n", out, 0);
    put_lines(Column::Values, times, values, out, p);
    Ok(size)
}

// A line for each row with its time and the letter of a value, given as document 01's code; the length of all. Refused
// with 18, 15 or 9.
pub fn list_values(times: &[u64], values: &[u8], out: &mut [u8]) -> Result<usize, Refusal>
    ensures { ValuesText times.now values.now out.old
        out.new result }
{
    if !lists_fit(times.len(), values.len()) {
        return refuse(18, 0);
    }
    let bad = first_bad_code(values);
    if bad < values.len() {
        return refuse(15, bad);
    }
    write_values(times, values, out)
}
