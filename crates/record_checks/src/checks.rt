// The first pass over a file, record by record: each is checked, and nothing is written.
ghost use Rattle.basics.specs.Deciding.{Decides};
ghost use Rattle.trace_format.specs.declared.Mark.TheVariants.{Name, Row, End};
ghost use Rattle.record_checks.specs.Steps.{Stands, StandsAt, RowStands, TimeStands, Checks};
ghost use Rattle.record_checks.specs.Steps.{NameStands, NewName, Above, GoodHere, Next};

use crate::{Cursor, Record};
use basics::Refusal;
use basics::refusing::refuse;
use names::is_name;
use trace_format::Mark;
use trace_format::parts::{byte_at, codes_to, mark_at, time_at, word_at};

// Whether the name record at a place, behind k others, has none of their names.
fn is_new(file: &[u8], k: usize, at: usize) -> bool
    requires { NameStands file.now k at }
    ensures { Decides result (NewName file.now k) }
{
    let from = at + 3;
    let to = from + byte_at(file, at + 2);
    let mut q = 0;
    for j in 0..k {
        let a = q + 3;
        let b = a + byte_at(file, q + 2);
        if check::same(&file[a..b], &file[from..to]) {
            return false;
        }
        q = b;
    }
    true
}

// A record marked `NM`.
fn check_name(file: &[u8], s: Cursor) -> Result<Record, Refusal>
    requires { StandsAt Name file.now s }
    ensures { Checks file.now s result }
{
    let at = s.place;
    let k = s.names;
    if s.rows != 0 {
        return refuse(11, at);
    }
    if 31 < k {
        return refuse(11, at);
    }
    if file.len() - at < 3 {
        return refuse(14, file.len());
    }
    let from = at + 3;
    let n = byte_at(file, at + 2);
    if file.len() - from < n {
        return refuse(14, file.len());
    }
    let to = from + n;
    if !is_name(&file[from..to]) {
        return refuse(12, at + 2);
    }
    if !is_new(file, k, at) {
        return refuse(12, at + 2);
    }
    Ok(Record::Name)
}

// Whether the time of the row where the cursor stands, of w bytes, is above the last row's.
fn is_above(file: &[u8], s: Cursor, w: usize) -> bool
    requires { TimeStands w file.now s }
    ensures { Decides result (Above file.now s.names s.rows) }
{
    let at = s.place;
    if s.rows == 0 {
        return true;
    }
    if s.last < time_at(file, at + 2, w) {
        return true;
    }
    false
}

// A record marked `RW` or `RL`: its time has w bytes, four or eight.
pub fn check_row(file: &[u8], s: Cursor, w: usize) -> Result<Record, Refusal>
    requires { RowStands w file.now s }
    ensures { Checks file.now s result }
{
    let at = s.place;
    let k = s.names;
    if k == 0 {
        return refuse(11, at);
    }
    if 65534 < s.rows {
        return refuse(11, at);
    }
    if file.len() - at < 2 + w + k {
        return refuse(14, file.len());
    }
    if !is_above(file, s, w) {
        return refuse(13, at + 2);
    }
    let from = at + 2 + w;
    let to = from + k;
    let bad = codes_to(file, from, to);
    if bad < to {
        return refuse(15, bad);
    }
    Ok(Record::Row(w))
}

// A record marked `EN`.
fn check_end(file: &[u8], s: Cursor) -> Result<Record, Refusal>
    requires { StandsAt End file.now s }
    ensures { Checks file.now s result }
{
    let at = s.place;
    let n = s.rows;
    if n == 0 {
        return refuse(11, at);
    }
    if file.len() - at < 6 {
        return refuse(14, file.len());
    }
    if word_at(file, at + 2) as usize != n {
        return refuse(16, at + 2);
    }
    if 6 < file.len() - at {
        return refuse(17, at + 6);
    }
    Ok(Record::End)
}

// The record where the cursor stands.
pub fn check_record(file: &[u8], s: Cursor) -> Result<Record, Refusal>
    requires { Stands file.now s }
    ensures { Checks file.now s result }
{
    let at = s.place;
    if file.len() - at < 2 {
        return refuse(14, file.len());
    }
    match mark_at(file, at) {
        Mark::Name => check_name(file, s),
        Mark::Row(w) => check_row(file, s, w),
        Mark::End => check_end(file, s),
        Mark::Other => refuse(11, at),
    }
}

// The cursor behind a good name.
pub fn pass_name(file: &[u8], s: Cursor) -> Cursor
    requires { GoodHere Name file.now s }
    ensures { Next file.now s result }
{
    let size = 3 + byte_at(file, s.place + 2);
    Cursor {
        place: s.place + size,
        names: s.names + 1,
        rows: s.rows,
        last: s.last,
    }
}

// The cursor behind a good row, whose time has w bytes.
pub fn pass_row(file: &[u8], s: Cursor, w: usize) -> Cursor
    requires { GoodHere (Row w) file.now s }
    ensures { Next file.now s result }
{
    let time = time_at(file, s.place + 2, w);
    Cursor {
        place: s.place + 2 + w + s.names,
        names: s.names,
        rows: s.rows + 1,
        last: time,
    }
}
